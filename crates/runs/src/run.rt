// Runs a script on one sheet.
ghost use Rattle.std.specs.Prelude.{◌≡◌, ◌≤◌, false, [], map, length as long, nat_le};
ghost use Rattle.sheet.specs.Held.{held};
ghost use Rattle.sheet.specs.Kept.{rows_held, rows_open, size_of};
ghost use Rattle.runs.specs.Scripts.{called, rooms, fits_script, Runs, Ran};

use crate::script::{Answer, Call};
use crate::stage::Stage;
use sheet::{Draft, Fair};

// The output has room for all sends.
fn rooms_fit(calls: &[Call], limit: usize) -> bool
    ensures { result ≡ nat_le (rooms (map called calls.now)) limit }
{
    calls
        .iter()
        .try_fold(limit, |left, call| left.checked_sub(call.room()))
        .is_some()
}

// Goes over the calls of a script, on an unused sheet.
fn go<'a>(draft: Draft<'a>, calls: &[Call], answers: &mut [Answer], out: &mut [u8]) -> Fair<'a>
    requires unused { (rows_held draft ≡ []) × (rows_open draft ≡ []) }
    requires answered { long calls.now ≤ long answers.old }
    requires room { rooms (map called calls.now) ≤ long out.old }
    ensures ran { Runs (size_of draft.entry) calls.now answers.old answers.new out.old out.new (held result.store) }
    ensures sized { long result.store.buffer.now ≡ size_of draft.entry }
{
    let mut stage = Stage::Draft(draft);
    let mut at = 0;
    // Indexed, since nothing is known of what `answers.iter_mut()` in a `zip`, or halves that `split_at_mut` hands on from turn to turn, leave behind.
    for (i, call) in calls.iter().enumerate() {
        let room = call.room();
        (stage, answers[i]) = stage.step(call, &mut out[at..at + room]);
        at += room;
    }
    stage.finish()
}

/// Whether a script can be run with so many answers and so much output: an answer for each call, and an output for each send, one after the other.
pub fn script_fits(calls: &[Call], answers: usize, room: usize) -> bool
    ensures { result ≡ fits_script calls.now answers room }
{
    calls.len() <= answers && rooms_fit(calls, room)
}

/// Makes the calls of a script on one unused sheet over a buffer, and gives the sheet finished. Each call gets an answer. Each send has an output of its
/// own, as long as it asks for, and these lie in `out` one after the other; what was sent stands at the front of its output, and all else of `out` is as
/// it was. Where the script does not fit the answers and the output, no call is made and nothing is changed.
pub fn run_script<'a>(
    buffer: &'a mut [u8],
    calls: &[Call],
    answers: &mut [Answer], // the caller's, since a run has no memory of its own to give them in
    out: &mut [u8],
) -> Fair<'a>
    ensures ran { Ran (long buffer.old) calls.now answers.old answers.new out.old out.new (held result.store) (fits_script calls.now (long answers.old) (long out.old)) }
    ensures same { fits_script calls.now (long answers.old) (long out.old) ≡ false → result.store.buffer.now ≡ buffer.old }
    ensures sized { long result.store.buffer.now ≡ long buffer.old }
{
    let fits = script_fits(calls, answers.len(), out.len());
    let draft = Draft::new(buffer);
    if !fits {
        return draft.finish();
    }
    go(draft, calls, answers, out)
}
