// A trial: a script on a sheet, and two locations against each other.
ghost use Rattle.std.specs.Prelude.{◌≡◌, false, length as long};
ghost use Rattle.sheet.specs.Held.{held};
ghost use Rattle.runs.specs.Scripts.{fits_script};
ghost use Rattle.tpegloc.specs.Tried.{Tried};

use super::pair::{Agreement, agree};
use location::Location;
use runs::{Answer, Call, run_script};
use sheet::Fair;

/// Makes the calls of a script on one unused sheet over a buffer, and sends two locations of any makes, each into an output of its own. Gives the sheet
/// finished, and what was sent and whether it is the same. Every promise of reading, sending and the sheet stands on this call.
pub fn trial<'a, A: Location, B: Location>(
    buffer: &'a mut [u8],
    calls: &[Call],
    answers: &mut [Answer],
    out: &mut [u8],
    a: &A,
    b: &B,
    left: &mut [u8],
    right: &mut [u8],
) -> (Fair<'a>, Agreement)
    ensures tried { Tried (long buffer.old) calls.now answers.old answers.new out.old out.new (held result.0.store) (A.Location.whole a.now) (B.Location.whole b.now) left.old left.new right.old right.new result.1 }
    ensures same { fits_script calls.now (long answers.old) (long out.old) ≡ false → result.0.store.buffer.now ≡ buffer.old }
{
    let agreement = agree(a, b, left, right);
    (run_script(buffer, calls, answers, out), agreement)
}
