// A sheet on its way through a script, and what a call makes of it.
ghost use Rattle.std.specs.Prelude.{◌≡◌, length as long};
ghost use Rattle.grammar.specs.Sheet.{room_in};
ghost use Rattle.sheet.specs.Held.{held};
ghost use Rattle.runs.specs.Scripts.{called, shown};
ghost use Rattle.runs.specs.Turns.{answer_on, laid, rows_on, size_on, Turned};
ghost use Rattle.runs.specs.declared.stage.Stage.TheVariants.{Draft as a_draft, Fair as a_fair};

use crate::script::{Answer, Call};
use sender::send;
use sheet::{Draft, Fair};

// A sheet is a draft or a fair copy.
#[derive(Drop)]
pub(crate) enum Stage<'a> {
    Draft(Draft<'a>),
    Fair(Fair<'a>),
}

// Makes a call on a draft.
fn step_draft<'a>(mut draft: Draft<'a>, call: &Call) -> (Stage<'a>, Answer)
    ensures told { result.1 ≡ shown (answer_on (a_draft draft.entry) call.now) }
    ensures turned { Turned (a_draft draft.entry) (called call.now) (answer_on (a_draft draft.entry) call.now) result.0 }
{
    let answer: Answer = match call {
        Call::Load(bytes) => draft.load(bytes).into(),
        Call::Open(kind, a, b) => draft.open(*kind, *a, *b).into(),
        Call::Number(kind, a, b) => draft.number(*kind, *a, *b).into(),
        Call::Name(kind, language, text) => draft.name(*kind, *language, text).into(),
        Call::Close => draft.close().into(),
        Call::Clear => {
            draft.clear();
            Answer::Done
        }
        Call::Finish => return (Stage::Fair(draft.finish()), Answer::Done),
        Call::Reopen | Call::Send(_) => Answer::NotNow,
    };
    (Stage::Draft(draft), answer)
}

// Makes a call on a fair copy; a send has its part of the output.
fn step_fair<'a>(fair: Fair<'a>, call: &Call, part: &mut [u8]) -> (Stage<'a>, Answer)
    requires room { long part.old ≡ room_in (called call.now) }
    ensures told { result.1 ≡ shown (answer_on (a_fair fair.entry) call.now) }
    ensures wrote { part.new ≡ laid (answer_on (a_fair fair.entry) call.now) part.old }
    ensures turned { Turned (a_fair fair.entry) (called call.now) (answer_on (a_fair fair.entry) call.now) result.0 }
{
    match call {
        Call::Reopen => (Stage::Draft(fair.reopen()), Answer::Done),
        Call::Send(_) => {
            let sent = send(&fair, part);
            (Stage::Fair(fair), sent.into())
        }
        _ => (Stage::Fair(fair), Answer::NotNow),
    }
}

impl<'a> Stage<'a> {
    // Makes a call on a sheet; a send has its part of the output.
    pub(crate) fn step(self, call: &Call, part: &mut [u8]) -> (Stage<'a>, Answer)
        requires room { long part.old ≡ room_in (called call.now) }
        ensures told { result.1 ≡ shown (answer_on self.entry call.now) }
        ensures wrote { part.new ≡ laid (answer_on self.entry call.now) part.old }
        ensures turned { Turned self.entry (called call.now) (answer_on self.entry call.now) result.0 }
    {
        match self {
            Stage::Draft(draft) => step_draft(draft, call),
            Stage::Fair(fair) => step_fair(fair, call, part),
        }
    }

    // The sheet finished.
    pub(crate) fn finish(self) -> Fair<'a>
        ensures rows { held result.store ≡ rows_on self.entry }
        ensures sized { long result.store.buffer.now ≡ size_on self.entry }
    {
        match self {
            Stage::Draft(draft) => draft.finish(),
            Stage::Fair(fair) => fair,
        }
    }
}
