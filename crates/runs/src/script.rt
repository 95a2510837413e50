// Scripts: what is asked of one sheet, call by call, and what it answers.
ghost use Rattle.std.specs.Prelude.{◌≡◌};
ghost use Rattle.grammar.specs.Sheet.{room_in, answer_of};
ghost use Rattle.runs.specs.Scripts.{called, shown, shown_of_send};

use grammar::{SendFault, SheetFault};

/// What is asked of a sheet.
#[derive(Clone, Copy, Debug, PartialEq, Eq)]
pub enum Call<'b> {
    Load(&'b [u8]),
    Open(u8, i32, i32),
    Number(u8, i32, i32),
    Name(u8, u8, &'b [u8]),
    Close,
    Clear,
    Finish,
    Reopen,
    // into an output of so many bytes
    Send(usize),
}

impl<'b> Call<'b> {
    // The length of the output that the call writes to.
    pub(crate) fn room(&self) -> usize
        ensures { result ≡ room_in (called self.now) }
    {
        match self {
            Call::Send(room) => *room,
            _ => 0,
        }
    }
}

/// What it answers.
#[derive(Clone, Copy, Debug, PartialEq, Eq)]
pub enum Answer {
    Done,
    // so many bytes, in this default language
    Sent(usize, u8),
    Refused(SheetFault),
    NotSent(SendFault),
    // a draft cannot be sent or reopened, and a fair copy takes no other call: passed over
    NotNow,
}

// The answer to a call that is done or refused.
impl From<Result<(), SheetFault>> for Answer {
    ghost from_gives = { λ verdict r. r ≡ shown (answer_of verdict) };

    fn from(verdict: Result<(), SheetFault>) -> Answer {
        match verdict {
            Ok(()) => Answer::Done,
            Err(fault) => Answer::Refused(fault),
        }
    }
}

// The answer to a send.
impl From<Result<(usize, u8), SendFault>> for Answer {
    ghost from_gives = { λ sent r. r ≡ shown_of_send sent };

    fn from(sent: Result<(usize, u8), SendFault>) -> Answer {
        match sent {
            Ok((length, default)) => Answer::Sent(length, default),
            Err(fault) => Answer::NotSent(fault),
        }
    }
}
