// A call with bytes of its own.
ghost use Rattle.std.specs.Prelude.{◌≡◌};
ghost use Rattle.grammar.specs.Sheet.{room_in};
ghost use Rattle.runs.specs.Scripts.{called};
ghost use Rattle.scripts.specs.Played.{asked_call};

use runs::Call;

/// A call with bytes of its own. No container is longer than a send's room can say.
#[derive(Drop)]
pub enum Asked {
    Load(Vec<u8>),
    Open(u8, i32, i32),
    Number(u8, i32, i32),
    Name(u8, u8, Vec<u8>),
    Close,
    Clear,
    Finish,
    Reopen,
    Send(u16),
}

impl Asked {
    /// The call itself, which borrows the bytes.
    pub fn call(&self) -> Call<'_>
        ensures { called result ≡ asked_call self.now }
    {
        match self {
            Asked::Load(bytes) => Call::Load(bytes.as_slice()),
            Asked::Open(kind, a, b) => Call::Open(*kind, *a, *b),
            Asked::Number(kind, a, b) => Call::Number(*kind, *a, *b),
            Asked::Name(kind, language, text) => Call::Name(*kind, *language, text.as_slice()),
            Asked::Close => Call::Close,
            Asked::Clear => Call::Clear,
            Asked::Finish => Call::Finish,
            Asked::Reopen => Call::Reopen,
            Asked::Send(room) => Call::Send(usize::from(*room)),
        }
    }

    /// The length of the output that the call writes to.
    pub fn room(&self) -> usize
        ensures { result ≡ room_in (asked_call self.now) }
    {
        match self {
            Asked::Send(room) => usize::from(*room),
            _ => 0,
        }
    }
}
