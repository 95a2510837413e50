// Marks in a container: a place among its components, with the holders around it.
ghost use Rattle.std.specs.Prelude.{◌≡◌, ℕ, suc, ◌-◌, ◌<◌, ◌∷◌, length, slice_index_or};
ghost use Rattle.reader.specs.Marks.{blank_frame, stack};

use grammar::Spot;

// The most holders that a row of a legal container has around it, the descriptions among them.
pub(crate) const MOST_HOLDERS: usize = 17;

// A holder that is not done: where its data end, and where its parts stand.
#[derive(Clone, Copy)]
pub(crate) struct Frame {
    pub(crate) end: usize,
    pub(crate) spot: Spot,
}

const BLANK: Frame = Frame {
    end: 0,
    spot: Spot::Nowhere,
};

// A place, and the holders around it, of which so many count: the outermost first.
// An array with its count beside, for a mark is `Copy` and uses no heap, and an `ArrayVec` is not `Copy`.
#[derive(Clone, Copy)]
pub struct Mark {
    pub(crate) at: usize,
    pub(crate) held: u8,
    pub(crate) frames: [Frame; MOST_HOLDERS],
}

// Puts a holder in, on so many others.
fn put_frame(frames: &mut [Frame], held: usize, frame: Frame)
    requires { held < length frames.old }
    ensures { stack frames.new (suc held) ≡ record { end = frame.end; spot = frame.spot } ∷ stack frames.old held }
{
    frames[held] = frame;
}

impl Mark {
    // The place `at` inside one holder.
    pub(crate) fn inside(frame: Frame, at: usize) -> Mark
        ensures place { result.at ≡ at }
        ensures holders { stack result.frames result.held ≡ record { end = frame.end; spot = frame.spot } ∷ stack result.frames 0 }
    {
        Mark {
            at,
            held: 1,
            frames: [frame; MOST_HOLDERS],
        }
    }

    // The innermost holder.
    pub(crate) fn top(&self) -> Frame
        requires { 0 < self.now.held }
        ensures { result ≡ slice_index_or self.now.frames (self.now.held - 1) blank_frame }
    {
        let innermost = self.frames.get(usize::from(self.held - 1));
        innermost.copied().unwrap_or(BLANK)
    }

    // Goes to another place inside the same holders.
    pub(crate) fn go(&mut self, at: usize)
        ensures { self.new ≡ record { at = at; held = self.old.held; frames = self.old.frames } }
    {
        self.at = at;
    }

    // Leaves the innermost holder, at the same place.
    pub(crate) fn pop(&mut self)
        requires { 0 < self.old.held }
        ensures { self.new ≡ record { at = self.old.at; held = self.old.held - 1; frames = self.old.frames } }
    {
        self.held -= 1;
    }

    // Enters one holder more, inside the others.
    pub(crate) fn push(&mut self, frame: Frame, at: usize)
        requires { self.old.held < 17 }
        ensures place { self.new.at ≡ at }
        ensures holders { stack self.new.frames self.new.held ≡ record { end = frame.end; spot = frame.spot } ∷ stack self.old.frames self.old.held }
    {
        put_frame(&mut self.frames, usize::from(self.held), frame);
        self.held += 1;
        self.at = at;
    }
}
