// A location: a list of rows that stays while it is looked at, mark by mark.
#![tactic(auto)]

ghost use Rattle.std.specs.Prelude.{◌≡◌, true, length as long, if◌then◌else◌, nat_le};
ghost use Rattle.std.specs.List.{slice_get};
ghost use Rattle.grammar.specs.Grammar.{Rows, Bytes};
ghost use Rattle.location.specs.Answers.{any_row, head_row, head_text, laid_over, Next};

mod cut;
mod language;
mod layered;
mod steps;
#[cfg(test)]
mod tests;

pub use cut::{Cut, Levels, cut_stands};
pub use language::{Language, OneLanguage};
pub use layered::{Layered, Rule};
pub use steps::{Rows, Step, Steps, rows_from, rows_of, steps_from, steps_of};

// A row as code sees it: of the text only the length.
#[derive(Clone, Copy, Debug, PartialEq, Eq)]
pub struct Row {
    pub depth: u8,
    pub kind: u8,
    pub a: i32,
    pub b: i32,
    pub language: u8,
    pub length: u8,
}

// Every value of a mark's type has a list of rows, and each answer at a mark follows from that list.
pub trait Location {
    type Mark: Copy + Drop;

    // The rows from a mark on.
    ghost rows: { Self → Self.Mark → Rows };

    // All the rows.
    ghost whole: { Self → Rows };

    // The first mark, which has all the rows.
    fn first(&self) -> Self::Mark
        ensures { rows self.now result ≡ whole self.now };

    // Whether a row is there.
    fn here(&self, m: Self::Mark) -> bool
        ensures { result ≡ any_row (rows self.now m) };

    // The row there, with its text's length.
    fn row(&self, m: Self::Mark) -> Option<Row>
        ensures { result ≡ head_row (rows self.now m) };

    // Byte i of the text there.
    fn byte(&self, m: Self::Mark, i: usize) -> Option<u8>
        ensures { result ≡ slice_get (head_text (rows self.now m)) i };

    // The mark of the rest, where a row is there.
    fn next(&self, m: Self::Mark) -> Option<Self::Mark>
        ensures { Next (rows self.now) (rows self.now m) result };

    // Copies the text there to the front of `out`, if it fits. A make that can copy at once gives a body of its own.
    fn copy_text(&self, m: Self::Mark, out: &mut [u8]) -> bool
        ensures fits { result ≡ nat_le (long (head_text (rows self.now m))) (long out.old) }
        ensures wrote { out.new ≡ (if result then laid_over (head_text (rows self.now m)) out.old else out.old) }
        ensures bytes { result ≡ true → Bytes (head_text (rows self.now m)) }
    {
        let length = self.row(m).map_or(0, |row| usize::from(row.length));
        if length > out.len() {
            return false;
        }
        for (i, place) in out[..length].iter_mut().enumerate() {
            if let Some(b) = self.byte(m, i) {
                *place = b;
            }
        }
        true
    }
}

// A location that is only lent is the same location.
impl<'a, L: Location> Location for &'a L {
    type Mark = L::Mark;

    ghost rows = { λ s m. L.Location.rows s.now m };

    ghost whole = { λ s. L.Location.whole s.now };

    fn first(&self) -> L::Mark {
        (**self).first()
    }

    fn here(&self, m: L::Mark) -> bool {
        (**self).here(m)
    }

    fn row(&self, m: L::Mark) -> Option<Row> {
        (**self).row(m)
    }

    fn byte(&self, m: L::Mark, i: usize) -> Option<u8> {
        (**self).byte(m, i)
    }

    fn next(&self, m: L::Mark) -> Option<L::Mark> {
        (**self).next(m)
    }

    fn copy_text(&self, m: L::Mark, out: &mut [u8]) -> bool {
        (**self).copy_text(m, out)
    }
}

// Copies a text to the front of `out`, if it fits.
pub fn copy_front(text: &[u8], out: &mut [u8]) -> bool
    ensures fits { result ≡ nat_le (long text.now) (long out.old) }
    ensures wrote { out.new ≡ (if result then laid_over text.now out.old else out.old) }
    ensures bytes { Bytes text.now }
{
    if text.len() > out.len() {
        return false;
    }
    out[..text.len()].copy_from_slice(text);
    true
}
