// Rows as records of bytes: twelve of each before its text, and then the text.
ghost use Rattle.std.specs.Prelude.{◌≡◌, ℕ, ◌+◌, ◌≤◌, List, ◌++◌, length as long, take, if◌then◌else◌, nat_le};
ghost use Rattle.location.specs.Answers.{head_text, laid_over};
ghost use Rattle.sheet.specs.Records.{head_of, encoded, with_text};

use location::{Location, Row, copy_front};

// The bytes of a record before its text.
pub(crate) const HEAD: usize = 12;

// What a text can be copied from.
pub(crate) trait Text {
    // The text.
    ghost bytes: { Self → List ℕ };

    // Copies the text to the front of `out`, if it fits.
    fn copy_to(&self, out: &mut [u8]) -> bool
        ensures fits { result ≡ nat_le (long (bytes self.now)) (long out.old) }
        ensures wrote { out.new ≡ (if result then laid_over (bytes self.now) out.old else out.old) };
}

impl<'t> Text for &'t [u8] {
    ghost bytes = { λ s. s.now };

    fn copy_to(&self, out: &mut [u8]) -> bool {
        copy_front(self, out)
    }
}

// The text of the row at a mark of a location.
#[derive(Drop)]
pub(crate) struct There<'l, L: Location> {
    pub(crate) l: &'l L,
    pub(crate) m: L::Mark,
}

impl<'l, L: Location> Text for There<'l, L> {
    ghost bytes = { λ s. head_text (L.Location.rows s.l.now s.m) };

    fn copy_to(&self, out: &mut [u8]) -> bool {
        self.l.copy_text(self.m, out)
    }
}

// The bytes before a row's text, of which the last is its length.
fn head(row: Row) -> [u8; 12]
    ensures { result ≡ head_of row }
{
    let [a, b, c, d] = row.a.to_be_bytes();
    let [e, f, g, h] = row.b.to_be_bytes();
    [
        row.depth,
        row.kind,
        a,
        b,
        c,
        d,
        e,
        f,
        g,
        h,
        row.language,
        row.length,
    ]
}

// Writes a row and its text as a record at an offset.
pub(crate) fn lay<T: Text>(buffer: &mut [u8], at: usize, row: Row, text: &T)
    requires sized { row.length ≡ long (T.bytes text.now) }
    requires room { at + (12 + row.length) ≤ long buffer.old }
    ensures { take (at + (12 + row.length)) buffer.new ≡ take at buffer.old ++ encoded (with_text row (T.bytes text.now)) }
{
    buffer[at..at + HEAD].copy_from_slice(&head(row));
    text.copy_to(&mut buffer[at + HEAD..]);
}
