// Places among records, and what stands there.
ghost use Rattle.std.specs.Prelude.{◌≡◌, [], MatchOption};
ghost use Rattle.location.specs.Answers.{any_row, head_row, head_text, Next};
ghost use Rattle.sheet.specs.Places.{rows_at, IsRecord};

use crate::record::HEAD;
use location::Row;

// An offset among records, and how many rows there are at most from there on.
#[derive(Clone, Copy, Debug, PartialEq, Eq)]
pub struct Place {
    pub(crate) at: usize,
    pub(crate) left: u8,
}

impl Place {
    // The record here, if all of it is there: the bytes before its text, and the text.
    fn record(self, bytes: &[u8]) -> Option<(&[u8; HEAD], &[u8])>
        ensures { MatchOption result (rows_at bytes.now self ≡ []) (λ r. IsRecord bytes.now self r.0.now r.1.now) }
    {
        if self.left == 0 {
            return None;
        }
        let (head, rest) = bytes.get(self.at..)?.split_first_chunk::<HEAD>()?;
        let text = rest.get(..usize::from(head[HEAD - 1]))?;
        Some((head, text))
    }

    // Whether a row is here.
    pub(crate) fn here(self, bytes: &[u8]) -> bool
        ensures { result ≡ any_row (rows_at bytes.now self) }
    {
        self.record(bytes).is_some()
    }

    // The row here.
    pub(crate) fn row(self, bytes: &[u8]) -> Option<Row>
        ensures { result ≡ head_row (rows_at bytes.now self) }
    {
        let (head, _) = self.record(bytes)?;
        let [depth, kind, a, b, c, d, e, f, g, h, language, length] = *head;
        Some(Row {
            depth,
            kind,
            a: i32::from_be_bytes([a, b, c, d]),
            b: i32::from_be_bytes([e, f, g, h]),
            language,
            length,
        })
    }

    // The place of the rows after the one here.
    pub(crate) fn next(self, bytes: &[u8]) -> Option<Place>
        ensures { Next (rows_at bytes.now) (rows_at bytes.now self) result }
    {
        let (_, text) = self.record(bytes)?;
        Some(Place {
            at: self.at + HEAD + text.len(),
            left: self.left - 1,
        })
    }

    // The text of the row here, empty where no row is.
    pub(crate) fn text(self, bytes: &[u8]) -> &[u8]
        ensures { result.now ≡ head_text (rows_at bytes.now self) }
    {
        // `map_or` would take a closure with a clause of its own.
        match self.record(bytes) {
            Some((_, text)) => text,
            None => &[],
        }
    }
}
