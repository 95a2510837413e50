// Whether a sheet can hold the rows of a location.
ghost use Rattle.std.specs.Prelude.{◌≡◌};
ghost use Rattle.sheet.specs.Records.{measured};

use crate::record::HEAD;
use location::{Location, rows_of};

// The most rows that a sheet holds.
pub(crate) const MOST_ROWS: u8 = 250;

// The bytes that the rows of a location take, if a sheet can hold so many. Stops at the first row too many.
pub(crate) fn measure<L: Location>(l: &L) -> Option<usize>
    ensures { result ≡ measured (L.Location.whole l.now) }
{
    let mut count: u8 = 0;
    let mut bytes: usize = 0;
    for row in rows_of(l) {
        if count == MOST_ROWS {
            return None;
        }
        count += 1;
        bytes += HEAD + usize::from(row.length);
    }
    Some(bytes)
}
