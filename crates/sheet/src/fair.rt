// The calls of a fair copy, which is a location: its marks are places among its records.
ghost use Rattle.std.specs.Prelude.{◌≡◌, []};
ghost use Rattle.sheet.specs.Kept.{rows_open};
ghost use Rattle.sheet.specs.Held.{held};
ghost use Rattle.sheet.specs.Places.{records_of, rows_at};

use crate::kept::{Draft, Fair};
use crate::opened::Opened;
use crate::place::Place;
use location::{Location, Row, copy_front};

impl<'a> Fair<'a> {
    /// The same rows as a draft again, with nothing open.
    pub fn reopen(self) -> Draft<'a>
        ensures rows { result.store ≡ self.entry.store }
        ensures closed { rows_open result ≡ [] }
    {
        Draft {
            store: self.store,
            opened: Opened::none(),
        }
    }

    /// Gives the buffer back.
    pub fn give_up(self) -> &'a mut [u8]
        ensures same { result.now ≡ self.entry.store.buffer.now }
        ensures named { result.ghost_name ≡ self.entry.store.buffer.ghost_name }
    {
        self.store.into_buffer()
    }
}

impl<'a> Location for Fair<'a> {
    type Mark = Place;

    ghost rows = { λ f p. rows_at (records_of f.store) p };

    ghost whole = { λ f. held f.store };

    fn first(&self) -> Place {
        Place {
            at: 0,
            left: self.store.count,
        }
    }

    fn here(&self, m: Place) -> bool {
        m.here(self.store.records())
    }

    fn row(&self, m: Place) -> Option<Row> {
        m.row(self.store.records())
    }

    fn byte(&self, m: Place, i: usize) -> Option<u8> {
        m.text(self.store.records()).get(i).copied()
    }

    fn next(&self, m: Place) -> Option<Place> {
        m.next(self.store.records())
    }

    fn copy_text(&self, m: Place, out: &mut [u8]) -> bool {
        copy_front(m.text(self.store.records()), out)
    }
}
