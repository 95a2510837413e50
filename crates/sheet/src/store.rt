// The rows of a sheet in its buffer.
ghost use Rattle.std.specs.Prelude.{◌≡◌, ◌≤◌, length as long, take};
ghost use Rattle.grammar.specs.Sheet.{cost};
ghost use Rattle.sheet.specs.Records.{rows_in};

use crate::measure::measure;
use crate::record::{HEAD, Text, There, lay};
use grammar::SheetFault;
use location::{Location, Row, steps_of};

// The records lie one after the other from the front of the buffer, and no sheet has more than 250.
#[derive(Drop)]
pub(crate) struct Store<'a> {
    pub(crate) buffer: &'a mut [u8],
    pub(crate) used: usize, // the bytes that the records take
    pub(crate) count: u8, // how many rows there are
    ghost fits: { used ≤ long buffer.now },
    ghost counted: { long (rows_in count (take used buffer.now)) ≡ count },
    ghost costs: { cost (rows_in count (take used buffer.now)) ≡ used },
    ghost few: { count ≤ 250 },
}

impl<'a> Store<'a> {
    ghost use Rattle.std.specs.Prelude.{◌+◌, ◌<◌, [], ◌∷◌, ◌++◌};
    ghost use Rattle.grammar.specs.Sheet.{judge_rows};
    ghost use Rattle.sheet.specs.Records.{with_text};
    ghost use Rattle.sheet.specs.Held.{held, Replaced};
    ghost use Rattle.sheet.specs.Places.{records_of};

    // No rows yet.
    pub(crate) fn new(buffer: &'a mut [u8]) -> Store<'a>
        ensures blank { held result ≡ [] }
        ensures same { result.buffer.now ≡ buffer.old }
        ensures named { result.buffer.ghost_name ≡ buffer.entry.ghost_name }
    {
        Store {
            buffer,
            used: 0,
            count: 0,
        }
    }

    // The bytes of the rows.
    pub(crate) fn records(&self) -> &[u8]
        ensures { result.now ≡ records_of self.now }
    {
        &self.buffer[..self.used]
    }

    // Gives the buffer back.
    pub(crate) fn into_buffer(self) -> &'a mut [u8]
        ensures same { result.now ≡ self.entry.buffer.now }
        ensures named { result.ghost_name ≡ self.entry.buffer.ghost_name }
    {
        self.buffer
    }

    // Adds a row with its text.
    pub(crate) fn put<T: Text>(&mut self, row: Row, text: &T)
        requires sized { row.length ≡ long (T.bytes text.now) }
        requires few { self.old.count < 250 }
        requires room { self.old.used + (12 + row.length) ≤ long self.old.buffer.now }
        ensures took { held self.new ≡ held self.old ++ (with_text row (T.bytes text.now) ∷ []) }
        ensures named { self.new.buffer.ghost_name ≡ self.old.buffer.ghost_name }
        ensures sized { long self.new.buffer.now ≡ long self.old.buffer.now }
    {
        let at = self.used;
        lay(self.buffer, at, row, text);
        self.used = at + (HEAD + usize::from(row.length));
        self.count += 1;
    }

    // Replaces all rows by those of a location.
    fn fill<L: Location>(&mut self, l: &L)
        requires few { long (L.Location.whole l.now) ≤ 250 }
        requires room { cost (L.Location.whole l.now) ≤ long self.old.buffer.now }
        ensures took { held self.new ≡ L.Location.whole l.now }
        ensures named { self.new.buffer.ghost_name ≡ self.old.buffer.ghost_name }
        ensures sized { long self.new.buffer.now ≡ long self.old.buffer.now }
    {
        self.clear();
        for step in steps_of(l) {
            let text = There { l, m: step.mark };
            self.put(step.row, &text);
        }
    }

    // Holds the rows of a location in place of all others, unless a condition refuses them, where so many rows are open.
    pub(crate) fn replace<L: Location>(&mut self, open: u8, l: &L) -> Result<(), SheetFault>
        ensures told { result ≡ judge_rows (long self.old.buffer.now) (long (held self.old)) «open» (L.Location.whole l.now) }
        ensures took { Replaced self.old (L.Location.whole l.now) self.new result }
        ensures named { self.new.buffer.ghost_name ≡ self.old.buffer.ghost_name }
        ensures sized { long self.new.buffer.now ≡ long self.old.buffer.now }
    {
        let rows = usize::from(self.count);
        let bytes = measure(l).ok_or(SheetFault::TooManyRows { rows, open })?;
        if bytes > self.buffer.len() {
            return Err(SheetFault::TooCostly { rows, open });
        }
        self.fill(l);
        Ok(())
    }

    // Drops all rows; the bytes stay.
    pub(crate) fn clear(&mut self)
        ensures blank { held self.new ≡ [] }
        ensures same { self.new.buffer.now ≡ self.old.buffer.now }
        ensures named { self.new.buffer.ghost_name ≡ self.old.buffer.ghost_name }
    {
        self.used = 0;
        self.count = 0;
    }
}
