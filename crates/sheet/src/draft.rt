// The calls of a draft.
ghost use Rattle.std.specs.Prelude.{◌≡◌, [], ◌∷◌, ◌++◌, length as long};
ghost use Rattle.grammar.specs.Reading.{reading};
ghost use Rattle.grammar.specs.Sheet.{judge_load, judge_row, judge_open, judge_number, judge_name, judge_close, row_of_numbers, row_of_name, one_less};
ghost use Rattle.sheet.specs.Kept.{rows_held, rows_open, size_of, Holds, Loads};
ghost use Rattle.sheet.specs.Parts.{has_kind, fits_kind, row_of};

use crate::kept::{Draft, Fair};
use crate::opened::Opened;
use crate::part::Part;
use crate::store::Store;
use grammar::SheetFault;
use reader::Container;

impl<'a> Draft<'a> {
    /// An unused sheet over a buffer.
    pub fn new(buffer: &'a mut [u8]) -> Draft<'a>
        ensures blank { (rows_held result ≡ []) × (rows_open result ≡ []) }
        ensures same { result.store.buffer.now ≡ buffer.old }
        ensures named { result.store.buffer.ghost_name ≡ buffer.entry.ghost_name }
    {
        Draft {
            store: Store::new(buffer),
            opened: Opened::none(),
        }
    }

    /// Replaces all rows by those that a container tells; nothing is open then.
    pub fn load(&mut self, bytes: &[u8]) -> Result<(), SheetFault>
        ensures told { result ≡ judge_load (size_of self.old) (rows_held self.old) (rows_open self.old) (reading bytes.now) }
        ensures took { Loads self.old bytes.now self.new result }
        ensures named { self.new.store.buffer.ghost_name ≡ self.old.store.buffer.ghost_name }
        ensures sized { size_of self.new ≡ size_of self.old }
    {
        let container = Container::open(bytes)?;
        self.store.replace(self.opened.count(), &container)?;
        self.opened.clear();
        Ok(())
    }

    // Adds a row under the innermost open row, unless a condition refuses it.
    fn add(&mut self, kind: u8, part: Part) -> Result<(), SheetFault>
        ensures told { result ≡ judge_row (size_of self.old) (rows_held self.old) (rows_open self.old) (has_kind part.entry kind) (fits_kind part.entry kind) (row_of (long (rows_open self.old)) kind part.entry) }
        ensures took { Holds self.old (rows_held self.old ++ (row_of (long (rows_open self.old)) kind part.entry ∷ [])) (rows_open self.old) self.new result }
        ensures named { self.new.store.buffer.ghost_name ≡ self.old.store.buffer.ghost_name }
        ensures sized { size_of self.new ≡ size_of self.old }
    {
        self.judge(kind, part)?;
        let row = part.row(kind, self.opened.count());
        self.store.put(row, &part.text());
        Ok(())
    }

    /// Adds a row that parts may follow, under the innermost open row, and leaves it open.
    pub fn open(&mut self, kind: u8, a: i32, b: i32) -> Result<(), SheetFault>
        ensures told { result ≡ judge_open (size_of self.old) (rows_held self.old) (rows_open self.old) kind a b }
        ensures took { Holds self.old (rows_held self.old ++ (row_of_numbers (long (rows_open self.old)) kind a b ∷ [])) (kind ∷ rows_open self.old) self.new result }
        ensures named { self.new.store.buffer.ghost_name ≡ self.old.store.buffer.ghost_name }
        ensures sized { size_of self.new ≡ size_of self.old }
    {
        self.add(kind, Part::Holder { a, b })?;
        self.opened.push(kind);
        Ok(())
    }

    /// Adds a row of numbers that nothing may follow.
    pub fn number(&mut self, kind: u8, a: i32, b: i32) -> Result<(), SheetFault>
        ensures told { result ≡ judge_number (size_of self.old) (rows_held self.old) (rows_open self.old) kind a b }
        ensures took { Holds self.old (rows_held self.old ++ (row_of_numbers (long (rows_open self.old)) kind a b ∷ [])) (rows_open self.old) self.new result }
        ensures named { self.new.store.buffer.ghost_name ≡ self.old.store.buffer.ghost_name }
        ensures sized { size_of self.new ≡ size_of self.old }
    {
        self.add(kind, Part::Numbers { a, b })
    }

    /// Adds a text in a language.
    pub fn name(&mut self, kind: u8, language: u8, text: &[u8]) -> Result<(), SheetFault>
        ensures told { result ≡ judge_name (size_of self.old) (rows_held self.old) (rows_open self.old) kind language text.now }
        ensures took { Holds self.old (rows_held self.old ++ (row_of_name (long (rows_open self.old)) kind language text.now ∷ [])) (rows_open self.old) self.new result }
        ensures named { self.new.store.buffer.ghost_name ≡ self.old.store.buffer.ghost_name }
        ensures sized { size_of self.new ≡ size_of self.old }
    {
        self.add(kind, Part::Name { language, text })
    }

    /// Closes the innermost open row.
    pub fn close(&mut self) -> Result<(), SheetFault>
        ensures told { result ≡ judge_close (rows_held self.old) (rows_open self.old) }
        ensures took { Holds self.old (rows_held self.old) (one_less (rows_open self.old)) self.new result }
        ensures same { self.new.store ≡ self.old.store }
    {
        self.opened.pop().ok_or(SheetFault::NothingOpen {
            rows: usize::from(self.store.count),
            open: 0,
        })?;
        Ok(())
    }

    /// Drops all rows.
    pub fn clear(&mut self)
        ensures blank { (rows_held self.new ≡ []) × (rows_open self.new ≡ []) }
        ensures same { self.new.store.buffer.now ≡ self.old.store.buffer.now }
        ensures named { self.new.store.buffer.ghost_name ≡ self.old.store.buffer.ghost_name }
    {
        self.store.clear();
        self.opened.clear();
    }

    /// Closes whatever is open, and gives the fair copy.
    pub fn finish(self) -> Fair<'a>
        ensures { result.store ≡ self.entry.store }
    {
        Fair { store: self.store }
    }

    /// Gives the buffer back.
    pub fn give_up(self) -> &'a mut [u8]
        ensures same { result.now ≡ self.entry.store.buffer.now }
        ensures named { result.ghost_name ≡ self.entry.store.buffer.ghost_name }
    {
        self.store.into_buffer()
    }
}
