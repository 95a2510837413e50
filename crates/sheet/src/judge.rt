// Whether a row may be added to a draft, and why not.
ghost use Rattle.std.specs.Prelude.{◌≡◌, length as long};
ghost use Rattle.grammar.specs.Sheet.{judge_row};
ghost use Rattle.sheet.specs.Kept.{rows_held, rows_open, size_of};
ghost use Rattle.sheet.specs.Parts.{has_kind, fits_kind, row_of};

use crate::kept::Draft;
use crate::measure::MOST_ROWS;
use crate::part::Part;
use crate::record::HEAD;
use grammar::SheetFault;

impl<'a> Draft<'a> {
    // The first condition that refuses the row that a call adds.
    pub(crate) fn judge(&self, kind: u8, part: Part) -> Result<(), SheetFault>
        ensures { result ≡ judge_row (size_of self.now) (rows_held self.now) (rows_open self.now) (has_kind part.entry kind) (fits_kind part.entry kind) (row_of (long (rows_open self.now)) kind part.entry) }
    {
        let rows = usize::from(self.store.count);
        let open = self.opened.count();
        if !(part.has(kind) && self.opened.may_hold(kind)) {
            return Err(SheetFault::Misplaced { rows, open });
        }
        if self.opened.is_ninth(kind) {
            return Err(SheetFault::NinthNode { rows, open });
        }
        if !part.fits(kind) {
            return Err(SheetFault::Unfit { rows, open });
        }
        if self.store.count >= MOST_ROWS {
            return Err(SheetFault::TooManyRows { rows, open });
        }
        if self.store.buffer.len() - self.store.used < HEAD + part.text().len() {
            return Err(SheetFault::TooCostly { rows, open });
        }
        Ok(())
    }
}
