// What a call adds to a sheet.
ghost use Rattle.std.specs.Prelude.{◌≡◌, ◌≤◌, length as long};
ghost use Rattle.grammar.specs.Format.{longest_at};
ghost use Rattle.location.specs.Answers.{seen};
ghost use Rattle.sheet.specs.Parts.{has_kind, fits_kind, text_of, row_of};

use fields::fits_numbers;
use grammar::{Spot, layout_of};
use location::Row;

// A row that parts may follow, a row of numbers that nothing may follow, or a text.
#[derive(Clone, Copy)]
pub(crate) enum Part<'t> {
    Holder { a: i32, b: i32 },
    Numbers { a: i32, b: i32 },
    Name { language: u8, text: &'t [u8] },
}

// The most bytes of a text whose component stands at this spot: one byte counts them, and the component's length holds both.
fn longest_text(spot: Spot) -> usize
    ensures { result ≡ longest_at spot }
{
    if spot.width() == 1 { 254 } else { 255 }
}

impl<'t> Part<'t> {
    // The call adds such kinds.
    pub(crate) fn has(self, kind: u8) -> bool
        ensures { result ≡ has_kind self.entry kind }
    {
        let layout = layout_of(kind);
        match self {
            Part::Holder { .. } => !layout.inside.is_closed(),
            Part::Numbers { .. } => layout.ends_there(),
            Part::Name { .. } => layout.is_text(),
        }
    }

    // The numbers or the text fit the kind.
    pub(crate) fn fits(self, kind: u8) -> bool
        ensures { result ≡ fits_kind self.entry kind }
    {
        let layout = layout_of(kind);
        match self {
            Part::Holder { a, b } | Part::Numbers { a, b } => fits_numbers(layout.fields, a, b),
            Part::Name { text, .. } => text.len() <= longest_text(layout.holder),
        }
    }

    // The text, empty where there is none.
    pub(crate) fn text(self) -> &'t [u8]
        ensures { result.now ≡ text_of self.entry }
    {
        match self {
            Part::Name { text, .. } => text,
            _ => &[],
        }
    }

    // The row of the kind, inside so many others.
    pub(crate) fn row(self, kind: u8, depth: u8) -> Row
        requires { long (text_of self) ≤ 255 }
        ensures { result ≡ seen (row_of depth kind self.entry) }
    {
        match self {
            Part::Holder { a, b } | Part::Numbers { a, b } => Row {
                depth,
                kind,
                a,
                b,
                language: 0,
                length: 0,
            },
            Part::Name { language, text } => Row {
                depth,
                kind,
                a: 0,
                b: 0,
                language,
                length: text.len() as u8,
            },
        }
    }
}
