// Looks ahead: how many bytes and how many parts stand inside a row's component. A row's line of the table of kinds is looked up once and handed on.
ghost use Rattle.std.specs.Prelude.{◌≡◌, ℕ, ◌≤◌};
ghost use Rattle.std.specs.Iterator.{YieldsFirst, item_count};
ghost use Rattle.grammar.specs.Format.{layout};
ghost use Rattle.grammar.specs.Reading.{is_count};
ghost use Rattle.grammar.specs.Flat.{held_count};
ghost use Rattle.sender.specs.Heads.{language_long, front_long, own_long, counted_in, as_byte, inside_rows, inside_long, inside_left};

use grammar::{Layout, layout_of};
use location::{Location, Row, Step};

// The bytes of the part that says a text's language.
pub(crate) const LANGUAGE_PART: usize = 3;

// The bytes of that part, if the language is not the default.
fn language_size(language: u8, default: u8) -> usize
    ensures { result ≡ language_long default language }
{
    if language == default {
        0
    } else {
        LANGUAGE_PART
    }
}

// The bytes of a row's component between its header and its parts.
pub(crate) fn front_size(line: Layout, row: Row, default: u8) -> usize
    requires { line ≡ layout row.kind }
    ensures { result ≡ front_long default row }
{
    if line.is_text() {
        return 1 + usize::from(row.length) + language_size(row.language, default);
    }
    usize::from(line.fixed)
}

// The bytes of a row's component without its parts.
pub(crate) fn own_size(line: Layout, row: Row, default: u8) -> usize
    requires { line ≡ layout row.kind }
    ensures { result ≡ own_long default row }
{
    1 + usize::from(line.width) + front_size(line, row, default)
}

// Goes over the rows that are deeper than a depth, up to the first that is not.
#[derive(Drop)]
struct Inside<'l, L: Location> {
    l: &'l L,
    at: L::Mark,
    depth: u8,
}

impl<'l, L: Location> Iterator for Inside<'l, L> {
    type Item = Row;

    ghost next_gives = { YieldsFirst (inside_left L.rows) };

    ghost remaining = { item_count (inside_left L.rows) };

    fn next(&mut self) -> Option<Row> {
        let row = self.l.row(self.at)?;
        if row.depth <= self.depth {
            return None;
        }
        self.at = self.l.next(self.at)?;
        Some(row)
    }
}

// The rows inside a row.
fn rows_inside<'l, L: Location>(l: &'l L, step: &Step<L::Mark>) -> Inside<'l, L>
    ensures { inside_left L.rows result ≡ inside_rows step.now.row.depth (L.rows l.now step.now.rest) }
{
    Inside {
        l,
        at: step.rest,
        depth: step.row.depth,
    }
}

// The bytes of those rows.
pub(crate) fn inside_size<L: Location>(l: &L, step: &Step<L::Mark>, default: u8) -> usize
    requires { inside_long default step.now.row.depth (L.rows l.now step.now.rest) ≤ 65535 }
    ensures { result ≡ inside_long default step.now.row.depth (L.rows l.now step.now.rest) }
{
    rows_inside(l, step)
        .map(|row| own_size(layout_of(row.kind), row, default))
        .sum()
}

// How many of them stand right in the row, if a byte can say it.
fn held_count<L: Location>(l: &L, step: &Step<L::Mark>) -> Option<u8>
    ensures { result ≡ as_byte (held_count step.now.row.depth (L.rows l.now step.now.rest)) }
{
    let depth = step.row.depth;
    let mut held: u8 = 0;
    for row in rows_inside(l, step) {
        let right_in = u16::from(row.depth) == u16::from(depth) + 1;
        held = held.checked_add(u8::from(right_in))?;
    }
    Some(held)
}

// The same where the fields of the row's kind count its parts, and none where they do not.
pub(crate) fn counted_parts<L: Location>(l: &L, line: Layout, step: &Step<L::Mark>) -> Option<u8>
    requires { line ≡ layout step.now.row.kind }
    ensures { result ≡ as_byte (counted_in (is_count (layout step.now.row.kind).fields) (held_count step.now.row.depth (L.rows l.now step.now.rest))) }
{
    if line.counts_nodes() {
        held_count(l, step)
    } else {
        Some(0)
    }
}
