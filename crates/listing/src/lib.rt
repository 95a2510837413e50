// The text that says what bytes are: a container's rows, a line each, or the refusal.
#![tactic(auto)]

ghost use Rattle.std.specs.Prelude.{◌≡◌, ◌++◌, IfOk, MatchResult, OnOk, Some, string_bytes};
ghost use Rattle.grammar.specs.Reading.{reading};
ghost use Rattle.location.specs.Answers.{head_row};
ghost use Rattle.reader.specs.Whole.{rows_of};
ghost use Rattle.listing.specs.Listed.{first_line, row_count, listed, no_line, refused, shown};

use grammar::Refusal;
use location::{Location, Row, steps_of};
use reader::Container;
use std::alloc::{AllocError, Global};

mod printed;
mod restated;
mod unhexed;

pub use printed::{Hex, HexOrDash};
pub use restated::{list_column, list_restated, list_sent, push_hexes};
pub use unhexed::{hex_reads_back, read_hex};

// The line of the row at a mark.
fn push_line<L: Location>(out: &mut String, l: &L, at: L::Mark, row: Row) -> Result<(), AllocError>
    requires { Some row ≡ head_row (L.rows l.now at) }
    ensures { OnOk result (string_bytes out.new ≡ string_bytes out.old ++ first_line (L.rows l.now at)) }
{
    let Row {
        depth,
        kind,
        a,
        b,
        language,
        length,
    } = row;
    let mut room = [0u8; 255];
    if length > 0 {
        l.copy_text(at, &mut room);
    }
    let text = HexOrDash(&room[..usize::from(length)]);
    write!(out, "{depth} {kind} {a} {b} {language} {text}\n")
}

// How many rows a location has, as far as 64 bits count. By `next` alone: an iterator asks for each row too, and reads all components of its text.
pub fn count_rows<L: Location>(l: &L) -> u64
    ensures { result ≡ row_count (L.whole l.now) }
{
    let mut count: u64 = 0;
    let mut at = l.first();
    while let Some(next) = l.next(at) {
        at = next;
        count = count.saturating_add(1);
    }
    count
}

// The number of a location's rows, and then a line for each.
pub fn list_rows<L: Location>(heap: Global, l: &L) -> Result<String, AllocError>
    ensures { IfOk result (λ s. string_bytes s ≡ listed (L.whole l.now)) }
{
    let mut out = format!(in heap; "ROWS {}\n", count_rows(l))?;
    for step in steps_of(l) {
        push_line(&mut out, l, step.mark, step.row)?;
    }
    Ok(out)
}

// The line of a refusal: its number, its place and its level.
pub fn refusal_line(heap: Global, number: u8, place: usize, level: u8) -> Result<String, AllocError>
    ensures { IfOk result (λ s. string_bytes s ≡ no_line number place level) }
{
    format!(in heap; "NO {number} {place} {level}\n")
}

// The line of a fault of reading, of sending or of a sheet.
pub fn list_fault<F: Refusal>(heap: Global, fault: F) -> Result<String, AllocError>
    ensures { IfOk result (λ s. string_bytes s ≡ no_line (F.numbered fault) (F.placed fault) (F.leveled fault)) }
{
    refusal_line(heap, fault.number(), fault.place(), fault.level())
}

// What is listed of the container that the bytes are; or why they are none.
fn list_read<'a, F: FnOnce(Container<'a>) -> Result<String, AllocError>>(
    heap: Global,
    bytes: &'a [u8],
    list: F,
) -> Result<String, AllocError>
    requires { F.IsAlwaysCallable list }
    ensures { MatchResult (reading bytes.now) (λ rows. (c : _) × (rows_of c ≡ rows) × F.post list c result) (λ f. IfOk result (λ s. string_bytes s ≡ refused f)) }
{
    match Container::open(bytes) {
        Ok(container) => list(container),
        Err(fault) => list_fault(heap, fault),
    }
}

// What bytes are: the rows of the container, or why they are none.
pub fn list_container(heap: Global, bytes: &[u8]) -> Result<String, AllocError>
    ensures { IfOk result (λ s. string_bytes s ≡ shown bytes.now) }
{
    list_read(heap, bytes, |container| list_rows(heap, &container))
}
