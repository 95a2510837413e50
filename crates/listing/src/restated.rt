// The text that says what is sent for a container's rows.
ghost use Rattle.std.specs.Prelude.{◌≡◌, ◌<◌, ◌++◌, IfOk, string_bytes, codes, OnOk};
ghost use Rattle.grammar.specs.Sending.{sending_into};
ghost use Rattle.grammar.specs.Reading.{reading};
ghost use Rattle.pile.specs.Through.{in_order, left_by_all, seen_pile};
ghost use Rattle.reader.specs.Whole.{rows_of};
ghost use Rattle.listing.specs.Listed.{hex_digit, hex, hexes, text_line};
ghost use Rattle.listing.specs.Restated.{sent_line, send_line, with_sent, restated, right_by, column};

use super::{list_fault, list_read, list_rows};
use location::Location;
use pile::{Order, Pile, pile_up};
use reader::Container;
use sender::send;
use std::alloc::{AllocError, Global};

// The most bytes of a container.
const LONGEST: usize = 65_535;

// The upper-case hexadecimal digit of a value below 16.
fn hex_digit(value: u8) -> char
    requires { value < 16 }
    ensures digit { result ≡ hex_digit value }
    ensures ascii { result < 128 }
{
    if value < 10 {
        char::from(b'0' + value)
    } else {
        char::from(b'A' + (value - 10))
    }
}

// Two digits for a byte.
fn push_hex(out: &mut String, byte: u8) -> Result<(), AllocError>
    ensures { OnOk result (string_bytes out.new ≡ string_bytes out.old ++ hex byte) }
{
    out.push(hex_digit(byte / 16))?;
    out.push(hex_digit(byte % 16))
}

// Two digits for each byte, pushed one by one: formatted as a number, a byte takes three times as long.
pub fn push_hexes(out: &mut String, bytes: &[u8]) -> Result<(), AllocError>
    ensures { OnOk result (string_bytes out.new ≡ string_bytes out.old ++ hexes bytes.now) }
{
    for b in bytes {
        push_hex(out, *b)?;
    }
    Ok(())
}

// A line of bytes, behind a word.
fn bytes_line(heap: Global, lead: &str, bytes: &[u8]) -> Result<String, AllocError>
    ensures { IfOk result (λ s. string_bytes s ≡ sent_line lead.now bytes.now) }
{
    let mut out = String::from_str(heap, lead)?;
    push_hexes(&mut out, bytes)?;
    out.push('\n')?;
    Ok(out)
}

// What is sent for a location, behind a word; or why nothing is.
pub fn list_sent<L: Location>(heap: Global, lead: &str, l: &L) -> Result<String, AllocError>
    ensures { IfOk result (λ s. string_bytes s ≡ send_line lead.now (sending_into (L.whole l.now) 65535)) }
{
    let mut room = [0u8; LONGEST];
    match send(l, &mut room) {
        Ok((length, _)) => bytes_line(heap, lead, &room[..length]),
        Err(fault) => list_fault(heap, fault),
    }
}

// The rows of a location, and what is sent for it.
fn list_with_sent<L: Location>(heap: Global, l: &L) -> Result<String, AllocError>
    ensures { IfOk result (λ s. string_bytes s ≡ with_sent (L.whole l.now)) }
{
    let mut out = list_rows(heap, l)?;
    let sent = list_sent(heap, "SEND ", l)?;
    out.push_str(sent.as_str())?;
    Ok(out)
}

// A container with the layers on it.
fn piled(container: Container<'_>, order: Order) -> Pile<Container<'_>>
    ensures { seen_pile result rows_of ≡ left_by_all (in_order order) (rows_of container.entry) }
{
    pile_up(container, order)
}

// What layers leave of the rows of the container in the bytes, and what is sent for that; or why the bytes are none.
pub fn list_restated(heap: Global, bytes: &[u8], order: Order) -> Result<String, AllocError>
    ensures { IfOk result (λ s. string_bytes s ≡ restated (in_order order) bytes.now) }
{
    list_read(
        heap,
        bytes,
        |container| list_with_sent(heap, &piled(container, order)),
    )
}

// The bytes of the left column, or a dash where there are none.
fn push_left(out: &mut String, bytes: &[u8]) -> Result<(), AllocError>
    ensures { OnOk result (string_bytes out.new ≡ string_bytes out.old ++ text_line bytes.now) }
{
    if bytes.is_empty() {
        return out.push('-');
    }
    push_hexes(out, bytes)
}

// What the right column has for the bytes of the left.
fn list_right(heap: Global, bytes: &[u8], order: Order) -> Result<String, AllocError>
    ensures { IfOk result (λ s. string_bytes s ≡ right_by (in_order order) (reading bytes.now)) }
{
    list_read(
        heap,
        bytes,
        |container| list_sent(heap, "", &piled(container, order)),
    )
}

// A line with bytes on the left, and what is sent for their rows on the right.
pub fn list_column(heap: Global, bytes: &[u8], order: Order) -> Result<String, AllocError>
    ensures { IfOk result (λ s. string_bytes s ≡ column (in_order order) bytes.now) }
{
    let mut out = String::new(heap);
    push_left(&mut out, bytes)?;
    let right = list_right(heap, bytes, order)?;
    write!(out, " | {right}")?;
    Ok(out)
}
