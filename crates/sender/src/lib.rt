// Sends a location: the one container that its rows fix.
#![tactic(auto)]

ghost use Rattle.std.specs.Prelude.{◌≡◌, ℕ, ◌≤◌, ◌++◌, length as long, drop};
ghost use Rattle.grammar.specs.Flat.{flat_container};
ghost use Rattle.sender.specs.Writable.{Writable};
ghost use Rattle.sender.specs.Sent.{Sent, SentBest};

mod look;
mod pen;
mod rows;
mod survey;

use grammar::{DESCRIPTIONS, SendFault, TOP_WIDTH};
use location::Location;
use pen::Pen;
use rows::put_rows;
use survey::settle;

// The bytes before the rows, where there are any: the default language, and the header of the descriptions.
const FRAME: usize = 2 + TOP_WIDTH;

// The container of the rows under a default, of which the length is known: one that is longer than the frame has rows.
fn put_container<L: Location>(l: &L, default: u8, size: usize, out: &mut [u8])
    requires good { Writable default (L.whole l.now) }
    requires sized { (size ≡ long (flat_container default (L.whole l.now))) × (size ≤ 65535) }
    requires room { size ≤ long out.old }
    ensures { out.new ≡ flat_container default (L.whole l.now) ++ drop size out.old }
{
    let mut pen = Pen::new(out);
    pen.byte(default);
    if let Some(inside) = size.checked_sub(FRAME) {
        pen.byte(DESCRIPTIONS);
        pen.number(TOP_WIDTH, inside);
        put_rows(l, default, &mut pen);
    }
}

/// Writes the container that stands for a location into the front of an output: of all legal containers that tell its rows the shortest, and among the
/// shortest the one with the lowest default language. Answers its length and its default language. Where no container tells the rows, or the output has
/// too little room, the output is left as it is.
pub fn send<L: Location>(l: &L, out: &mut [u8]) -> Result<(usize, u8), SendFault>
    ensures sent { Sent (L.whole l.now) out.old result out.new }
    ensures best { SentBest (L.whole l.now) out.old result out.new }
{
    let (size, default) = settle(l).ok_or(SendFault::NoContainer)?;
    if out.len() < size {
        return Err(SendFault::NoRoom { needed: size });
    }
    put_container(l, default, size, out);
    Ok((size, default))
}
