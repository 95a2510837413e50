// What stands at a place of a container, for whoever goes over one without naming faults.
ghost use Rattle.std.specs.Prelude.{◌≡◌, ◌≤◌, length};
ghost use Rattle.grammar.specs.Walk.{data_from};
ghost use Rattle.reader.specs.Stands.{known_at, stands_at, language_in};

use super::edge::Reader;
use super::parts::Part;
use fields::numbers;
use grammar::{DESCRIPTIONS, Spot, TOP_WIDTH, layout_of};

// A known component, whose fixed fields keep to it: where its data begin, where its parts do, and where it ends.
#[derive(Clone, Copy)]
pub struct Component {
    pub kind: u8,
    pub from: usize,
    pub inside: usize,
    pub stop: usize,
}

// What stands at a place inside a holder.
#[derive(Clone, Copy)]
pub enum Standing {
    Known(Component),
    // an unknown component, which ends there
    Unknown(usize),
}

// The component that was opened, at whose data the reader stands, if its fixed fields keep to it.
pub(crate) fn keep(reader: &Reader<'_>, part: Part) -> Option<Component>
    requires order { reader.now.at ≤ part.stop }
    requires within { part.stop ≤ length reader.now.bytes.now }
    ensures { result ≡ known_at reader.now.bytes.now part.kind reader.now.at part.stop }
{
    let inner = Reader {
        bytes: reader.bytes,
        at: reader.at,
        end: part.stop,
    };
    let size = inner.fields_size(part.kind)?;
    numbers(layout_of(part.kind).fields, inner.bytes, inner.at)?;
    Some(Component {
        kind: part.kind,
        from: inner.at,
        inside: inner.at + size,
        stop: part.stop,
    })
}

// What stands at a place inside a holder whose data end at `end`: nothing at that end, nor where it cannot be read.
pub fn look_at(bytes: &[u8], spot: Spot, at: usize, end: usize) -> Option<Standing>
    ensures { result ≡ stands_at bytes.now spot at end }
{
    if end > bytes.len() {
        return None;
    }
    if end <= at {
        return None;
    }
    let mut reader = Reader { bytes, at, end };
    match reader.open_part(spot, 0).ok()? {
        Some(part) => Some(Standing::Known(keep(&reader, part)?)),
        None => Some(Standing::Unknown(reader.at)),
    }
}

// The language that a text's own components say, if they say one and can be read.
pub fn language_in(bytes: &[u8], from: usize, stop: usize) -> Option<u8>
    ensures { result ≡ language_in bytes.now from stop }
{
    if stop > bytes.len() {
        return None;
    }
    if stop <= from {
        return None;
    }
    let mut reader = Reader {
        bytes,
        at: from,
        end: stop,
    };
    reader.read_language(0).ok()?
}

// Where the data of the descriptions start and end.
// Both 0 where there are none, and no `None`: that is a stretch too, in which no row stands, so that a location needs no other case.
pub fn find_descriptions(bytes: &[u8]) -> (usize, usize)
    ensures start { result.0 ≡ (data_from bytes.now 1).start }
    ensures end { result.1 ≡ (data_from bytes.now 1).end }
{
    if bytes.is_empty() {
        return (0, 0);
    }
    let mut reader = Reader {
        bytes,
        at: 1,
        end: bytes.len(),
    };
    while reader.at < reader.end {
        let place = reader.at;
        let Ok(stop) = reader.header(TOP_WIDTH, 0) else {
            return (0, 0);
        };
        if bytes[place] == DESCRIPTIONS {
            return (reader.at, stop);
        }
        reader.at = stop;
    }
    (0, 0)
}
