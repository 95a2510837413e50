// The check of a container: how many rows it tells, or its first fault.
ghost use Rattle.std.specs.Prelude.{◌≡◌, ℕ, ◌+◌, ◌*◌, ◌<◌, ◌≤◌, true, false, length, IfOk};
ghost use Rattle.grammar.specs.declared.table.Spot.TheVariants.{Descriptions, Node, Associated};
ghost use Rattle.grammar.specs.Format.{layout};
ghost use Rattle.grammar.specs.Reading.{closed, is_count, reading};
ghost use Rattle.grammar.specs.Checks.{leafy, component_of, parts_of, tops_of, many};
ghost use Rattle.grammar.specs.Theorems.{ToldExactly};
ghost use Rattle.reader.specs.Opened.{OpenedNode, Along, AtData};

use super::edge::{Reader, narrowed};
use super::parts::Part;
use grammar::{DESCRIPTIONS, ReadFault, Spot, TOP_WIDTH, layout_of};

// The most bytes of a container.
const LONGEST: usize = 65_535;

// The most nodes that stand inside one another.
const MOST_NODES: u8 = 8;

// A component that holds none of its own, at whose data the reader stands.
fn check_leaf(reader: &mut Reader<'_>, part: Part) -> Result<usize, ReadFault>
    requires here { AtData part reader.old }
    requires levels { (1 ≤ part.level) × (part.level < 255) }
    requires leaf { (0 < part.kind) × (closed (layout part.kind).inside ≡ true) }
    ensures value { (n : ℕ) → n ≤ 8 → result ≡ component_of reader.old.bytes.now part.kind part.level n part.place reader.old.at part.stop }
    ensures edge { Along reader.old reader.new }
    ensures moved { IfOk result (λ m. (reader.new.at ≡ part.stop) × (part.place + m ≤ part.stop)) }
{
    let inner = narrowed!(reader, part.stop);
    inner.reader.pass_data(part)?;
    Ok(1)
}

// All components from the reader's place to its edge, at a spot where none holds any of its own.
// Its loop stands three times, with another check in it: of a closure every caller would have to say what that check says of any bytes and level.
fn check_leaves(reader: &mut Reader<'_>, spot: Spot, level: u8) -> Result<usize, ReadFault>
    requires levels { (1 ≤ level) × (level < 255) }
    requires leaves { leafy spot ≡ true }
    requires some { closed spot ≡ true → reader.old.at ≡ reader.old.end }
    ensures value { (n : ℕ) → n ≤ 8 → result ≡ parts_of reader.old.bytes.now spot level n reader.old.at reader.old.end }
    ensures edge { Along reader.old reader.new }
    ensures moved { IfOk result (λ m. (reader.new.at ≡ reader.old.end) × (reader.old.at + m ≤ reader.old.end)) }
{
    let mut rows = 0;
    while let Some(part) = reader.next_part(spot, level)? {
        rows += check_leaf(reader, part)?;
    }
    Ok(rows)
}

// A component that holds leaves at most, at whose data the reader stands.
fn check_flat(reader: &mut Reader<'_>, part: Part) -> Result<usize, ReadFault>
    requires here { AtData part reader.old }
    requires levels { (1 ≤ part.level) × (part.level < 254) }
    requires flat { (0 < part.kind) × (leafy (layout part.kind).inside ≡ true) }
    ensures value { (n : ℕ) → n ≤ 8 → result ≡ component_of reader.old.bytes.now part.kind part.level n part.place reader.old.at part.stop }
    ensures edge { Along reader.old reader.new }
    ensures moved { IfOk result (λ m. (reader.new.at ≡ part.stop) × (part.place + m ≤ part.stop)) }
{
    let inner = narrowed!(reader, part.stop);
    inner.reader.pass_data(part)?;
    let rows = check_leaves(inner.reader, layout_of(part.kind).inside, part.level + 1)?;
    Ok(rows + 1)
}

// Opens the next of the nodes that the associated modes at `place` count.
fn open_node(reader: &mut Reader<'_>, place: usize, level: u8) -> Result<Part, ReadFault>
    requires levels { 1 ≤ level }
    ensures edge { Along reader.old reader.new }
    ensures found { OpenedNode reader.old.bytes.now Associated level place reader.old.at reader.old.end result reader.new }
{
    let miscounted = ReadFault::Miscounted {
        place,
        level: level - 1,
    };
    if reader.at == reader.end {
        return Err(miscounted);
    }
    reader.open_part(Spot::Associated, level)?.ok_or(miscounted)
}

// A node at whose data the reader stands, inside so many others.
#[cycle(check_modes_check_node)]
fn check_node(reader: &mut Reader<'_>, part: Part, nodes: u8) -> Result<usize, ReadFault>
    requires here { AtData part reader.old }
    requires levels { (1 ≤ part.level) × ((part.level ≤ 2 * nodes + 1) × (nodes ≤ 8)) }
    requires node { (0 < part.kind) × ((layout part.kind).inside ≡ Node) }
    ensures value { result ≡ component_of reader.old.bytes.now part.kind part.level nodes part.place reader.old.at part.stop }
    ensures edge { Along reader.old reader.new }
    ensures moved { IfOk result (λ m. (reader.new.at ≡ part.stop) × (part.place + m ≤ part.stop)) }
{
    if nodes == MOST_NODES {
        return Err(ReadFault::TooDeep {
            place: part.place,
            level: part.level,
        });
    }
    let inner = narrowed!(reader, part.stop);
    inner.reader.pass_fields(part)?;
    let mut rows = 1;
    while let Some(held) = inner.reader.next_part(Spot::Node, part.level + 1)? {
        rows += if layout_of(held.kind).counts_nodes() {
            check_modes(inner.reader, held, nodes + 1)?
        } else {
            check_flat(inner.reader, held)?
        };
    }
    Ok(rows)
}

// Associated modes at whose data the reader stands, inside so many nodes.
#[cycle(check_modes_check_node)]
fn check_modes(reader: &mut Reader<'_>, part: Part, nodes: u8) -> Result<usize, ReadFault>
    requires here { AtData part reader.old }
    requires levels { (1 ≤ part.level) × ((part.level ≤ 2 * nodes) × (nodes ≤ 8)) }
    requires modes { (0 < part.kind) × (is_count (layout part.kind).fields ≡ true) }
    ensures value { result ≡ component_of reader.old.bytes.now part.kind part.level nodes part.place reader.old.at part.stop }
    ensures edge { Along reader.old reader.new }
    ensures moved { IfOk result (λ m. (reader.new.at ≡ part.stop) × (part.place + m ≤ part.stop)) }
{
    let bytes = reader.bytes;
    let inner = narrowed!(reader, part.stop);
    let start = inner.reader.at;
    inner.reader.pass_fields(part)?;
    let count = bytes[start];
    let mut rows = 1;
    for _ in 0..count {
        let node = open_node(inner.reader, part.place, part.level + 1)?;
        rows += check_node(inner.reader, node, nodes)?;
    }
    if inner.reader.at != inner.reader.end {
        return Err(ReadFault::Miscounted {
            place: part.place,
            level: part.level,
        });
    }
    Ok(rows)
}

// The descriptions at whose data the reader stands, which end at `stop`.
fn check_descriptions(reader: &mut Reader<'_>, stop: usize) -> Result<usize, ReadFault>
    requires order { (reader.old.at ≤ stop) × (stop ≤ reader.old.end) }
    ensures value { result ≡ parts_of reader.old.bytes.now Descriptions 1 0 reader.old.at stop }
    ensures edge { Along reader.old reader.new }
    ensures moved { IfOk result (λ m. (reader.new.at ≡ stop) × (reader.old.at + m ≤ stop)) }
{
    let inner = narrowed!(reader, stop);
    let mut rows = 0;
    while let Some(node) = inner.reader.next_part(Spot::Descriptions, 1)? {
        rows += check_node(inner.reader, node, 0)?;
    }
    Ok(rows)
}

// The container's components, past its default language.
fn check_tops(bytes: &[u8]) -> Result<usize, ReadFault>
    requires some { 0 < length bytes.now }
    ensures value { result ≡ tops_of bytes.now false 1 }
    ensures few { IfOk result (λ n. n ≤ length bytes.now) }
{
    let mut reader = Reader {
        bytes,
        at: 1,
        end: bytes.len(),
    };
    let mut rows = None;
    while reader.at < reader.end {
        let place = reader.at;
        let stop = reader.header(TOP_WIDTH, 0)?;
        if bytes[place] == DESCRIPTIONS {
            if rows.is_some() {
                return Err(ReadFault::SecondDescriptions { place });
            }
            rows = Some(check_descriptions(&mut reader, stop)?);
        } else {
            reader.at = stop;
        }
    }
    Ok(rows.unwrap_or(0))
}

// How many rows a container tells, or why the bytes are none: their first fault.
pub fn check(bytes: &[u8]) -> Result<usize, ReadFault>
    ensures value { result ≡ many (reading bytes.now) }
    ensures legal { ToldExactly bytes.now result }
    ensures few { IfOk result (λ n. n ≤ 65535) }
{
    if bytes.len() > LONGEST {
        return Err(ReadFault::TooLong);
    }
    if bytes.is_empty() {
        return Err(ReadFault::Empty);
    }
    check_tops(bytes)
}
