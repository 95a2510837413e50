// Checks a table of vectors: what bytes are, and what is sent for rows and for containers under layers.
#![tactic(auto)]

mod made;
mod sending;

use anyhow::{Context, anyhow, bail};
use listing::list_container;
use sending::{right_of, size_of, through};
use std::alloc::{AllocError, Global};
use std::io::Read;

// The most data of an only component: 65,535 bytes but for the default language, the identifier and the length.
const MOST_DATA: u16 = 65_531;

// A question, and its answer on one line.
#[derive(Drop)]
struct Vector {
    form: Form,
    expected: String,
}

// What is asked: what bytes are, what is sent for rows, how long that is, or what layers leave of a container.
#[derive(Drop)]
enum Form {
    Read(Vec<u8>),
    Rows(String),
    Size(String),
    Through(Vec<u8>, String),
}

#[derive(Clone, Copy)]
struct Tally {
    all: u64,
    differ: u64,
}

impl Tally {
    fn count(&mut self, agrees: bool) {
        self.all = self.all.saturating_add(1);
        self.differ = self.differ.saturating_add(u64::from(!agrees));
    }
}

// The value of a digit; a small letter is none.
fn hex_value(digit: u8) -> Option<u8> {
    if digit.is_ascii_lowercase() {
        return None;
    }
    Some(char::from(digit).to_digit(16)? as u8)
}

// Two digits for each byte, or a dash for no bytes.
fn parse_bytes(heap: Global, text: &str) -> anyhow::Result<Vec<u8>> {
    let mut bytes = Vec::new(heap);
    if text == "-" {
        return Ok(bytes);
    }
    for pair in text.as_bytes().chunks(2) {
        let [high, low] = pair else {
            bail!("half a byte");
        };
        let (Some(high), Some(low)) = (hex_value(*high), hex_value(*low)) else {
            bail!("not a hexadecimal digit");
        };
        bytes.push((high << 4) | low)?;
    }
    Ok(bytes)
}

// `HEX`, `rows: ROW, ROW ..`, `size: ROW, ROW ..` or `through: HEX LAYER ..`.
fn parse_form(heap: Global, text: &str) -> anyhow::Result<Form> {
    let Some((form, rest)) = text.split_once(": ") else {
        return Ok(Form::Read(parse_bytes(heap, text)?));
    };
    match form {
        "rows" => Ok(Form::Rows(String::from_str(heap, rest)?)),
        "size" => Ok(Form::Size(String::from_str(heap, rest)?)),
        "through" => {
            let (bytes, layers) = rest.split_once(" ").unwrap_or((rest, ""));
            Ok(Form::Through(parse_bytes(heap, bytes)?, String::from_str(heap, layers)?))
        }
        _ => bail!("no such form of a vector"),
    }
}

// A line `FORM | EXPECTED # why`.
fn parse_vector(heap: Global, line: &str) -> anyhow::Result<Vector> {
    let (vector, _why) = line.split_once(" # ").context("no ' # '")?;
    let (form, expected) = vector.split_once(" | ").context("no ' | '")?;
    Ok(Vector {
        form: parse_form(heap, form)?,
        expected: String::from_str(heap, expected)?,
    })
}

// Whether the answer is the one that is expected; a line says where it is another.
fn agrees(rt: &HostRuntime, name: &str, vector: &Vector) -> anyhow::Result<bool> {
    let heap = rt.alloc();
    let listing = match &vector.form {
        Form::Read(bytes) => list_container(heap, bytes.as_slice())?,
        Form::Rows(rows) => right_of(heap, rows.as_str())?,
        Form::Size(rows) => size_of(heap, rows.as_str())?,
        Form::Through(bytes, layers) => through(heap, bytes.as_slice(), layers.as_str())?,
    };
    // all on one line, as the table has it
    let lines: Vec<&str> = listing.lines().collect(heap)?;
    let found = lines.join(heap, ";")?;
    let agrees = found == vector.expected;
    if !agrees {
        println!(rt; "{name}: expected {}, found {found}", vector.expected)?;
    }
    Ok(agrees)
}

fn try_table(rt: &HostRuntime, table: &str, tally: &mut Tally) -> anyhow::Result<()> {
    let heap = rt.alloc();
    for (i, line) in table.lines().enumerate() {
        let name = format!(in heap; "line {}", i.saturating_add(1))?;
        let vector = parse_vector(heap, line).map_err(|why| anyhow!("{name} is no vector: {why}"))?;
        tally.count(agrees(rt, name.as_str(), &vector)?);
    }
    Ok(())
}

// A container with one component, unknown and of so many bytes.
fn unknown_only(heap: Global, size: u16) -> Result<Vec<u8>, AllocError> {
    let [high, low] = size.to_be_bytes();
    let mut bytes = vec![in heap; 0, 5, high, low]?;
    bytes.resize(4 + usize::from(size), 0)?;
    Ok(bytes)
}

// The longest container, and one byte more: too long for a table.
fn try_long(rt: &HostRuntime, tally: &mut Tally) -> anyhow::Result<()> {
    let heap = rt.alloc();
    for (size, expected) in [(MOST_DATA, "ROWS 0"), (MOST_DATA + 1, "NO 1 0 0")] {
        let bytes = unknown_only(heap, size)?;
        let name = format!(in heap; "{} bytes", bytes.len())?;
        let vector = Vector {
            form: Form::Read(bytes),
            expected: String::from_str(heap, expected)?,
        };
        let agrees = agrees(rt, name.as_str(), &vector)?;
        if agrees {
            println!(rt; "{name}: {expected}")?;
        }
        tally.count(agrees);
    }
    Ok(())
}

fn run(rt: &HostRuntime) -> anyhow::Result<()> {
    let mut table = String::new(rt.alloc());
    rt.stdin().read_to_string(&mut table)?;
    let mut tally = Tally { all: 0, differ: 0 };
    try_table(rt, table.as_str(), &mut tally)?;
    try_long(rt, &mut tally)?;
    let Tally { all, differ } = tally;
    if differ > 0 {
        println!(rt; "{differ} of {all} vectors differ")?;
        bail!("vectors differ");
    }
    println!(rt; "{all} vectors agree")?;
    Ok(())
}

// What went wrong is printed in quotes.
fn main(rt: HostRuntime) -> anyhow::Result<()> {
    run(&rt).map_err(|why| anyhow!("\"{why}\""))
}
