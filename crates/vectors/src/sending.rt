// Vectors of sending: rows that the table spells out, and containers under layers.
use super::made::{Line, Made};
use anyhow::{Context, bail};
use grammar::Refusal;
use listing::{list_restated, list_sent};
use location::{Location, Row};
use pile::{Layer, Order};
use sender::send;
use std::alloc::Global;
use std::iter::repeat_n;

// A text `41*3` is the byte 41 three times, and a dash is no text.
fn parse_text(text: &str) -> anyhow::Result<(u8, u8)> {
    if text == "-" {
        return Ok((0, 0));
    }
    let (fill, length) = text
        .split_once("*")
        .context("a text is '-' or BYTE*LENGTH")?;
    Ok((u8::from_str_radix(fill, 16)?, length.parse::<u8>()?))
}

// A row `DEPTH KIND A B LANGUAGE TEXT`, so often: `3x` before it says three times. So it is no FromStr of one line.
fn push_lines(lines: &mut Vec<Line>, text: &str) -> anyhow::Result<()> {
    let mut words = text.split(' ');
    let mut word = || words
        .next()
        .context("a row is DEPTH KIND A B LANGUAGE TEXT");
    let first = word()?;
    let (times, depth) = match first.strip_suffix("x") {
        Some(number) => (number.parse::<u16>()?, word()?),
        None => (1, first),
    };
    let depth = depth.parse::<u8>()?;
    let kind = word()?.parse::<u8>()?;
    let a = word()?.parse::<i32>()?;
    let b = word()?.parse::<i32>()?;
    let language = word()?.parse::<u8>()?;
    let (fill, length) = parse_text(word()?)?;
    let row = Row {
        depth,
        kind,
        a,
        b,
        language,
        length,
    };
    lines.extend(repeat_n(Line { row, fill }, usize::from(times)))?;
    Ok(())
}

fn parse_lines(heap: Global, text: &str) -> anyhow::Result<Vec<Line>> {
    let mut lines = Vec::new(heap);
    for row in text.split(',') {
        push_lines(&mut lines, row.trim())?;
    }
    Ok(lines)
}

// What is sent for the rows, or the refusal.
pub(crate) fn right_of(heap: Global, rows: &str) -> anyhow::Result<String> {
    let lines = parse_lines(heap, rows)?;
    let made = Made {
        lines: lines.as_slice(),
    };
    Ok(list_sent(heap, "", &made)?)
}

// Length and default language of what is sent for the rows, or the refusal.
pub(crate) fn size_of(heap: Global, rows: &str) -> anyhow::Result<String> {
    let lines = parse_lines(heap, rows)?;
    let made = Made {
        lines: lines.as_slice(),
    };
    let mut room = [0u8; 65_535];
    match send(&made, &mut room) {
        Ok((length, default)) => Ok(format!(in heap; "{length} {default}")?),
        Err(fault) => Ok(format!(in heap; "NO {}", fault.number())?),
    }
}

// A layer is pile's type, which cannot have its FromStr here.
fn parse_layer(word: &str) -> anyhow::Result<Layer> {
    let (name, number) = word
        .split_once("=")
        .context("a layer is language=L or cut=N")?;
    match name {
        "language" => Ok(Layer::Language(number.parse::<u8>()?)),
        "cut" => Ok(Layer::Cut(number.parse::<u8>()?)),
        _ => bail!("no such layer"),
    }
}

// What layers leave of a container's rows, and what is sent for that.
pub(crate) fn through(heap: Global, bytes: &[u8], layers: &str) -> anyhow::Result<String> {
    let layers: Vec<Layer> = layers
        .split_whitespace()
        .map(parse_layer)
        .try_collect(heap)?;
    let order = Order::of(layers.as_slice()).context("more layers than a pile has")?;
    Ok(list_restated(heap, bytes, order)?)
}
