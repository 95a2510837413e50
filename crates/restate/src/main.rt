// Reads a container from standard input, and prints its rows and what is sent for them, or why it is refused; or does so for a whole sheet of containers.
#![tactic(auto)]

use anyhow::{Context, anyhow, bail};
use listing::{list_column, list_container, list_restated, read_hex};
use pile::{Layer, Order};
use std::env;
use std::io::Read;

const HELP: &str = "Usage: restate < CONTAINER
       restate --send [LAYER]... < CONTAINER
       restate --hex [LAYER]... < SHEET

Reads the bytes of one container from standard input to the end, and prints what they are.

A legal container: a line 'ROWS n', and a line for each of its n rows,
    DEPTH KIND A B LANGUAGE TEXT
with the text's bytes in hexadecimal, or '-' where it has none.
Any other bytes: a line 'NO NUMBER PLACE LEVEL' with the first fault, the offset
of its component and how many components hold that one.

    --send        prints one more line after the rows,
                      SEND BYTES
                  with the one container that stands for these rows: of all that tell
                  them the shortest, and among the shortest the one with the lowest
                  default language

Layers leave rows out before the rest is printed and sent, with or without --send. At
most four, put on in the order given:
    --language L  leaves out the names in other languages than L
    --cut N       leaves out associated modes whose nodes would be past N levels,
                  with all that they hold

    --hex         takes a sheet: containers in hexadecimal, one a line ('-' for no
                  bytes, blanks between bytes as you like), and prints for each a line
                      LEFT | RIGHT
                  with what is sent for it, or its NO line. What a line has behind a
                  '|' is not read, so that a sheet can be made anew from itself; lines
                  that are empty or begin with '#' are printed as they are
    --help        prints this

The status is 0 also for bytes that are refused, and 1 where the input cannot be read,
the answer cannot be written, an argument is not known, or a line of a sheet is not
hexadecimal.
";

// What is asked for. Of several the last that stands here is done.
#[derive(Clone, Copy, PartialEq, Eq, PartialOrd, Ord)]
enum Task {
    List,
    Restate,
    Sheet,
    Help,
}

// The number behind an option.
fn number_of(option: &str, text: Option<String>) -> anyhow::Result<u8> {
    let text = text.context(format_args!("{option} takes a number"))?;
    text.as_str().parse::<u8>().context(format_args!(
        "{option} takes a number from 0 to 255, not '{text}'"
    ))
}

// What the arguments ask for, and the layers, which ask for what is sent too.
fn asked(rt: &HostRuntime) -> anyhow::Result<(Task, Vec<Layer>)> {
    let mut task = Task::List;
    let mut layers = Vec::new(rt.alloc());
    let mut args = env::args(rt)?;
    args.next(); // the program's name
    while let Some(arg) = args.next() {
        let more = match arg.as_str() {
            "--help" | "-h" => Task::Help,
            "--hex" => Task::Sheet,
            "--send" => Task::Restate,
            "--language" => {
                layers.push(Layer::Language(number_of("--language", args.next())?))?;
                Task::Restate
            }
            "--cut" => {
                layers.push(Layer::Cut(number_of("--cut", args.next())?))?;
                Task::Restate
            }
            other => bail!("unknown argument {other}, try --help"),
        };
        task = task.max(more);
    }
    Ok((task, layers))
}

fn input(rt: &HostRuntime) -> anyhow::Result<Vec<u8>> {
    let mut bytes = Vec::new(rt.alloc());
    rt.stdin().read_to_end(&mut bytes)?;
    Ok(bytes)
}

// The bytes of a line's left column; a dash stands for none.
fn left_bytes(rt: &HostRuntime, left: &str, number: usize) -> anyhow::Result<Vec<u8>> {
    let heap = rt.alloc();
    if left == "-" {
        return Ok(Vec::new(heap));
    }
    read_hex(heap, left.as_bytes())?.context(format_args!(
        "line {number} is not hexadecimal with two digits for each byte"
    ))
}

fn restate_line(rt: &HostRuntime, order: Order, line: &str, number: usize) -> anyhow::Result<()> {
    let (left, _right) = line.split_once("|").unwrap_or((line, ""));
    let left = left.trim();
    if left.is_empty() || left.starts_with("#") {
        println!(rt; "{line}")?;
        return Ok(());
    }
    let bytes = left_bytes(rt, left, number)?;
    let column = list_column(rt.alloc(), bytes.as_slice(), order)?;
    print!(rt; "{column}")?;
    Ok(())
}

fn restate_sheet(rt: &HostRuntime, order: Order) -> anyhow::Result<()> {
    let mut sheet = String::new(rt.alloc());
    rt.stdin().read_to_string(&mut sheet)?;
    for (i, line) in sheet.as_str().lines().enumerate() {
        restate_line(rt, order, line, i.saturating_add(1))?;
    }
    Ok(())
}

fn run(rt: &HostRuntime) -> anyhow::Result<()> {
    let heap = rt.alloc();
    let (task, layers) = asked(rt)?;
    if task == Task::Help {
        print!(rt; "{HELP}")?;
        return Ok(());
    }
    let order = Order::of(layers.as_slice()).context("more than four layers")?;
    if task == Task::Sheet {
        return restate_sheet(rt, order);
    }
    let bytes = input(rt)?;
    let listing = match task {
        Task::List => list_container(heap, bytes.as_slice())?,
        _ => list_restated(heap, bytes.as_slice(), order)?,
    };
    print!(rt; "{listing}")?;
    Ok(())
}

// What went wrong is printed in quotes.
fn main(rt: HostRuntime) -> anyhow::Result<()> {
    run(&rt).map_err(|why| anyhow!("\"{why}\""))
}
