// Reads a script from standard input, makes its calls on one sheet, and prints what each was answered.
#![tactic(auto)]

mod parsed;

use anyhow::{Context, anyhow, ensure};
use parsed::parse_script;
use scripts::play_script;
use std::env;
use std::io::Read;

const HELP: &str = "Usage: script SIZE < CALLS

Makes calls on one sheet, unused at first, over a buffer of SIZE bytes. The calls are read
from standard input, one a line:
    load HEX                 replaces all rows by those of a container
    open KIND A B            adds a row of kind 1, 3, 4, 6 or 7, and leaves it open
    number KIND A B          adds a row of kind 5, 8, 9, 10 or 16 to 26
    name KIND LANGUAGE HEX   adds a row of kind 2 or 27 with a text
    close                    closes the innermost open row
    clear                    drops all rows
    finish                   closes what is open, and makes the draft a fair copy
    reopen                   makes the fair copy a draft again
    send ROOM                sends the fair copy into an output of ROOM bytes, at most 65535
HEX has two digits for each byte, blanks as you like, or is '-' for no bytes. A '#' starts
a comment, and blank lines are passed over.

Prints a line for each call:
    OK                          it is done
    SENT LENGTH LANGUAGE HEX    what was sent, with its length and default language
    NO NUMBER PLACE LEVEL       it is refused, and has changed nothing
    NOT NOW                     a draft is neither sent nor reopened, and a fair copy takes
                                no other call; it is passed over
and then the rows held: 'ROWS n', and for each a line DEPTH KIND A B LANGUAGE TEXT.

    --help   prints this

The status is 0 also where calls are refused. It is 1, and no call is made, where a line is
no call: a message says which one. It is 1 too where an argument is wrong, the input cannot
be read or the answers cannot be written.
";

// What the arguments ask for.
#[derive(Clone, Copy)]
enum Task {
    Help,
    Play(u32),
}

fn asked(rt: &HostRuntime) -> anyhow::Result<Task> {
    let mut args = env::args(rt)?.skip(1);
    let word = args.next().context("SIZE is missing, try --help")?;
    let task = match word.as_str() {
        "--help" | "-h" => Task::Help,
        size => Task::Play(
            size.parse::<u32>().context(format_args!(
                "SIZE is a number of bytes below 4294967296, not '{size}'"
            ))?,
        ),
    };
    ensure!(args.next().is_none(), "one argument is taken, try --help");
    Ok(task)
}

fn play(rt: &HostRuntime, size: u32) -> anyhow::Result<()> {
    let heap = rt.alloc();
    let mut text = String::new(heap);
    rt.stdin().read_to_string(&mut text)?;
    let script = parse_script(heap, text.as_str())?;
    let answers = play_script(heap, size as usize, script.as_slice())?;
    print!(rt; "{answers}")?;
    Ok(())
}

fn run(rt: &HostRuntime) -> anyhow::Result<()> {
    match asked(rt)? {
        Task::Help => {
            print!(rt; "{HELP}")?;
            Ok(())
        }
        Task::Play(size) => play(rt, size),
    }
}

// What went wrong is printed in quotes.
fn main(rt: HostRuntime) -> anyhow::Result<()> {
    run(&rt).map_err(|why| anyhow!("\"{why}\""))
}
