// The calls of a script, from its text.
use anyhow::Context;
use listing::read_hex;
use scripts::Asked;
use std::alloc::{AllocError, Global};

// Two digits for each byte, blanks as one likes, or a dash for no bytes.
fn parse_bytes(heap: Global, text: &str) -> Result<Option<Vec<u8>>, AllocError> {
    match text {
        "" => Ok(None),
        "-" => Ok(Some(Vec::new(heap))),
        text => read_hex(heap, text.as_bytes()),
    }
}

// A kind and two numbers.
fn parse_numbers(text: &str) -> Option<(u8, i32, i32)> {
    let mut words = text.split_whitespace();
    let kind = words.next()?.parse::<u8>().ok()?;
    let a = words.next()?.parse::<i32>().ok()?;
    let b = words.next()?.parse::<i32>().ok()?;
    words.next().is_none().then_some((kind, a, b))
}

// A kind, a language and the text that is behind them.
fn parse_named(text: &str) -> Option<(u8, u8, &str)> {
    let (kind, rest) = text.split_once(" ")?;
    let (language, bytes) = rest.trim().split_once(" ")?;
    Some((
        kind.parse::<u8>().ok()?,
        language.parse::<u8>().ok()?,
        bytes.trim(),
    ))
}

fn parse_name(heap: Global, text: &str) -> Result<Option<Asked>, AllocError> {
    let Some((kind, language, text)) = parse_named(text) else {
        return Ok(None);
    };
    Ok(parse_bytes(heap, text)?.map(|bytes| Asked::Name(kind, language, bytes)))
}

// A call that is one word.
fn parse_word(rest: &str, asked: Asked) -> Option<Asked> {
    rest.is_empty().then_some(asked)
}

// What a line with this first word should be, and the call that it makes with the rest of the line, if it is that.
fn parse_call(
    heap: Global,
    word: &str,
    rest: &str,
) -> Result<(&'static str, Option<Asked>), AllocError> {
    Ok(match word {
        "load" => ("load HEX", parse_bytes(heap, rest)?.map(Asked::Load)),
        "open" => (
            "open KIND A B",
            parse_numbers(rest).map(|(kind, a, b)| Asked::Open(kind, a, b)),
        ),
        "number" => (
            "number KIND A B",
            parse_numbers(rest).map(|(kind, a, b)| Asked::Number(kind, a, b)),
        ),
        "name" => ("name KIND LANGUAGE HEX", parse_name(heap, rest)?),
        "send" => ("send ROOM", rest.parse::<u16>().ok().map(Asked::Send)),
        "close" => ("one word", parse_word(rest, Asked::Close)),
        "clear" => ("one word", parse_word(rest, Asked::Clear)),
        "finish" => ("one word", parse_word(rest, Asked::Finish)),
        "reopen" => ("one word", parse_word(rest, Asked::Reopen)),
        _ => (
            "load, open, number, name, close, clear, finish, reopen or send",
            None,
        ),
    })
}

// The call of a line; none where the line has only blanks and a comment.
fn parse_line(heap: Global, line: &str, number: usize) -> anyhow::Result<Option<Asked>> {
    let (code, _comment) = line.split_once("#").unwrap_or((line, ""));
    let code = code.trim();
    if code.is_empty() {
        return Ok(None);
    }
    let (word, rest) = code.split_once(" ").unwrap_or((code, ""));
    let (form, asked) = parse_call(heap, word, rest.trim())?;
    let asked = asked.context(format_args!("line {number} should be: {form}"))?;
    Ok(Some(asked))
}

// The calls of a script, one to a line; '#' starts a comment. An error names the first line that is no call.
pub(crate) fn parse_script(heap: Global, text: &str) -> anyhow::Result<Vec<Asked>> {
    let mut script = Vec::new(heap);
    for (i, line) in text.lines().enumerate() {
        if let Some(asked) = parse_line(heap, line, i.saturating_add(1))? {
            script.push(asked)?;
        }
    }
    Ok(script)
}
