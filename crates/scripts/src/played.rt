// The run of a script, with a line for each answer.
ghost use Rattle.std.specs.Prelude.{◌≡◌, ◌≤◌, map, length as long, take, IfSome, IfOk, string_bytes};
ghost use Rattle.runs.specs.Scripts.{called, rooms};
ghost use Rattle.scripts.specs.Played.{asked_call, sent_size, lines_from, Played};

use super::answered::answer_line;
use super::asked::Asked;
use listing::list_rows;
use runs::{Answer, Call, run_script};
use std::alloc::{AllocError, Global};

// So many bytes at the front, as far as there are.
fn front(bytes: &[u8], length: usize) -> &[u8]
    ensures { result.now ≡ take length bytes.now }
{
    bytes.get(..length).unwrap_or(bytes)
}

// How many bytes an answer says were sent.
fn sent_length(answer: Answer) -> usize
    ensures { result ≡ sent_size answer }
{
    match answer {
        Answer::Sent(length, _) => length,
        _ => 0,
    }
}

// The calls themselves.
fn calls_of<'a>(heap: Global, script: &'a [Asked]) -> Result<Vec<Call<'a>>, AllocError>
    ensures { IfOk result (λ v. map called v.items ≡ map asked_call script.now) }
{
    script.iter().map(|asked| asked.call()).collect(heap)
}

// How many bytes all sends ask for, if memory could have so many.
fn rooms_of(script: &[Asked]) -> Option<usize>
    ensures { IfSome result (λ n. n ≡ rooms (map asked_call script.now)) }
{
    script
        .iter()
        .try_fold(0usize, |sum, asked| sum.checked_add(asked.room()))
}

// A line for each answer; what was sent stands in the rooms of the sends, one after the other.
fn list_answers(
    heap: Global,
    script: &[Asked],
    answers: &[Answer],
    out: &[u8],
) -> Result<String, AllocError>
    requires { rooms (map asked_call script.now) ≤ long out.now }
    ensures { IfOk result (λ s. string_bytes s ≡ lines_from 0 (map asked_call script.now) answers.now out.now) }
{
    let mut text = String::new(heap);
    let mut rest = out;
    for (asked, answer) in script.iter().zip(answers) {
        let sent = front(rest, sent_length(*answer));
        let line = answer_line(heap, *answer, sent)?;
        text.push_str(line.as_str())?;
        rest = &rest[asked.room()..];
    }
    Ok(text)
}

/// Makes the calls on one unused sheet over a buffer of so many bytes, and gives a line for each answer and then the rows held.
pub fn play_script(heap: Global, size: usize, script: &[Asked]) -> Result<String, AllocError>
    ensures { IfOk result (λ s. Played size (map asked_call script.now) (string_bytes s)) }
{
    let room = rooms_of(script).ok_or(AllocError)?;
    let calls = calls_of(heap, script)?;
    let mut buffer = vec![in heap; 0u8; size]?;
    let mut answers = vec![in heap; Answer::NotNow; script.len()]?;
    let mut out = vec![in heap; 0u8; room]?;
    let buffer = buffer.as_mut_slice();
    let answers = answers.as_mut_slice();
    let out = out.as_mut_slice();
    let sheet = run_script(buffer, &calls, answers, out);
    let rows = list_rows(heap, &sheet)?;
    let mut text = list_answers(heap, script, answers, out)?;
    text.push_str(rows.as_str())?;
    Ok(text)
}
