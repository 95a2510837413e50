// The line that says what a call was answered.
ghost use Rattle.std.specs.Prelude.{◌≡◌, IfOk, string_bytes};
ghost use Rattle.scripts.specs.Answered.{answer_text, sent_text};

use listing::{list_fault, push_hexes};
use runs::Answer;
use std::alloc::{AllocError, Global};

// What was sent, with its length and its default language.
fn sent_line(heap: Global, length: usize, default: u8, sent: &[u8]) -> Result<String, AllocError>
    ensures { IfOk result (λ s. string_bytes s ≡ sent_text length default sent.now) }
{
    let mut out = format!(in heap; "SENT {length} {default} ")?;
    push_hexes(&mut out, sent)?;
    out.push('\n')?;
    Ok(out)
}

/// The line of an answer, where `sent` is what was sent.
pub fn answer_line(heap: Global, answer: Answer, sent: &[u8]) -> Result<String, AllocError>
    ensures { IfOk result (λ s. string_bytes s ≡ answer_text answer sent.now) }
{
    match answer {
        Answer::Done => String::from_str(heap, "OK\n"),
        Answer::Sent(length, default) => sent_line(heap, length, default, sent),
        Answer::Refused(fault) => list_fault(heap, fault),
        Answer::NotSent(fault) => list_fault(heap, fault),
        Answer::NotNow => String::from_str(heap, "NOT NOW\n"),
    }
}
