// Bytes from hexadecimal text.
ghost use Rattle.std.specs.Prelude.{◌≡◌, ◌<◌, IfOk, IfSome, Some, None, MatchOption};
ghost use Rattle.listing.specs.Unhexed.{digit_of, unhex, ReadsBack};

use std::alloc::{AllocError, Global};

// The value of a digit, of either case.
fn digit_value(c: u8) -> Option<u8>
    ensures value { result ≡ digit_of c }
    ensures small { IfSome result (λ d. d < 16) }
{
    match c {
        b'0'..=b'9' => Some(c - b'0'),
        b'A'..=b'F' => Some(c - b'A' + 10),
        b'a'..=b'f' => Some(c - b'a' + 10),
        _ => None,
    }
}

// The bytes of a text that has two digits for each, the higher first, and blanks anywhere; None where it has anything else.
pub fn read_hex(heap: Global, text: &[u8]) -> Result<Option<Vec<u8>>, AllocError>
    ensures { IfOk result (λ o. MatchOption o (unhex text.now ≡ None) (λ v. unhex text.now ≡ Some v.items)) }
{
    let mut out = Vec::new(heap);
    let mut digits = text.iter().copied().filter(|c| *c != b' ');
    while let Some(c) = digits.next() {
        let Some(high) = digit_value(c) else {
            return Ok(None);
        };
        let Some(low) = digits.next().and_then(digit_value) else {
            return Ok(None);
        };
        out.push(high * 16 + low)?;
    }
    Ok(Some(out))
}

// Bytes that are written out are read back.
pub fn hex_reads_back()
    ensures { ReadsBack }
{}
