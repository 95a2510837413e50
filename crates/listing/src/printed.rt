// Bytes as the lines print them.
ghost use Rattle.std.specs.Prelude.{◌≡◌, ◌*◌, length, Some};
ghost use Rattle.std.specs.Str.{IsUtf8};
ghost use Rattle.listing.specs.Listed.{hexes, text_line};

use std::{fmt, str};

// How many bytes are printed at once.
const PART: usize = 64;

// Puts the digits of bytes in places, two for each byte.
fn put_digits(bytes: &[u8], places: &mut [u8])
    requires { length places.old ≡ 2 * length bytes.now }
    ensures digits { places.new ≡ hexes bytes.now }
    ensures text { IsUtf8 places.new }
{
    let Ok(()) = hex::encode_to_slice(bytes, places) else {
        unreachable!();
    };
    places.make_ascii_uppercase();
}

// Prints two digits for each byte.
#[derive(Clone, Copy)]
pub struct Hex<'a>(pub &'a [u8]);

impl fmt::Display for Hex<'_> {
    ghost output = { λ h. Some (hexes h.0.now) };

    fn fmt<W: fmt::Write>(&self, f: &mut fmt::Formatter<W>) -> fmt::Result {
        let mut room = [0u8; 2 * PART];
        for part in self.0.chunks(PART) {
            let digits = &mut room[..2 * part.len()];
            put_digits(part, digits);
            let Ok(text) = str::from_utf8(digits) else {
                unreachable!();
            };
            f.write_str(text)?;
        }
        Ok(())
    }
}

// Prints the same, or a dash where there are no bytes.
#[derive(Clone, Copy)]
pub struct HexOrDash<'a>(pub &'a [u8]);

impl fmt::Display for HexOrDash<'_> {
    ghost output = { λ h. Some (text_line h.0.now) };

    fn fmt<W: fmt::Write>(&self, f: &mut fmt::Formatter<W>) -> fmt::Result {
        if self.0.is_empty() {
            return write!(f, "-");
        }
        let bytes = Hex(self.0);
        write!(f, "{bytes}")
    }
}
