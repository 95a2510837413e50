// Which numbers the fixed fields can hold.
ghost use Rattle.std.specs.Prelude.{◌≡◌};
ghost use Rattle.grammar.specs.Format.{fits, is_zero};

use super::globes::on_globe;
use grammar::Fields;

pub fn is_zero(z: i32) -> bool
    ensures { result ≡ is_zero z }
{
    z == 0
}

// The fields can hold the two numbers.
pub fn fits_numbers(fields: Fields, a: i32, b: i32) -> bool
    ensures { result ≡ fits fields a b }
{
    match fields {
        Fields::Nothing | Fields::Count => is_zero(a) && is_zero(b),
        Fields::Code => u8::try_from(a).is_ok() && is_zero(b),
        Fields::Text => false,
        Fields::Globe => on_globe(a, b),
        Fields::Floor => i8::try_from(a).is_ok() && is_zero(b),
        Fields::Radius => u16::try_from(a).is_ok() && is_zero(b),
        Fields::Height => u8::try_from(a).is_ok() && i16::try_from(b).is_ok(),
    }
}
