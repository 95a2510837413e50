// Codes: one byte, under an identifier that is a parameter.
ghost use Rattle.std.specs.Prelude.{◌≡◌, refl};
ghost use Rattle.grammar.specs.Format.{layout};
ghost use Rattle.fields.specs.Shape.{lay_of, code_shape};
ghost use Rattle.fields.specs.Laws.{lawful_of, faithful_code};

use super::{FixedFields, Tells, put};

// A code: one byte. Components of several identifiers hold one, so the identifier is a parameter.
pub struct Code<const I: u8>;

impl<const I: u8> FixedFields for Code<I> {
    type Value = u8;

    const ID: u8 = I;

    ghost ID = { I };

    ghost lay = { lay_of code_shape };

    ghost lawful = { lawful_of code_shape faithful_code };

    fn size() -> usize {
        1
    }

    fn read(bytes: &[u8]) -> Option<u8> {
        bytes.try_into().ok().map(u8::from_be_bytes)
    }

    fn write(code: u8, out: &mut [u8]) -> bool {
        put(&code.to_be_bytes(), out)
    }
}

impl<const I: u8> Tells for Code<I> {
    ghost shape = { code_shape };

    ghost honest = { faithful_code };

    ghost tied = { refl };

    fn told(code: u8) -> (i32, i32) {
        (i32::from(code), 0)
    }
}

// A node's code.
pub type NodeCode = Code<2>;

// A mode's code.
pub type ModeCode = Code<0>;

// The identifiers of a node's code and of a mode's, which are those of the table.
pub fn code_identifiers() -> (u8, u8)
    ensures { result ≡ ((layout 1).id, (layout 10).id) }
{
    (NodeCode::identifier(), ModeCode::identifier())
}
