// The height of a place: a code, then a signed number in two bytes.
ghost use Rattle.std.specs.Prelude.{refl};
ghost use Rattle.grammar.specs.Format.{layout};
ghost use Rattle.fields.specs.Shape.{lay_of, height_shape};
ghost use Rattle.fields.specs.Laws.{lawful_of, faithful_height};

use super::{FixedFields, Tells, put};

pub struct Height;

impl FixedFields for Height {
    type Value = (u8, i16);

    const ID: u8 = 1;

    ghost ID = { (layout 9).id };

    ghost lay = { lay_of height_shape };

    ghost lawful = { lawful_of height_shape faithful_height };

    fn size() -> usize {
        3
    }

    fn read(bytes: &[u8]) -> Option<(u8, i16)> {
        let [code, a, b]: [u8; 3] = bytes.try_into().ok()?;
        Some((code, i16::from_be_bytes([a, b])))
    }

    fn write((code, height): (u8, i16), out: &mut [u8]) -> bool {
        let [a, b] = height.to_be_bytes();
        put(&[code, a, b], out)
    }
}

impl Tells for Height {
    ghost shape = { height_shape };

    ghost honest = { faithful_height };

    ghost tied = { refl };

    fn told((code, height): (u8, i16)) -> (i32, i32) {
        (i32::from(code), i32::from(height))
    }
}
