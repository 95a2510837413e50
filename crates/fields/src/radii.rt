// The radius of a place: a number in two bytes.
ghost use Rattle.std.specs.Prelude.{refl};
ghost use Rattle.grammar.specs.Format.{layout};
ghost use Rattle.fields.specs.Shape.{lay_of, radius_shape};
ghost use Rattle.fields.specs.Laws.{lawful_of, faithful_radius};

use super::{FixedFields, Tells, put};

pub struct Radius;

impl FixedFields for Radius {
    type Value = u16;

    const ID: u8 = 0;

    ghost ID = { (layout 8).id };

    ghost lay = { lay_of radius_shape };

    ghost lawful = { lawful_of radius_shape faithful_radius };

    fn size() -> usize {
        2
    }

    fn read(bytes: &[u8]) -> Option<u16> {
        bytes.try_into().ok().map(u16::from_be_bytes)
    }

    fn write(radius: u16, out: &mut [u8]) -> bool {
        put(&radius.to_be_bytes(), out)
    }
}

impl Tells for Radius {
    ghost shape = { radius_shape };

    ghost honest = { faithful_radius };

    ghost tied = { refl };

    fn told(radius: u16) -> (i32, i32) {
        (i32::from(radius), 0)
    }
}
