// The floor of a node: one signed byte.
ghost use Rattle.std.specs.Prelude.{refl};
ghost use Rattle.grammar.specs.Format.{layout};
ghost use Rattle.fields.specs.Shape.{lay_of, floor_shape};
ghost use Rattle.fields.specs.Laws.{lawful_of, faithful_floor};

use super::{FixedFields, Tells, put};

pub struct Floor;

impl FixedFields for Floor {
    type Value = i8;

    const ID: u8 = 3;

    ghost ID = { (layout 5).id };

    ghost lay = { lay_of floor_shape };

    ghost lawful = { lawful_of floor_shape faithful_floor };

    fn size() -> usize {
        1
    }

    fn read(bytes: &[u8]) -> Option<i8> {
        bytes.try_into().ok().map(i8::from_be_bytes)
    }

    fn write(floor: i8, out: &mut [u8]) -> bool {
        put(&floor.to_be_bytes(), out)
    }
}

impl Tells for Floor {
    ghost shape = { floor_shape };

    ghost honest = { faithful_floor };

    ghost tied = { refl };

    fn told(floor: i8) -> (i32, i32) {
        (i32::from(floor), 0)
    }
}
