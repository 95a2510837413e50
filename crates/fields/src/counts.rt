// How many nodes stand in associated modes: one byte.
ghost use Rattle.std.specs.Prelude.{refl};
ghost use Rattle.grammar.specs.Format.{layout};
ghost use Rattle.fields.specs.Shape.{lay_of, count_shape};
ghost use Rattle.fields.specs.Laws.{lawful_of, faithful_count};

use super::{FixedFields, Tells, put};

pub struct Count;

impl FixedFields for Count {
    type Value = u8;

    const ID: u8 = 5;

    ghost ID = { (layout 7).id };

    ghost lay = { lay_of count_shape };

    ghost lawful = { lawful_of count_shape faithful_count };

    fn size() -> usize {
        1
    }

    fn read(bytes: &[u8]) -> Option<u8> {
        bytes.try_into().ok().map(u8::from_be_bytes)
    }

    fn write(count: u8, out: &mut [u8]) -> bool {
        put(&count.to_be_bytes(), out)
    }
}

impl Tells for Count {
    ghost shape = { count_shape };

    ghost honest = { faithful_count };

    ghost tied = { refl };

    fn told(_count: u8) -> (i32, i32) {
        (0, 0)
    }
}
