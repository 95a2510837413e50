// Fields that the grammar does not know: a number in four bytes, the lowest first.
ghost use Rattle.fields.specs.Little.{little, lawful_little};

use super::{FixedFields, put, read_at};

struct Little;

impl FixedFields for Little {
    type Value = u32;

    const ID: u8 = 9;

    ghost ID = { 9 };

    ghost lay = { little };

    ghost lawful = { lawful_little };

    fn size() -> usize {
        4
    }

    fn read(bytes: &[u8]) -> Option<u32> {
        bytes.try_into().ok().map(u32::from_le_bytes)
    }

    fn write(number: u32, out: &mut [u8]) -> bool {
        put(&number.to_le_bytes(), out)
    }
}

#[test]
fn reads_other_fields(rt: HostRuntime) {
    assert_eq!(rt; read_at::<Little>(&[9, 1, 2, 3, 4], 1), Some(0x0403_0201));
    assert_eq!(rt; read_at::<Little>(&[9, 1, 2, 3, 4], 2), None);
}

#[test]
fn writes_other_fields(rt: HostRuntime) {
    let mut out = [9; 5];
    assert!(rt; Little::write(0x0403_0201, &mut out));
    assert_eq!(rt; out, [1, 2, 3, 4, 9]);
}
