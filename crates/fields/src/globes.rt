// A place on the globe: longitude, then latitude, a signed number in four bytes each.
ghost use Rattle.std.specs.Prelude.{◌≡◌, refl};
ghost use Rattle.grammar.specs.Format.{layout};
ghost use Rattle.fields.specs.Shape.{lay_of, fitting, globe_shape};
ghost use Rattle.fields.specs.Laws.{lawful_of, faithful_globe};

use super::{FixedFields, Tells, put};

pub struct Globe;

// Whether a longitude and a latitude are on the globe.
pub(crate) fn on_globe(longitude: i32, latitude: i32) -> bool
    ensures { result ≡ fitting globe_shape (longitude, latitude) }
{
    longitude.unsigned_abs() <= 18_000_000 && latitude.unsigned_abs() <= 9_000_000
}

impl FixedFields for Globe {
    type Value = (i32, i32);

    const ID: u8 = 2;

    ghost ID = { (layout 4).id };

    ghost lay = { lay_of globe_shape };

    ghost lawful = { lawful_of globe_shape faithful_globe };

    fn size() -> usize {
        8
    }

    fn read(bytes: &[u8]) -> Option<(i32, i32)> {
        let [a, b, c, d, e, f, g, h]: [u8; 8] = bytes.try_into().ok()?;
        let longitude = i32::from_be_bytes([a, b, c, d]);
        let latitude = i32::from_be_bytes([e, f, g, h]);
        on_globe(longitude, latitude).then_some((longitude, latitude))
    }

    fn write((longitude, latitude): (i32, i32), out: &mut [u8]) -> bool {
        let bytes = [longitude.to_be_bytes(), latitude.to_be_bytes()];
        on_globe(longitude, latitude) && put(bytes.as_flattened(), out)
    }
}

impl Tells for Globe {
    ghost shape = { globe_shape };

    ghost honest = { faithful_globe };

    ghost tied = { refl };

    fn told(place: (i32, i32)) -> (i32, i32) {
        place
    }
}
