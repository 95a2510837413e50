// Writes bytes into an output one behind the other, each over what stood there.
ghost use Rattle.std.specs.Prelude.{◌≡◌, ℕ, suc, ◌+◌, ◌^◌, ◌<◌, ◌≤◌, true, [], ◌∷◌, length as long};
ghost use Rattle.grammar.specs.Format.{big, layout, fits, fixed, fixed_bytes};
ghost use Rattle.location.specs.Answers.{head_text};
ghost use Rattle.sender.specs.Penned.{Room, Wrote};

use fields::{Count, FixedFields, Floor, Globe, Height, NodeCode, Radius};
use grammar::{Fields, layout_of};
use location::Location;

// An output, and where in it the next byte goes.
#[derive(Drop)]
pub(crate) struct Pen<'o> {
    out: &'o mut [u8],
    at: usize,
}

impl<'o> Pen<'o> {
    // At the front of an output.
    pub(crate) fn new(out: &'o mut [u8]) -> Pen<'o>
        ensures front { result.at ≡ 0 }
        ensures same { result.out.now ≡ out.old }
        ensures same_output { result.out.ghost_name ≡ out.entry.ghost_name }
    {
        Pen { out, at: 0 }
    }

    pub(crate) fn byte(&mut self, byte: u8)
        requires { Room self.old 1 }
        ensures { Wrote self.old (byte ∷ []) self.new }
    {
        self.out[self.at] = byte;
        self.at += 1;
    }

    pub(crate) fn bytes(&mut self, bytes: &[u8])
        requires { Room self.old (long bytes.now) }
        ensures { Wrote self.old bytes.now self.new }
    {
        let end = self.at + bytes.len();
        self.out[self.at..end].copy_from_slice(bytes);
        self.at = end;
    }

    // A number in so many bytes, the highest first.
    pub(crate) fn number(&mut self, width: usize, number: usize)
        requires narrow { width ≤ 8 }
        requires fits { number < 256 ^ width }
        requires room { Room self.old width }
        ensures { Wrote self.old (big width number) self.new }
    {
        let bytes = number.to_be_bytes();
        self.bytes(&bytes[bytes.len() - width..]);
    }

    // The text of the row at a mark, which has so many bytes.
    pub(crate) fn text<L: Location>(&mut self, l: &L, m: L::Mark, size: u8)
        requires sized { size ≡ long (head_text (L.rows l.now m)) }
        requires room { Room self.old size }
        ensures { Wrote self.old (head_text (L.rows l.now m)) self.new }
    {
        l.copy_text(m, &mut self.out[self.at..]);
        self.at += usize::from(size);
    }

    // The header of a component of a kind whose data have so many bytes.
    pub(crate) fn header(&mut self, kind: u8, size: usize)
        requires fits { size < 256 ^ (layout kind).width }
        requires room { Room self.old (suc (layout kind).width) }
        ensures { Wrote self.old ((layout kind).id ∷ big (layout kind).width size) self.new }
    {
        let layout = layout_of(kind);
        self.byte(layout.id);
        self.number(usize::from(layout.width), size);
    }

    // The value of one kind of fixed fields.
    fn value<F: FixedFields>(&mut self, v: F::Value)
        requires good { F.lay.valid v ≡ true }
        requires room { Room self.old F.lay.size }
        ensures { Wrote self.old (F.lay.written v) self.new }
    {
        F::write(v, &mut self.out[self.at..]);
        self.at += F::size();
    }

    // Fixed fields, of which `held` is how many parts follow where those are counted.
    pub(crate) fn fields(&mut self, fields: Fields, a: i32, b: i32, held: u8)
        requires good { fits fields a b ≡ true }
        requires room { Room self.old (fixed_bytes fields) }
        ensures { Wrote self.old (fixed fields a b held) self.new }
    {
        match fields {
            Fields::Nothing | Fields::Text => (),
            Fields::Code => self.value::<NodeCode>(a as u8),
            Fields::Globe => self.value::<Globe>((a, b)),
            Fields::Floor => self.value::<Floor>(a as i8),
            Fields::Count => self.value::<Count>(held),
            Fields::Radius => self.value::<Radius>(a as u16),
            Fields::Height => self.value::<Height>((a as u8, b as i16)),
        }
    }
}
