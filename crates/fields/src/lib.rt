// The fixed fields of a component: which values they hold, how those lie in bytes, and how they are read and written.
#![tactic(auto)]

ghost use Rattle.std.specs.Prelude.{◌≡◌, ℕ, ◌+◌, true, ◌&&◌, ltb, List, ◌++◌, length, drop, pos, if◌then◌else◌, Some, None, nat_le};
ghost use Rattle.grammar.specs.Grammar.{Bytes};
ghost use Rattle.fields.specs.Lay.{Lay, Lawful};
ghost use Rattle.fields.specs.Shape.{Shape, lay_of};
ghost use Rattle.fields.specs.Laws.{Faithful};
ghost use Rattle.fields.specs.Told.{read_at, numbers_at};

use grammar::Fields;

mod codes;
mod counts;
mod floors;
mod globes;
mod heights;
mod radii;
#[cfg(test)]
mod tests;

pub use codes::{Code, ModeCode, NodeCode, code_identifiers};
pub use counts::Count;
pub use floors::Floor;
pub use globes::Globe;
pub use heights::Height;
pub use radii::Radius;

mod bounds;

pub use bounds::{fits_numbers, is_zero};

// The fixed fields of one kind of component.
// Code, Floor and Radius are not one set generic in its number: a trait over u8, i8 and u16 would have nearly these members again.
pub trait FixedFields {
    // what the fields are read as and written from
    type Value;

    // the component's identifier where it stands
    const ID: u8;

    ghost ID: { ℕ };

    // how the values lie in bytes
    ghost lay: { Lay Self.Value };

    fn identifier() -> u8
        ensures { result ≡ ID }
    {
        Self::ID
    }

    fn size() -> usize
        ensures { result ≡ lay.size };

    // None where the bytes are too few or too many, or hold what may not be written.
    fn read(bytes: &[u8]) -> Option<Self::Value>
        ensures { result ≡ lay.reads bytes.now };

    // Writes the value at the front; false, and nothing is written, where it may not be or there is no room.
    fn write(v: Self::Value, out: &mut [u8]) -> bool
        ensures told { result ≡ (lay.valid v && nat_le lay.size (length out.old)) }
        ensures wrote { out.new ≡ (if result then lay.written v ++ drop lay.size out.old else out.old) };

    // what is written is read back, and what is read is written back
    ghost lawful: { Lawful lay };

    // a value that may be written is read back
    ghost back: { (v : Self.Value) → lay.valid v ≡ true → lay.reads (lay.written v) ≡ Some v } = { lawful.back };

    // bytes that have a value are the bytes of that value
    ghost only: { (bs : List ℕ) (v : Self.Value) → Bytes bs → lay.reads bs ≡ Some v → lay.written v ≡ bs } = { lawful.only };

    // what is read may be written
    ghost good: { (bs : List ℕ) (v : Self.Value) → Bytes bs → lay.reads bs ≡ Some v → lay.valid v ≡ true } = { lawful.good };

    // every value takes as many bytes
    ghost long: { (v : Self.Value) → length (lay.written v) ≡ lay.size } = { lawful.long };
}

// Fixed fields whose values are to the grammar what their shape says.
pub trait Tells: FixedFields {
    // what the values are to the grammar
    ghost shape: { Shape Self.Value };

    // The two numbers that a value tells.
    fn told(v: Self::Value) -> (i32, i32)
        ensures { result ≡ (shape.first v, shape.second v) };

    // a value is what its bytes tell and count
    ghost honest: { Faithful shape };

    // the values lie in bytes as the grammar has them
    ghost tied: { Self.lay ≡ lay_of shape };
}

// Writes the bytes at the front, if there is room.
pub(crate) fn put(bytes: &[u8], out: &mut [u8]) -> bool
    ensures told { result ≡ nat_le (length bytes.now) (length out.old) }
    ensures wrote { out.new ≡ (if result then bytes.now ++ drop (length bytes.now) out.old else out.old) }
{
    // Not by `get_mut` or `split_at_mut_checked`: once what they lend is back, no more than the length of `out` is known.
    let n = bytes.len();
    if n > out.len() {
        return false;
    }
    out[..n].copy_from_slice(bytes);
    true
}

// The value of the fields at an offset.
pub fn read_at<F: FixedFields>(bytes: &[u8], at: usize) -> Option<F::Value>
    ensures { result ≡ read_at F.lay.reads F.lay.size bytes.now at }
{
    F::read(bytes.get(at..)?.get(..F::size())?)
}

// The two numbers that the fields at an offset tell.
fn told_at<F: Tells>(bytes: &[u8], at: usize) -> Option<(i32, i32)>
    ensures { result ≡ numbers_at F.shape.fields bytes.now at }
{
    Some(F::told(read_at::<F>(bytes, at)?))
}

// Fields that tell no number, where their bytes are there.
fn untold_at(bytes: &[u8], at: usize, size: usize) -> Option<(i32, i32)>
    ensures { result ≡ (if ltb (length bytes.now) (at + size) then None else Some (pos 0, pos 0)) }
{
    bytes.get(at..)?.get(..size).map(|_| (0, 0))
}

// The two numbers that fixed fields at an offset tell; None where the bytes end before them, or they are off the globe.
pub fn numbers(fields: Fields, bytes: &[u8], at: usize) -> Option<(i32, i32)>
    ensures { result ≡ numbers_at fields bytes.now at }
{
    match fields {
        Fields::Nothing => untold_at(bytes, at, 0),
        Fields::Code => told_at::<NodeCode>(bytes, at),
        Fields::Text => untold_at(bytes, at, 1),
        Fields::Globe => told_at::<Globe>(bytes, at),
        Fields::Floor => told_at::<Floor>(bytes, at),
        Fields::Count => told_at::<Count>(bytes, at),
        Fields::Radius => told_at::<Radius>(bytes, at),
        Fields::Height => told_at::<Height>(bytes, at),
    }
}
