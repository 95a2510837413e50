// Writes the rows of a location, one behind the other.
ghost use Rattle.std.specs.Prelude.{◌≡◌, ℕ, ◌+◌, ◌≤◌, true, false, ◌∷◌, ◌++◌, length as long, Some};
ghost use Rattle.grammar.specs.Format.{layout, fits};
ghost use Rattle.grammar.specs.Reading.{is_text};
ghost use Rattle.grammar.specs.Flat.{language_part, flat};
ghost use Rattle.location.specs.Answers.{head_row, head_text};
ghost use Rattle.location.specs.Steps.{rest_of};
ghost use Rattle.sender.specs.Penned.{Room, Wrote};
ghost use Rattle.sender.specs.Writable.{Writable};
ghost use Rattle.sender.specs.Heads.{front_at, head_bytes, HeadWritable};

use crate::look::{counted_parts, front_size, inside_size};
use crate::pen::Pen;
use grammar::layout_of;
use location::{Location, Step, steps_of};

// The part that says a text's language, if it is not the default.
fn put_language(pen: &mut Pen, language: u8, default: u8)
    requires { Room pen.old (long (language_part default language)) }
    ensures { Wrote pen.old (language_part default language) pen.new }
{
    if language != default {
        pen.bytes(&[0, 1, language]);
    }
}

// A text with its length before it, and its language after it.
fn put_named<L: Location>(l: &L, step: &Step<L::Mark>, default: u8, pen: &mut Pen)
    requires sized { step.now.row.length ≡ long (head_text (L.rows l.now step.now.mark)) }
    requires room { Room pen.old (long ((step.now.row.length ∷ head_text (L.rows l.now step.now.mark)) ++ language_part default step.now.row.language)) }
    ensures { Wrote pen.old ((step.now.row.length ∷ head_text (L.rows l.now step.now.mark)) ++ language_part default step.now.row.language) pen.new }
{
    let row = step.row;
    pen.byte(row.length);
    pen.text(l, step.mark, row.length);
    put_language(pen, row.language, default);
}

// What stands in a row's component before its parts, of which `held` stand right in it.
fn put_front<L: Location>(l: &L, step: &Step<L::Mark>, default: u8, held: u8, pen: &mut Pen)
    requires there { head_row (L.rows l.now step.now.mark) ≡ Some step.now.row }
    requires good { is_text (layout step.now.row.kind).fields ≡ false → fits (layout step.now.row.kind).fields step.now.row.a step.now.row.b ≡ true }
    requires room { Room pen.old (long (front_at default (L.rows l.now step.now.mark) held)) }
    ensures { Wrote pen.old (front_at default (L.rows l.now step.now.mark) held) pen.new }
{
    let row = step.row;
    let layout = layout_of(row.kind);
    if layout.is_text() {
        put_named(l, step, default, pen);
    } else {
        pen.fields(layout.fields, row.a, row.b, held);
    }
}

// A row's component up to its parts.
fn put_row<L: Location>(l: &L, step: &Step<L::Mark>, default: u8, pen: &mut Pen)
    requires there { head_row (L.rows l.now step.now.mark) ≡ Some step.now.row }
    requires follows { L.rows l.now step.now.rest ≡ rest_of (L.rows l.now step.now.mark) }
    requires good { HeadWritable default (L.rows l.now step.now.mark) }
    requires room { Room pen.old (long (head_bytes default (L.rows l.now step.now.mark))) }
    ensures { Wrote pen.old (head_bytes default (L.rows l.now step.now.mark)) pen.new }
{
    let row = step.row;
    let line = layout_of(row.kind);
    let inside = inside_size(l, step, default);
    let held = counted_parts(l, line, step).unwrap_or(0);
    pen.header(row.kind, front_size(line, row, default) + inside);
    put_front(l, step, default, held, pen);
}

// All the rows.
pub(crate) fn put_rows<L: Location>(l: &L, default: u8, pen: &mut Pen)
    requires good { Writable default (L.whole l.now) }
    requires room { Room pen.old (long (flat default (L.whole l.now))) }
    ensures { Wrote pen.old (flat default (L.whole l.now)) pen.new }
{
    for step in steps_of(l) {
        put_row(l, &step, default, pen);
    }
}
