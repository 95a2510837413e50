// What is found at a mark of a container.
ghost use Rattle.std.specs.Prelude.{◌≡◌, ℕ, ◌+◌, ◌<◌, ◌≤◌, List, length as long, slice_index};
ghost use Rattle.std.specs.List.{slice_get};
ghost use Rattle.grammar.specs.declared.table.Fields.TheVariants.{Text};
ghost use Rattle.grammar.specs.Grammar.{Bytes};
ghost use Rattle.grammar.specs.Offsets.{least};
ghost use Rattle.grammar.specs.Walk.{language_at};
ghost use Rattle.location.specs.Answers.{seen};
ghost use Rattle.reader.specs.Marks.{rows_at};
ghost use Rattle.reader.specs.Seen.{Stepped, Sighted, StandingAt, FoundAt, Roomy, Within, rows_beyond, told_row};

use super::edge::Reader;
use super::marks::{Frame, MOST_HOLDERS, Mark};
use super::parts::Part;
use super::standings::{Component, keep, language_in};
use fields::numbers;
use grammar::layout_of;
use location::Row;

// A row where a mark stands: how deep it is, and its component.
#[derive(Clone, Copy)]
pub(crate) struct Sight {
    depth: u8,
    kind: u8,
    from: usize,
    inside: usize,
    stop: usize,
}

// What is found at a mark that is not the end: a row, or nothing yet, and the mark went on to a place with the same rows.
#[derive(Clone, Copy)]
pub(crate) enum Step {
    Row(Sight),
    Pass,
}

// The known component at a mark, as a row, if a mark has room for one holder more where parts may follow.
fn enter(bytes: &[u8], mark: &Mark, frame: Frame, component: Component) -> Option<Sight>
    requires { StandingAt bytes.now mark.now frame component }
    ensures { Sighted bytes.now mark.now mark.now result }
{
    let Component {
        kind,
        from,
        inside,
        stop,
    } = component;
    if !layout_of(kind).inside.is_closed() && usize::from(mark.held) >= MOST_HOLDERS {
        return None;
    }
    Some(Sight {
        depth: mark.held - 1,
        kind,
        from,
        inside,
        stop,
    })
}

// The known component `part`, at whose data the reader stands, as a row.
fn look(mark: &Mark, frame: Frame, reader: &Reader<'_>, part: Part) -> Option<Sight>
    requires found { FoundAt mark.now frame reader.now part }
    ensures { Sighted reader.now.bytes.now mark.now mark.now result }
{
    enter(reader.bytes, mark, frame, keep(reader, part)?)
}

// What is found at a mark. It is moved in its place, since it is too large to be copied at each step.
fn take_step(bytes: &[u8], mark: &mut Mark) -> Option<Step>
    ensures { Stepped bytes.now mark.old mark.new result }
{
    if mark.held == 0 {
        return None;
    }
    let frame = mark.top();
    if frame.end > bytes.len() {
        return None;
    }
    if frame.end <= mark.at {
        mark.pop();
        return Some(Step::Pass);
    }
    let mut reader = Reader {
        bytes,
        at: mark.at,
        end: frame.end,
    };
    match reader.open_part(frame.spot, 0).ok()? {
        Some(part) => Some(Step::Row(look(mark, frame, &reader, part)?)),
        None => {
            mark.go(reader.at);
            Some(Step::Pass)
        }
    }
}

// The first row from a mark on, to whose place the mark goes.
pub(crate) fn find(bytes: &[u8], mark: &mut Mark) -> Option<Sight>
    ensures { Sighted bytes.now mark.old mark.new result }
{
    loop {
        match take_step(bytes, mark)? {
            Step::Row(sight) => return Some(sight),
            Step::Pass => {}
        }
    }
}

// The language of the text that a row's data hold.
fn language_of(bytes: &[u8], from: usize, stop: usize) -> u8
    requires text { from + least bytes.now Text from ≤ stop }
    requires within { stop ≤ long bytes.now }
    ensures { result ≡ language_at bytes.now (slice_index bytes.now 0) from stop }
{
    let parts = from + 1 + usize::from(bytes[from]);
    language_in(bytes, parts, stop).unwrap_or(bytes[0])
}

impl Sight {
    // Moves a mark that stands at the row to the rows after it.
    pub(crate) fn pass(&self, mark: &mut Mark)
        requires { Roomy mark.old self.now }
        ensures { (bs : List ℕ) → rows_at bs mark.new ≡ rows_beyond bs mark.old self.now }
    {
        let spot = layout_of(self.kind).inside;
        if spot.is_closed() {
            mark.go(self.stop);
        } else {
            let end = self.stop;
            mark.push(Frame { end, spot }, self.inside);
        }
    }

    // The row that was found.
    pub(crate) fn row(&self, bytes: &[u8]) -> Row
        requires { Within bytes.now self.now }
        ensures { result ≡ seen (told_row bytes.now self.now) }
    {
        let layout = layout_of(self.kind);
        if layout.is_text() {
            let language = language_of(bytes, self.from, self.stop);
            return Row {
                depth: self.depth,
                kind: self.kind,
                a: 0,
                b: 0,
                language,
                length: bytes[self.from],
            };
        }
        let (a, b) = numbers(layout.fields, bytes, self.from).unwrap_or((0, 0));
        Row {
            depth: self.depth,
            kind: self.kind,
            a,
            b,
            language: 0,
            length: 0,
        }
    }

    // Its text.
    pub(crate) fn text<'a>(&self, bytes: &'a [u8]) -> &'a [u8]
        requires { Within bytes.now self.now }
        ensures text { result.now ≡ (told_row bytes.now self.now).text }
        ensures bytes { Bytes result.now }
    {
        if !layout_of(self.kind).is_text() {
            return &bytes[..0];
        }
        let from = self.from + 1;
        let length = usize::from(bytes[self.from]);
        &bytes[from..from + length]
    }

    // Byte i of it.
    pub(crate) fn byte(&self, bytes: &[u8], i: usize) -> Option<u8>
        requires { Within bytes.now self.now }
        ensures { result ≡ slice_get (told_row bytes.now self.now).text i }
    {
        self.text(bytes).get(i).copied()
    }
}
