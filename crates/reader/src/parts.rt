// Headers, fixed fields and the components of a text, read at the reader's place.
ghost use Rattle.std.specs.Prelude.{◌≡◌, ℕ, suc, ◌+◌, ◌-◌, ◌*◌, ◌^◌, ◌<◌, ◌≤◌, false, length, IfOk, None, OnOk};
ghost use Rattle.grammar.specs.Offsets.{value as value_at, ends, least};
ghost use Rattle.grammar.specs.Format.{width, layout};
ghost use Rattle.grammar.specs.Reading.{sealed};
ghost use Rattle.grammar.specs.Checks.{tail_of, room_for, fields_of, data_of};
ghost use Rattle.reader.specs.Fielded.{fields_end};
ghost use Rattle.reader.specs.Opened.{Opened, NextPart, Along};

use super::edge::Reader;
use fields::numbers;
use grammar::{ReadFault, Spot, layout_of};

// The identifier of a text's language part.
const LANGUAGE: u8 = 0;

// The number in the `width` bytes at `at`, the highest first.
pub(crate) fn number_at(bytes: &[u8], at: usize, width: usize) -> usize
    requires within { at + width ≤ length bytes.now }
    requires narrow { width ≤ 7 }
    ensures value { result ≡ value_at bytes.now at width }
    ensures bound { result < 256 ^ width }
{
    let mut n: usize = 0;
    for b in &bytes[at..at + width] {
        n = n * 256 + usize::from(*b);
    }
    n
}

// The bytes that the fixed fields of a kind take, a text with them.
fn least_at(bytes: &[u8], at: usize, kind: u8) -> usize
    requires { at + (layout kind).fixed ≤ length bytes.now }
    ensures { result ≡ least bytes.now (layout kind).fields at }
{
    let layout = layout_of(kind);
    let fixed = usize::from(layout.fixed);
    if layout.is_text() {
        fixed + usize::from(bytes[at])
    } else {
        fixed
    }
}

// A known component whose header was read: where it stands and at which level, its kind, and where it ends.
#[derive(Clone, Copy)]
pub(crate) struct Part {
    pub(crate) place: usize,
    pub(crate) level: u8,
    pub(crate) kind: u8,
    pub(crate) stop: usize,
}

impl Reader<'_> {
    // Reads the header at the reader's place, moves past it, and answers the component's end.
    pub(crate) fn header(&mut self, width: usize, level: u8) -> Result<usize, ReadFault>
        requires narrow { width ≤ 7 }
        ensures value { result ≡ ends self.old.bytes.now width level self.old.at self.old.end }
        ensures edge { Along self.old self.new }
        ensures moved { IfOk result (λ stop. (self.new.at ≡ self.old.at + suc width) × (self.new.at ≤ stop) × (stop ≤ self.old.end)) }
    {
        let place = self.at;
        let past_end = ReadFault::PastEnd { place, level };
        if self.end - place <= width {
            return Err(past_end);
        }
        let from = place + 1 + width;
        let length = number_at(self.bytes, place + 1, width);
        if self.end - from < length {
            return Err(past_end);
        }
        self.at = from;
        Ok(from + length)
    }

    // Reads the header at the reader's place and looks the identifier up; an unknown component is passed over.
    pub(crate) fn open_part(&mut self, spot: Spot, level: u8) -> Result<Option<Part>, ReadFault>
        requires some { self.old.at < self.old.end }
        ensures edge { Along self.old self.new }
        ensures found { Opened self.old.bytes.now spot level self.old.at self.old.end result self.new }
    {
        let place = self.at;
        let id = self.bytes[place];
        let stop = self.header(spot.width(), level)?;
        match spot.kind_at(id) {
            Some(kind) => Ok(Some(Part {
                place,
                level,
                kind,
                stop,
            })),
            None => {
                self.at = stop;
                Ok(None)
            }
        }
    }

    // The next known component before the reader's edge; unknown ones are passed over.
    pub(crate) fn next_part(&mut self, spot: Spot, level: u8) -> Result<Option<Part>, ReadFault>
        requires free { self.old.at < self.old.end → sealed spot ≡ false }
        ensures edge { Along self.old self.new }
        ensures next { NextPart self.old.bytes.now spot level self.old.at self.old.end result self.new }
    {
        while self.at < self.end {
            if let Some(part) = self.open_part(spot, level)? {
                return Ok(Some(part));
            }
        }
        Ok(None)
    }

    // The language that a text's own components say, from the reader's place to its edge.
    pub(crate) fn read_language(&mut self, level: u8) -> Result<Option<u8>, ReadFault>
        ensures value { result ≡ tail_of self.old.bytes.now level None self.old.at self.old.end }
        ensures edge { Along self.old self.new }
        ensures moved { OnOk result (self.new.at ≡ self.old.end) }
    {
        let mut language = None;
        while self.at < self.end {
            let place = self.at;
            let id = self.bytes[place];
            let stop = self.header(1, level)?;
            if id == LANGUAGE {
                if language.is_some() {
                    return Err(ReadFault::SecondLanguage { place, level });
                }
                if stop - self.at != 1 {
                    return Err(ReadFault::WrongSize { place, level });
                }
                language = Some(self.bytes[place + 2]);
            }
            self.at = stop;
        }
        Ok(language)
    }

    // The bytes that the fixed fields of a kind take, a text with them, if they end before the edge.
    pub(crate) fn fields_size(&self, kind: u8) -> Option<usize>
        ensures { result ≡ room_for self.now.bytes.now (layout kind).fields self.now.at self.now.end }
    {
        let room = self.end - self.at;
        if room < usize::from(layout_of(kind).fixed) {
            return None;
        }
        let size = least_at(self.bytes, self.at, kind);
        if room < size { None } else { Some(size) }
    }

    // Where the parts begin past them, if they fit, and fill the data where nothing may follow.
    fn fields_end(&self, kind: u8) -> Option<usize>
        ensures { result ≡ fields_end self.now.bytes.now (layout kind) self.now.at self.now.end }
    {
        let size = self.fields_size(kind)?;
        if layout_of(kind).ends_there() && size != self.end - self.at {
            return None;
        }
        Some(self.at + size)
    }

    // Passes the fixed fields of a component whose data the reader stands at, and answers where its parts begin.
    // Their size is tried before the globe.
    pub(crate) fn pass_fields(&mut self, part: Part) -> Result<usize, ReadFault>
        ensures value { result ≡ fields_of self.old.bytes.now (layout part.kind) part.level part.place self.old.at self.old.end }
        ensures edge { Along self.old self.new }
        ensures moved { IfOk result (λ a. (self.new.at ≡ a) × (self.old.at ≤ a) × (a ≤ self.old.end)) }
    {
        let Part {
            place,
            level,
            kind,
            ..
        } = part;
        let told = numbers(layout_of(kind).fields, self.bytes, self.at);
        let Some(inside) = self.fields_end(kind) else {
            return Err(ReadFault::WrongSize { place, level }); // before the globe
        };
        if told.is_none() {
            return Err(ReadFault::OffGlobe { place, level });
        }
        self.at = inside;
        Ok(inside)
    }

    // The same past a text's own components too.
    pub(crate) fn pass_data(&mut self, part: Part) -> Result<usize, ReadFault>
        requires levels { part.level < 255 }
        ensures value { result ≡ data_of self.old.bytes.now (layout part.kind) part.level part.place self.old.at self.old.end }
        ensures edge { Along self.old self.new }
        ensures moved { IfOk result (λ a. (self.new.at ≡ a) × (self.old.at ≤ a) × (a ≤ self.old.end)) }
    {
        self.pass_fields(part)?;
        if layout_of(part.kind).is_text() {
            self.read_language(part.level + 1)?;
        }
        Ok(self.at)
    }
}
