// A legal container as a location.
ghost use Rattle.std.specs.Prelude.{◌≡◌};
ghost use Rattle.grammar.specs.Walk.{data_from};
ghost use Rattle.reader.specs.Marks.{rows_at};
ghost use Rattle.reader.specs.Whole.{rows_of, Opens};

use super::checks::check;
use super::marks::{Frame, Mark};
use super::sights::find;
use super::standings::find_descriptions;
use grammar::{ReadFault, Spot};
use location::{Location, Row, copy_front};

// A legal container, by its bytes, and where the data of its descriptions start and end: no `Range`, which is not `Copy`.
#[derive(Clone, Copy)]
pub struct Container<'a> {
    bytes: &'a [u8],
    start: usize,
    end: usize,
}

impl<'a> Container<'a> {
    // The container in bytes that are legal.
    fn within(bytes: &'a [u8]) -> Container<'a>
        ensures bytes { result.bytes.now ≡ bytes.now }
        ensures start { result.start ≡ (data_from bytes.now 1).start }
        ensures end { result.end ≡ (data_from bytes.now 1).end }
    {
        let (start, end) = find_descriptions(bytes);
        Container { bytes, start, end }
    }

    // The container that the bytes are, or their first fault.
    pub fn open(bytes: &'a [u8]) -> Result<Container<'a>, ReadFault>
        ensures { Opens bytes.now result }
    {
        check(bytes)?;
        Ok(Container::within(bytes))
    }
}

impl<'a> Location for Container<'a> {
    type Mark = Mark;

    ghost rows = { λ c m. rows_at c.bytes.now m };

    ghost whole = { λ c. rows_of c };

    fn first(&self) -> Mark {
        Mark::inside(
            Frame {
                end: self.end,
                spot: Spot::Descriptions,
            },
            self.start,
        )
    }

    fn here(&self, mut m: Mark) -> bool {
        find(self.bytes, &mut m).is_some()
    }

    fn row(&self, mut m: Mark) -> Option<Row> {
        Some(find(self.bytes, &mut m)?.row(self.bytes))
    }

    fn byte(&self, mut m: Mark, i: usize) -> Option<u8> {
        find(self.bytes, &mut m)?.byte(self.bytes, i)
    }

    fn next(&self, mut m: Mark) -> Option<Mark> {
        find(self.bytes, &mut m)?.pass(&mut m);
        Some(m)
    }

    fn copy_text(&self, mut m: Mark, out: &mut [u8]) -> bool {
        // No `is_none_or`: what a closure wrote to `out` is not known after it.
        match find(self.bytes, &mut m) {
            Some(sight) => copy_front(sight.text(self.bytes), out),
            None => true,
        }
    }
}
