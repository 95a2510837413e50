// A location that the tests make from any rows, also from such as no container tells.
ghost use Rattle.vectors.specs.Made.{told_lines};

use location::{Location, Row};

// A row, whose text is one byte as often as the row's length says.
#[derive(Clone, Copy)]
pub(crate) struct Line {
    pub(crate) row: Row,
    pub(crate) fill: u8,
}

#[derive(Clone, Copy)]
pub(crate) struct Made<'a> {
    pub(crate) lines: &'a [Line],
}

// A mark is the lines from there on.
impl<'a> Location for Made<'a> {
    type Mark = &'a [Line];

    ghost rows = { λ s m. told_lines m.now };

    ghost whole = { λ s. told_lines s.lines.now };

    fn first(&self) -> &'a [Line] {
        self.lines
    }

    fn here(&self, m: &'a [Line]) -> bool {
        !m.is_empty()
    }

    fn row(&self, m: &'a [Line]) -> Option<Row> {
        m.first().map(|line| line.row)
    }

    fn byte(&self, m: &'a [Line], i: usize) -> Option<u8> {
        let line = m.first()?;
        (i < usize::from(line.row.length)).then_some(line.fill)
    }

    fn next(&self, m: &'a [Line]) -> Option<&'a [Line]> {
        m.split_first().map(|(_line, rest)| rest)
    }
}
