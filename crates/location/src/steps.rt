// The rows of a location, one after the other.
ghost use Rattle.std.specs.Prelude.{◌≡◌};
ghost use Rattle.std.specs.Iterator.{item_count};
ghost use Rattle.location.specs.Steps.{steps_left, rows_left, TakesStep, TakesRow};

use super::{Location, Row};

// A row where it stands: its mark, the row, and the mark of the rows after it.
#[derive(Clone, Copy)]
pub struct Step<M> {
    pub mark: M,
    pub row: Row,
    pub rest: M,
}

// Goes over the rows of a location from a mark on, each with its mark.
#[derive(Drop)]
pub struct Steps<'l, L: Location> {
    below: &'l L,
    at: L::Mark,
}

// Goes over the rows alone.
#[derive(Drop)]
pub struct Rows<'l, L: Location> {
    steps: Steps<'l, L>,
}

impl<'l, L: Location> Iterator for Steps<'l, L> {
    type Item = Step<L::Mark>;

    ghost next_gives = { TakesStep L.rows };

    ghost remaining = { item_count (steps_left L.rows) };

    fn next(&mut self) -> Option<Step<L::Mark>> {
        let mark = self.at;
        let row = self.below.row(mark)?;
        let rest = self.below.next(mark)?;
        self.at = rest;
        Some(Step { mark, row, rest })
    }
}

impl<'l, L: Location> Iterator for Rows<'l, L> {
    type Item = Row;

    ghost next_gives = { TakesRow L.rows };

    ghost remaining = { item_count (rows_left L.rows) };

    fn next(&mut self) -> Option<Row> {
        let step = self.steps.next()?;
        Some(step.row)
    }
}

// All the rows of a location, each with its mark.
pub fn steps_of<L: Location>(l: &L) -> Steps<'_, L>
    ensures below { result.below.now ≡ l.now }
    ensures left { steps_left L.rows result ≡ L.whole l.now }
{
    steps_from(l, l.first())
}

// The rows from a mark on, each with its mark.
pub fn steps_from<L: Location>(l: &L, m: L::Mark) -> Steps<'_, L>
    ensures below { result.below.now ≡ l.now }
    ensures left { steps_left L.rows result ≡ L.rows l.now m }
{
    Steps { below: l, at: m }
}

// All the rows of a location.
pub fn rows_of<L: Location>(l: &L) -> Rows<'_, L>
    ensures { rows_left L.rows result ≡ L.whole l.now }
{
    Rows { steps: steps_of(l) }
}

// The rows from a mark on.
pub fn rows_from<L: Location>(l: &L, m: L::Mark) -> Rows<'_, L>
    ensures { rows_left L.rows result ≡ L.rows l.now m }
{
    Rows {
        steps: steps_from(l, m),
    }
}
