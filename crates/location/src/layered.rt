// A layer on a location leaves some of its rows out.
ghost use Rattle.std.specs.Prelude.{◌≡◌};
ghost use Rattle.grammar.specs.Grammar.{Rows};
ghost use Rattle.location.specs.Answers.{head_row};
ghost use Rattle.location.specs.Layers.{SettledFrom};

use super::{Location, Row};

// What a layer leaves. After a row that stays it asks nothing of the rows before.
pub trait Rule {
    // The rows that stay, of those from a mark on.
    ghost leaves: { Self → Rows → Rows };

    // Moves a mark to the first row from there on that stays, which it gives; where none stays, to the end.
    // The mark is moved in its place, since a mark may be large, and layers stand on layers.
    fn settle<L: Location>(&self, below: &L, m: &mut L::Mark) -> Option<Row>
        ensures mark { SettledFrom (leaves self.now) (L.rows below.now m.old) (L.rows below.now m.new) }
        ensures row { result ≡ head_row (L.rows below.now m.new) };

    // Moves the mark alone. A rule that knows its place without the row gives a body of its own.
    fn settled<L: Location>(&self, below: &L, m: &mut L::Mark)
        ensures { SettledFrom (leaves self.now) (L.rows below.now m.old) (L.rows below.now m.new) }
    {
        self.settle(below, m);
    }
}

// A location with a layer on it.
#[derive(Drop)]
pub struct Layered<L, R> {
    below: L,
    rule: R,
}

impl<L, R> Layered<L, R> {
    pub fn on(below: L, rule: R) -> Layered<L, R>
        ensures below { result.below ≡ below }
        ensures rule { result.rule ≡ rule }
    {
        Layered { below, rule }
    }
}

// A mark is one of the location below, given settled, so that what is left out is passed over but once.
impl<L: Location, R: Rule> Location for Layered<L, R> {
    type Mark = L::Mark;

    ghost rows = { λ s m. R.Rule.leaves s.rule (L.Location.rows s.below m) };

    ghost whole = { λ s. R.Rule.leaves s.rule (L.Location.whole s.below) };

    fn first(&self) -> L::Mark {
        let mut m = self.below.first();
        self.rule.settled(&self.below, &mut m);
        m
    }

    fn here(&self, mut m: L::Mark) -> bool {
        self.rule.settle(&self.below, &mut m).is_some()
    }

    fn row(&self, mut m: L::Mark) -> Option<Row> {
        self.rule.settle(&self.below, &mut m)
    }

    fn byte(&self, mut m: L::Mark, i: usize) -> Option<u8> {
        self.rule.settled(&self.below, &mut m);
        self.below.byte(m, i)
    }

    fn next(&self, mut m: L::Mark) -> Option<L::Mark> {
        self.rule.settled(&self.below, &mut m);
        let mut next = self.below.next(m);
        if let Some(n) = &mut next {
            self.rule.settled(&self.below, n);
        }
        next
    }

    fn copy_text(&self, mut m: L::Mark, out: &mut [u8]) -> bool {
        self.rule.settled(&self.below, &mut m);
        self.below.copy_text(m, out)
    }
}
