// Layers in piles.
ghost use Rattle.std.specs.Prelude.{◌≡◌, [], ◌∷◌, Some, None};
ghost use Rattle.location.specs.Answers.{head_row};
ghost use Rattle.location.specs.Layers.{cut, one_language};

use super::{Cut, Location, OneLanguage, Row, rows_of};
use std::test::Fail;

// No rows.
#[derive(Drop)]
struct Nothing;

impl Location for Nothing {
    type Mark = ();

    ghost rows = { λ s m. [] };

    ghost whole = { λ s. [] };

    fn first(&self) {}

    fn here(&self, _m: ()) -> bool {
        false
    }

    fn row(&self, _m: ()) -> Option<Row> {
        None
    }

    fn byte(&self, _m: (), _i: usize) -> Option<u8> {
        None
    }

    fn next(&self, _m: ()) -> Option<()> {
        None
    }
}

// A row with no text, and then the rest. The mark of the row is `None`.
#[derive(Drop)]
struct Then<L> {
    line: Row,
    rest: L,
}

impl<L: Location> Location for Then<L> {
    type Mark = Option<L::Mark>;

    ghost rows = { λ s m. elim m [ None ↦ record { depth = s.line.depth; kind = s.line.kind; a = s.line.a; b = s.line.b; language = s.line.language; text = [] } ∷ L.Location.whole s.rest | Some n ↦ L.Location.rows s.rest n ] };

    ghost whole = { λ s. record { depth = s.line.depth; kind = s.line.kind; a = s.line.a; b = s.line.b; language = s.line.language; text = [] } ∷ L.Location.whole s.rest };

    fn first(&self) -> Option<L::Mark> {
        None
    }

    fn here(&self, m: Option<L::Mark>) -> bool {
        match m {
            None => true,
            Some(n) => self.rest.here(n),
        }
    }

    fn row(&self, m: Option<L::Mark>) -> Option<Row> {
        match m {
            None => Some(Row {
                length: 0,
                ..self.line
            }),
            Some(n) => self.rest.row(n),
        }
    }

    fn byte(&self, m: Option<L::Mark>, i: usize) -> Option<u8> {
        match m {
            None => None,
            Some(n) => self.rest.byte(n, i),
        }
    }

    fn next(&self, m: Option<L::Mark>) -> Option<Option<L::Mark>> {
        match m {
            None => Some(Some(self.rest.first())),
            Some(n) => Some(Some(self.rest.next(n)?)),
        }
    }
}

// The first row of a location.
fn head<L: Location>(location: &L) -> Option<Row>
    ensures { result ≡ head_row (L.whole location.now) }
{
    location.row(location.first())
}

// The first row under three layers.
fn head_of_three<L: Location>(location: &L, more: u8, language: u8, fewer: u8) -> Option<Row>
    ensures { result ≡ head_row (cut fewer (one_language language (cut more (L.whole location.now)))) }
{
    head(&Cut::new(OneLanguage::new(Cut::new(location, more), language), fewer))
}

// The places of a location's rows, as one number; of six rows at most.
fn places<L: Location>(location: &L) -> Option<i32> {
    let mut rows = rows_of(location);
    let mut all: i32 = 0;
    for row in rows.by_ref().take(6) {
        all = all.wrapping_mul(10).wrapping_add(row.a);
    }
    rows.next().is_none().then_some(all)
}

// A row at a depth, of a kind and in a language, with its place as a number, and then the rest.
fn ahead<L>(place: i32, depth: u8, kind: u8, language: u8, rest: L) -> Then<L> {
    let line = Row {
        depth,
        kind,
        a: place,
        b: 0,
        language,
        length: 0,
    };
    Then { line, rest }
}

// A named node that holds a node, which holds nodes of its own; and a node after it.
macro_rules! nodes {
    () => {{
        let after = ahead(6, 0, 1, 0, Nothing);
        let inner = ahead(4, 2, 1, 0, ahead(5, 3, 7, 0, after));
        ahead(1, 0, 1, 0, ahead(2, 1, 2, 5, ahead(3, 1, 7, 0, inner)))
    }};
}

#[test]
fn leaves_out_other_languages(rt: HostRuntime) -> Result<(), Fail> {
    let all = nodes!();
    assert_eq!(rt; places(&OneLanguage::new(&all, 5)), Some(123456));
    assert_eq!(rt; places(&OneLanguage::new(&all, 6)), Some(13456));
    Ok(())
}

#[test]
fn leaves_out_deep_levels(rt: HostRuntime) -> Result<(), Fail> {
    let all = nodes!();
    assert_eq!(rt; places(&Cut::new(&all, 0)), Some(126));
    assert_eq!(rt; places(&Cut::new(&all, 1)), Some(126));
    assert_eq!(rt; places(&Cut::new(&all, 2)), Some(12346));
    assert_eq!(rt; places(&Cut::new(&all, 3)), Some(123456));
    Ok(())
}

#[test]
fn piles_layers(rt: HostRuntime) -> Result<(), Fail> {
    let all = nodes!();
    let three = Cut::new(OneLanguage::new(Cut::new(&all, 2), 6), 1);
    assert_eq!(rt; places(&three), Some(16));
    Ok(())
}
