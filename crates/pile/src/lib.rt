// A pile of layers that is chosen while a program runs: each place of it has the language layer, the cut layer or none.
#![tactic(auto)]

ghost use Rattle.std.specs.Prelude.{◌≡◌};
ghost use Rattle.pile.specs.Through.{left_by, Ordered, Piled};

use location::{Language, Levels, Location, Row, Rule};

// What a place of a pile has.
#[derive(Clone, Copy)]
pub enum Layer {
    // every row stays: a rule like the others, where a None would be a second thing that every user of a rule has to know
    All,
    // of the texts only those in this language stay
    Language(u8),
    // the cut layer at so many levels
    Cut(u8),
}

impl Rule for Layer {
    ghost leaves = { left_by };

    fn settle<L: Location>(&self, below: &L, m: &mut L::Mark) -> Option<Row> {
        match *self {
            Layer::All => below.row(*m),
            Layer::Language(language) => Language(language).settle(below, m),
            Layer::Cut(levels) => Levels(levels).settle(below, m),
        }
    }

    fn settled<L: Location>(&self, below: &L, m: &mut L::Mark) {
        match *self {
            Layer::All => {}
            Layer::Language(language) => Language(language).settled(below, m),
            Layer::Cut(levels) => Levels(levels).settled(below, m),
        }
    }
}

// A location with a layer on it, or with none.
pub type Layered<L> = location::Layered<L, Layer>;

// The layers of a pile of four places, the lowest first.
#[derive(Clone, Copy)]
pub struct Order {
    layers: [Layer; 4],
}

impl Order {
    // These layers, the lowest first; None where they are more than four.
    pub fn of(layers: &[Layer]) -> Option<Order>
        ensures { Ordered layers.now result }
    {
        if layers.len() > 4 {
            return None;
        }
        let mut places = [Layer::All; 4];
        places[..layers.len()].copy_from_slice(layers);
        Some(Order { layers: places })
    }
}

pub type Pile<L> = Layered<Layered<Layered<Layered<L>>>>;

// Puts the layers on a location.
pub fn pile_up<L>(below: L, order: Order) -> Pile<L>
    ensures { Piled below order result }
{
    let [first, second, third, fourth] = order.layers;
    let one = Layered::on(below, first);
    let two = Layered::on(one, second);
    let three = Layered::on(two, third);
    Layered::on(three, fourth)
}
