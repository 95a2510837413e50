// A layer that leaves out nodes past a number of levels.
ghost use Rattle.std.specs.Prelude.{◌≡◌};
ghost use Rattle.location.specs.Layers.{past_levels, inside_of, cut, CutRule};

use super::{Layered, Location, Row, Rule};
use grammar::layout_of;

// The levels of nodes that stay.
#[derive(Clone, Copy)]
pub struct Levels(pub u8);

pub type Cut<L> = Layered<L, Levels>;

impl<L> Layered<L, Levels> {
    pub fn new(below: L, levels: u8) -> Cut<L>
        ensures below { result.below ≡ below }
        ensures levels { result.rule.0 ≡ levels }
    {
        Layered::on(below, Levels(levels))
    }
}

impl Levels {
    // A level is two rows deep: a node, and in it the row that holds the nodes of the next.
    fn is_past(self, row: Row) -> bool
        ensures { result ≡ past_levels self.0 row.kind row.depth }
    {
        layout_of(row.kind).counts_nodes() && u16::from(row.depth) + 1 >= 2 * u16::from(self.0)
    }
}

fn is_inside(out: Option<u8>, depth: u8) -> bool
    ensures { result ≡ inside_of out depth }
{
    out.is_some_and(|top| depth > top)
}

impl Rule for Levels {
    ghost leaves = { λ s. cut s.0 };

    fn settle<L: Location>(&self, below: &L, m: &mut L::Mark) -> Option<Row> {
        let mut out = None;
        // Stepped by hand: past a row that stays, an iterator would ask for the next mark, and each layer below would pay for it again.
        while let Some(row) = below.row(*m) {
            if !is_inside(out, row.depth) {
                if !self.is_past(row) {
                    return Some(row);
                }
                out = Some(row.depth);
            }
            let Some(next) = below.next(*m) else { break };
            *m = next;
        }
        None
    }
}

// The rule of the cut: a row that stays stands before the cut of the rest, and one left out goes with all that is deeper after it.
pub fn cut_stands()
    ensures { CutRule }
{}
