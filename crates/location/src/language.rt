// A layer that leaves out the texts in other languages.
ghost use Rattle.std.specs.Prelude.{◌≡◌};
ghost use Rattle.location.specs.Layers.{spoken_in, one_language};

use super::{Layered, Location, Row, Rule};
use grammar::layout_of;

// The language whose texts stay.
#[derive(Clone, Copy)]
pub struct Language(pub u8);

pub type OneLanguage<L> = Layered<L, Language>;

impl<L> Layered<L, Language> {
    pub fn new(below: L, language: u8) -> OneLanguage<L>
        ensures below { result.below ≡ below }
        ensures language { result.rule.0 ≡ language }
    {
        Layered::on(below, Language(language))
    }
}

impl Language {
    fn keeps(self, row: Row) -> bool
        ensures { result ≡ spoken_in self.0 row.kind row.language }
    {
        !layout_of(row.kind).is_text() || row.language == self.0
    }
}

impl Rule for Language {
    ghost leaves = { λ s. one_language s.0 };

    fn settle<L: Location>(&self, below: &L, m: &mut L::Mark) -> Option<Row> {
        // Stepped by hand: past a row that stays, an iterator would ask for the next mark, and each layer below would pay for it again.
        while let Some(row) = below.row(*m) {
            if self.keeps(row) {
                return Some(row);
            }
            let Some(next) = below.next(*m) else { break };
            *m = next;
        }
        None
    }
}
