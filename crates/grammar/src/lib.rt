// What a legal container is, what it tells, and how it is read: definitions in specs/, and the theorems that tie them together.
#![tactic(auto)]

ghost use Rattle.std.specs.Prelude.{◌≡◌};
ghost use Rattle.grammar.specs.Admits.{AdmitsStands};
ghost use Rattle.grammar.specs.Example.{Examples};
ghost use Rattle.grammar.specs.Flat.{FlatStands};
ghost use Rattle.grammar.specs.Choice.{StandsBy};
ghost use Rattle.grammar.specs.Sending.{SendingStands, StandsExactly, SizesStand, BestIsOne};
ghost use Rattle.grammar.specs.Theorems.{AcceptsExactly, SameByOffset, WalkTells};

mod fault;
mod table;

pub use fault::{ReadFault, Refusal, SendFault, SheetFault};
pub use table::{DESCRIPTIONS, Fields, Layout, Spot, TOP_WIDTH, layout_of, table_stands};

// Worked examples of the definitions.
pub fn examples_stand()
    ensures { Examples }
{}

// The reading accepts exactly the legal containers, and tells exactly their rows.
pub fn reading_stands()
    ensures { AcceptsExactly }
{}

// The reading by offset is the reading.
pub fn offsets_stand()
    ensures { SameByOffset }
{}

// The walk from mark to mark tells the rows that are read.
pub fn walk_stands()
    ensures { WalkTells }
{}

// Sending gives bytes exactly when some legal container tells the rows, and they are then the best.
pub fn sending_stands()
    ensures { SendingStands }
{}

// The best container of a list of rows is one.
pub fn best_is_one()
    ensures { BestIsOne }
{}

// A default stands exactly when a legal container with it tells the rows.
pub fn stands_exactly()
    ensures { StandsExactly }
{}

// The length under a default follows from the rows alone.
pub fn sizes_stand()
    ensures { SizesStand }
{}

// Row by row, the bytes of rows are those of their tree.
pub fn flat_stands()
    ensures { FlatStands }
{}

// Row by row it is decided whether rows have a tree.
pub fn admits_stands()
    ensures { AdmitsStands }
{}

// A default stands by what one look over the rows finds.
pub fn choice_stands()
    ensures { StandsBy }
{}
