// Scripts: calls that are made on one sheet, one after the other.
#![tactic(auto)]

ghost use Rattle.runs.specs.Example.{Examples};

mod run;
mod script;
mod stage;

pub use run::{run_script, script_fits};
pub use script::{Answer, Call};

// Worked examples of what a sheet answers.
pub fn examples_stand()
    ensures { Examples }
{}
