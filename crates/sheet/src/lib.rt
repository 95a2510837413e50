// A sheet: rows that lie in one borrowed buffer, as a draft that takes calls or as a fair copy that is a location.
#![tactic(auto)]

mod draft;
mod fair;
mod judge;
mod kept;
mod measure;
mod opened;
mod part;
mod place;
mod record;
mod store;

pub use kept::{Draft, Fair};
pub use place::Place;
