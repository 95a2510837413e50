// Reads containers: a check that names the first fault, what stands at a place of one, and the container on the air as a location.
#![tactic(auto)]

mod air;
mod checks;
mod edge;
mod marks;
mod parts;
mod sights;
mod standings;

pub use air::Container;
pub use checks::check;
pub use marks::Mark;
pub use standings::{Component, Standing, find_descriptions, language_in, look_at};
