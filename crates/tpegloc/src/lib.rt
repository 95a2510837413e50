// What others link: the check and the sending of containers and locations, and the calls for C.
#![tactic(auto)]

pub mod for_c;
mod pair;
mod trials;

pub use pair::{Agreement, agree};
pub use reader::{Container, check};
pub use sender::send;
pub use trials::trial;
