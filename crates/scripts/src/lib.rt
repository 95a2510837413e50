// The calls of a script with bytes of their own, and the text that says what they are answered.
#![tactic(auto)]

mod answered;
mod asked;
mod played;

pub use answered::answer_line;
pub use asked::Asked;
pub use played::play_script;
