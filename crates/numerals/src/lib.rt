// Numbers as text: digits, the number that a run of them makes, and the number that a word says.
#![tactic(auto)]

mod digits;
mod words;

pub use digits::{digit, value};
pub use words::number;
