// Coding a whole frame, slot by slot.
#![tactic(auto)]

mod code;

pub use code::code_frame;
