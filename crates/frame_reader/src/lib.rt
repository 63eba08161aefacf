// Reading a whole frame, slot by slot.
#![tactic(auto)]

mod read;

pub use read::read_frame;
