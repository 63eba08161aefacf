// Reading a slot.
#![tactic(auto)]

mod reader;
mod received;

pub use reader::read_slot;
