// What coding and reading a whole frame share: the number of a whole-frame call, where the groups' tables lie, and how many
// header and data octets a slot has.
#![tactic(auto)]

mod calls;
mod sources;
mod tables;

pub use calls::check_frame;
pub use sources::{slot_octets, source_length};
pub use tables::table_of;

// The slots of a frame.
pub const SLOTS: usize = 120;
