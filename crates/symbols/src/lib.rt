// Labels of the symbols of slots and TMCC blocks, both ways.
#![tactic(auto)]

mod calls;
mod numbers;
mod places;
mod runs;

pub use calls::{block_of_labels, labels_of_block, labels_of_slot, slot_of_labels};
pub use numbers::check_label;
