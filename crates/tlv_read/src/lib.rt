// Reading TLV packets from the data octets of slots.
#![tactic(auto)]

mod calls;
mod slots;
mod steps;

pub use calls::read;
