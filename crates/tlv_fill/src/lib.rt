// Filling the data octets of slots with TLV packets.
#![tactic(auto)]

mod begins;
mod calls;
mod octets;
mod packets;

pub use calls::fill;
