// TS packets of 188 octets and the data octets of a slot, both ways.
#![tactic(auto)]

mod calls;
mod carry;

pub use calls::{pack, unpack};
