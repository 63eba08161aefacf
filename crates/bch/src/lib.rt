// The 192 BCH bits of a message, eight bits at a time.
#![tactic(auto)]

mod division;
mod message;
mod table;

pub use message::{of_bits, of_octets, right};
