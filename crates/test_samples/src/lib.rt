// What the programs that try slots and frames share: plans and their published tables, octets to code, and a digest.
#![tactic(auto)]

mod octets;
mod plans;
mod rates;
mod tables;

pub use octets::{digest, fill};
pub use plans::{numbered_plan, plan_octets};
pub use rates::{MASK, START, opened, plan_of, source_length};
pub use tables::put_tables;
