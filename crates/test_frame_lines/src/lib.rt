// The lines of one whole frame with the published tables: coded, read back, and read with a few bits damaged.
#![tactic(auto)]

mod frames;
mod lines;

pub use frames::of_plan;
