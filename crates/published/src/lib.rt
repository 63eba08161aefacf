// The eleven published parity tables, the call that copies one into a lent area, and their lengths.
#![tactic(auto)]

mod copies;
mod data;

pub use copies::{copy_table, table_length};
