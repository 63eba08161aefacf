// What a caller asks of a plan before it lends areas: where a slot lies, how many header and data octets a whole frame has,
// and the published parity tables of its groups.
#![tactic(auto)]

mod places;
mod sources;
mod tables;

pub use places::place;
use plan::Place;
pub use sources::source_octets;
pub use tables::{copy_tables, tables_entries};

// What is told C of a slot, where a Result does not cross: the number, 0 or the refusal's, and its place.
#[repr(C)]
#[derive(Clone, Copy)]
pub struct Placed {
    pub number: u8,
    pub place: Place,
}
