// What coding and reading a slot share: the number of a slot call, and the sizes at its place.
#![tactic(auto)]

mod answers;
mod calls;
mod sizes;

pub use calls::{check_slot, rows_at};
use plan::FrameState;
use refusal::Refusal;
pub use sizes::{message_bits, shape, source_octets};

// What stands for the stuff bits of a slot that is not read.
pub const NO_STUFF: u8 = 255;

// What reading a slot answers: the state after it, and the slot's stuff bits as a number, or why it is refused.
#[derive(Clone, Copy)]
pub struct SlotReading {
    pub state: FrameState,
    pub stuff: Result<u8, Refusal>,
}

// The same for C, where a Result does not cross: its number, 0 or the refusal's, the state, the stuff bits, and with the refusal of
// its parity the lowest failing parity position.
#[repr(C)]
#[derive(Clone, Copy)]
pub struct SlotRead {
    pub number: u8,
    pub state: FrameState,
    pub stuff: u8,
    pub position: u16,
}
