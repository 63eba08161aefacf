// A codeword: what a slot and a TMCC block are, at other sizes. A message, its BCH bits and tail bits, dispersed, and
// behind them the parity of these bits with zeros before and behind them.
#![tactic(auto)]

mod answers;
mod calls;
mod input;
mod sizes;

pub use answers::position_of;
pub use calls::check_lent;
pub use input::put_input;
pub use sizes::run_bits;

// The sizes of a codeword: the width of the dispersal register, the rows of the parity table, the bits of the message
// and of the tail, the zeros before and behind them in the parity input, and the octets of the whole. Whoever takes one asks
// that its sizes add up (`Fits`), since anybody can fill one in.
#[derive(Clone, Copy)]
pub struct Shape {
    pub width: u32,
    pub rows: usize,
    pub message: usize,
    pub tail: usize,
    pub before: usize,
    pub behind: usize,
    pub octets: usize,
}

// What stands for the failing position where the parity is not what is refused.
pub const NO_POSITION: u16 = 65535;

// What a call on a received word answers C: its number, 0 or the refusal's, and with that of its parity the lowest failing
// parity position.
#[repr(C)]
#[derive(Clone, Copy)]
pub struct WordAnswer {
    pub number: u8,
    pub position: u16,
}
