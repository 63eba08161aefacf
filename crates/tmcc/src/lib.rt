// TMCC blocks: their sizes, and what coding and reading them test alike.
#![tactic(auto)]

ghost use Rattle.std.specs.Prelude.{◌≡◌};
ghost use Rattle.tmcc.specs.Blocks.{block_shape};

mod calls;

pub use calls::check_lent;
use codeword::Shape;

// The rows of the parity table, those of rate 3.
const ROWS: usize = 61;

// The octets that hold the TMCC bits, the bits that they have room for, and the TMCC bits.
pub const SOURCE_OCTETS: usize = 1178;

pub const SOURCE_BITS: usize = 9424;

pub const MESSAGE_BITS: usize = 9422;

// TMCC and BCH bits.
pub const RUN_BITS: usize = 9614;

// The parity input, and the parity positions.
pub const INPUT_BITS: usize = 22814;

pub const POSITIONS: usize = 22066;

// The codeword that a block is: no tail, and zeros before and behind it in the parity input.
pub fn shape() -> Shape
    ensures { result ≡ block_shape }
{
    Shape {
        width: plan::BLOCK_WIDTH,
        rows: ROWS,
        message: MESSAGE_BITS,
        tail: 0,
        before: 1870,
        behind: 11330,
        octets: plan::BLOCK_OCTETS,
    }
}
