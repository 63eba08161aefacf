// The sizes of a codeword's parts.
ghost use Rattle.std.specs.Prelude.{◌≡◌};
ghost use Rattle.codeword.specs.Words.{run_bits};
ghost use Rattle.codeword.specs.Needs.{Fits};

use crate::Shape;

// The bits before the parity: message, BCH bits and tail.
pub fn run_bits(shape: Shape) -> usize
    requires { Fits shape }
    ensures { result ≡ run_bits shape }
{
    shape.message + (192 + shape.tail)
}
