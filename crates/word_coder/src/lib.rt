// Coding a word, once its message, BCH bits and tail stand at the head of its bits.
#![tactic(auto)]

ghost use Rattle.std.specs.Prelude.{◌≡◌, take};
ghost use Rattle.bits.specs.Octets.{octets_of};
ghost use Rattle.dispersal.specs.Dispersal.{dispersed};
ghost use Rattle.codeword.specs.Words.{run_bits, with_parity, register_after};
ghost use Rattle.codeword.specs.Needs.{Room, Coding};

use codeword::Shape;

// The parity of the bits that stand before it, put behind them.
fn put_parity(shape: Shape, table: &[u16], bits: &mut [u8], input: &mut [u8])
    requires { Room shape table.now bits.old input.old }
    ensures { bits.new ≡ with_parity shape table.now (take (run_bits shape) bits.old) }
{
    let (run, parity) = bits.split_at_mut(codeword::run_bits(shape));
    codeword::put_input(shape, run, input);
    ldpc::parity(shape.rows, table, input, parity);
}

// The octets of the word; the register after it. The areas hold the word's bits and its parity input.
pub fn put_word(
    shape: Shape,
    table: &[u16],
    mask: u32,
    register: u32,
    bits: &mut [u8],
    input: &mut [u8],
    coded: &mut [u8],
) -> u32
    requires { Coding shape register table.now bits.old input.old coded.old }
    ensures value { result ≡ register_after shape mask register }
    ensures coded_after { coded.new ≡ octets_of shape.octets (with_parity shape table.now (dispersed shape.width mask register (take (run_bits shape) bits.old))) }
{
    let run = codeword::run_bits(shape);
    let next = dispersal::disperse(shape.width, mask, register, &mut bits[0..run]);
    put_parity(shape, table, bits, input);
    bits::collect(bits, coded);
    next
}
