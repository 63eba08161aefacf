// Reading a received word: its parity, its dispersal, its BCH bits.
#![tactic(auto)]

ghost use Rattle.std.specs.Prelude.{◌≡◌, ◌<◌};
ghost use Rattle.refusal.specs.Answers.{number};
ghost use Rattle.bits.specs.Octets.{bits_of};
ghost use Rattle.codeword.specs.Reading.{as_word_answer, position, wrong_position, parity_number, checks_number, word_answer};
ghost use Rattle.codeword.specs.Needs.{Checked, Fits, Received, Run, ReadOf};

use codeword::Shape;
use refusal::Refusal;

// A received word, read: the refusal of its parity or BCH bits, and the register after the word.
#[derive(Clone, Copy)]
pub struct WordRead {
    pub checked: Result<(), Refusal>,
    pub register: u32,
}

// The lowest position at which the parity of a received word is wrong, or M where there is none. Its bits are left in
// their area.
pub fn wrong_position(
    shape: Shape,
    table: &[u16],
    coded: &[u8],
    bits: &mut [u8],
    input: &mut [u8],
    sums: &mut [u8],
) -> usize
    requires { Checked shape table.now coded.now bits.old input.old sums.old }
    ensures value { result ≡ wrong_position shape table.now coded.now }
    ensures bits_after { bits.new ≡ bits_of coded.now }
{
    let run = codeword::run_bits(shape);
    bits::expand(coded, bits);
    codeword::put_input(shape, &bits[0..run], input);
    parity_check::lowest_wrong(shape.rows, table, input, &bits[run..], sums)
}

// The refusal of a parity whose lowest wrong position this is. Every position of a parity fits a u16.
#[tactic(auto, unfolding(codeword::specs::Reading::parity_number))]
pub fn check_parity(shape: Shape, wrong: usize) -> Result<(), Refusal>
    requires { Fits shape }
    ensures number { number result ≡ parity_number shape wrong }
    ensures position { wrong < 65536 → as_word_answer result ≡ word_answer (parity_number shape wrong) wrong }
{
    if wrong == 374 * (120 - shape.rows) {
        return Ok(());
    }
    Err(Refusal::Parity(wrong.min(65535) as u16))
}

// The refusal of parity or BCH bits, in this order.
#[tactic(auto, using(refusal::specs::AnswerLaws::refused_not_0), unfolding(codeword::specs::Reading::checks_number, codeword::specs::Reading::bch_right))]
fn check_word(shape: Shape, wrong: usize, run: &[u8]) -> Result<(), Refusal>
    requires run { Run shape run.now }
    requires few { wrong < 65536 }
    ensures { as_word_answer result ≡ word_answer (checks_number shape wrong run.now) wrong }
{
    check_parity(shape, wrong)?;
    let message = shape.message;
    let tail = message + 192;
    if !bch::right(&run[..message], &run[message..tail]) {
        return Err(Refusal::Bch);
    }
    Ok(())
}

// Reads a word: message, BCH bits and tail are left at the head of the bits' area. The parity is checked as received.
// Whatever that shows, dispersal is then taken off the bits before it, so that the register steps on over a damaged
// word as over a good one.
pub fn read_word(
    shape: Shape,
    table: &[u16],
    mask: u32,
    register: u32,
    coded: &[u8],
    bits: &mut [u8],
    input: &mut [u8],
    sums: &mut [u8],
) -> WordRead
    requires { Received shape register table.now coded.now bits.old input.old sums.old }
    ensures { ReadOf shape table.now mask register coded.now (number result.checked) (position result.checked) result.register bits.new }
{
    let run = codeword::run_bits(shape);
    let wrong = wrong_position(shape, table, coded, bits, input, sums);
    let next = dispersal::disperse(shape.width, mask, register, &mut bits[0..run]);
    WordRead {
        checked: check_word(shape, wrong, &bits[0..run]),
        register: next,
    }
}
