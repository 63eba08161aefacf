// Reading a TMCC block.
#![tactic(auto)]

ghost use Rattle.std.specs.Prelude.{◌≡◌};
ghost use Rattle.refusal.specs.Answers.{Answered, number};
ghost use Rattle.codeword.specs.Reading.{as_word_answer, message_in, wrong_position, word_answer, word_number};
ghost use Rattle.tmcc.specs.Blocks.{block_shape, tailed, source_of};
ghost use Rattle.tmcc.specs.Calls.{read_number, read_answer};
ghost use Rattle.tmcc_reader.specs.Needs.{Taken, Readable};

use refusal::Refusal;
use tmcc::{INPUT_BITS, MESSAGE_BITS, POSITIONS, RUN_BITS, SOURCE_BITS};

// The octets of the TMCC bits that stand at the head of a run, their last two bits zeros.
fn put_source(run: &mut [u8], source: &mut [u8])
    requires { Taken run.old source.old }
    ensures { source.new ≡ tailed (message_in block_shape run.old) }
{
    run[MESSAGE_BITS..SOURCE_BITS].fill(0);
    bits::collect(&run[0..SOURCE_BITS], source);
}

// A block read by way of lent areas, which are arrays of the caller's, as there is no heap: its octets where nothing refuses it.
fn read(
    table: &[u16],
    mask: u32,
    start: u32,
    block: &[u8],
    bits: &mut [u8],
    input: &mut [u8],
    sums: &mut [u8],
    source: &mut [u8],
) -> Result<(), Refusal>
    requires { Readable start table.now block.now bits.old input.old sums.old source.old }
    ensures value { as_word_answer result ≡ word_answer (word_number block_shape table.now mask start block.now) (wrong_position block_shape table.now block.now) }
    ensures answered { Answered (word_number block_shape table.now mask start block.now) (source_of mask start block.now) source.old (number result) source.new }
{
    let word = word_reader::read_word(tmcc::shape(), table, mask, start, block, bits, input, sums);
    word.checked?;
    put_source(&mut bits[0..RUN_BITS], source);
    Ok(())
}

// Reads a block: the 1,178 octets of its TMCC bits; a refusal leaves them as they were.
#[tactic(auto, using(tmcc::proofs::CallLaws::lent_answer))]
pub fn read_block(
    mask: u32,
    start: u32,
    table: &[u16],
    block: &[u8],
    source: &mut [u8],
) -> Result<(), Refusal>
    ensures value { as_word_answer result ≡ read_answer mask start table.now block.now source.old }
    ensures answered { Answered (read_number mask start table.now block.now source.old) (source_of mask start block.now) source.old (number result) source.new }
{
    tmcc::check_lent(mask, start, table, source, block)?;
    let mut bits = [0u8; plan::BLOCK_BITS];
    let mut input = [0u8; INPUT_BITS];
    let mut sums = [0u8; POSITIONS];
    read(
        table, mask, start, block, &mut bits, &mut input, &mut sums, source,
    )
}
