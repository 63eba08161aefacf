// Coding a TMCC block: TMCC bits and BCH bits, dispersed, with the parity behind them.
#![tactic(auto)]

ghost use Rattle.std.specs.Prelude.{◌≡◌, []};
ghost use Rattle.refusal.specs.Answers.{Answered, number};
ghost use Rattle.codeword.specs.Words.{plain};
ghost use Rattle.tmcc.specs.Blocks.{message_of, block_of};
ghost use Rattle.tmcc.specs.Calls.{code_number};
ghost use Rattle.tmcc_coder.specs.Needs.{Plain, Coding};

use refusal::Refusal;
use tmcc::{INPUT_BITS, MESSAGE_BITS, RUN_BITS, SOURCE_BITS, SOURCE_OCTETS};

// TMCC bits and BCH bits, which take the place of the last two bits of the octets.
fn put_plain(source: &[u8], run: &mut [u8])
    requires { Plain source.now run.old }
    ensures { run.new ≡ plain (message_of source.now) [] }
{
    bits::expand(source, &mut run[0..SOURCE_BITS]);
    let (message, check) = run.split_at_mut(MESSAGE_BITS);
    bch::of_bits(message, check);
}

// The block of the octets. The areas hold a block's bits and its parity input on the way.
fn put_block(
    table: &[u16],
    mask: u32,
    start: u32,
    source: &[u8],
    bits: &mut [u8],
    input: &mut [u8],
    block: &mut [u8],
)
    requires { Coding start table.now source.now bits.old input.old block.old }
    ensures { block.new ≡ block_of table.now mask start source.now }
{
    put_plain(source, &mut bits[0..RUN_BITS]);
    let _ = word_coder::put_word(tmcc::shape(), table, mask, start, bits, input, block);
}

// The refusal of a call that codes a block.
#[tactic(auto, using(refusal::specs::AnswerLaws::refused_not_0), unfolding(tmcc::specs::Calls::code_number))]
fn check_code(
    mask: u32,
    start: u32,
    table: &[u16],
    source: &[u8],
    block: &[u8],
) -> Result<(), Refusal>
    ensures { number result ≡ code_number mask start table.now source.now block.now }
{
    tmcc::check_lent(mask, start, table, source, block)?;
    if source[SOURCE_OCTETS - 1] % 4 == 0 {
        return Ok(());
    }
    Err(Refusal::Tail)
}

// Codes the 1,178 octets of a frame's TMCC bits into the 3,960 octets of its block; a refusal leaves the block as it was.
#[tactic(auto, using(refusal::specs::AnswerLaws::refused_by))]
pub fn code_block(
    mask: u32,
    start: u32,
    table: &[u16],
    source: &[u8],
    block: &mut [u8],
) -> Result<(), Refusal>
    ensures { Answered (code_number mask start table.now source.now block.old) (block_of table.now mask start source.now) block.old (number result) block.new }
{
    check_code(mask, start, table, source, block)?;
    let mut bits = [0u8; plan::BLOCK_BITS];
    let mut input = [0u8; INPUT_BITS];
    put_block(table, mask, start, source, &mut bits, &mut input, block);
    Ok(())
}
