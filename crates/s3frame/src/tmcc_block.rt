// Calls on a TMCC block.
ghost use Rattle.std.specs.Prelude.{◌≡◌};
ghost use Rattle.refusal.specs.Answers.{Answered};
ghost use Rattle.tmcc.specs.Blocks.{block_of, source_of};
ghost use Rattle.tmcc.specs.Calls.{code_number, read_number, read_answer};

use codeword::WordAnswer;

#[unsafe(no_mangle)]
pub extern "C" fn s3_code_tmcc(
    mask: u32,
    start: u32,
    table: &[u16],
    source: &[u8],
    block: &mut [u8],
) -> u8
    ensures { Answered (code_number mask start table.now source.now block.old) (block_of table.now mask start source.now) block.old result block.new }
{
    refusal::number(tmcc_coder::code_block(mask, start, table, source, block))
}

#[unsafe(no_mangle)]
pub extern "C" fn s3_read_tmcc(
    mask: u32,
    start: u32,
    table: &[u16],
    block: &[u8],
    source: &mut [u8],
) -> WordAnswer
    ensures value { result ≡ read_answer mask start table.now block.now source.old }
    ensures answered { Answered (read_number mask start table.now block.now source.old) (source_of mask start block.now) source.old result.number source.new }
{
    WordAnswer::from(tmcc_reader::read_block(mask, start, table, block, source))
}
