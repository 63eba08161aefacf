// Calls on one slot.
ghost use Rattle.std.specs.Prelude.{◌≡◌};
ghost use Rattle.slot.specs.Calls.{code_answer, code_area, read_answer, read_area, check_answer};

use codeword::WordAnswer;
use plan::{Answer, FrameState};
use slot::SlotRead;

#[unsafe(no_mangle)]
pub extern "C" fn s3_code_slot(
    state: FrameState,
    table: &[u16],
    source: &[u8],
    coded: &mut [u8],
) -> Answer
    ensures value { result ≡ code_answer state table.now source.now coded.old }
    ensures coded_after { coded.new ≡ code_area state table.now source.now coded.old }
{
    Answer::new(slot_coder::code_slot(state, table, source, coded), state)
}

#[unsafe(no_mangle)]
pub extern "C" fn s3_read_slot(
    state: FrameState,
    table: &[u16],
    coded: &[u8],
    source: &mut [u8],
) -> SlotRead
    ensures value { result ≡ read_answer state table.now coded.now source.old }
    ensures source_after { source.new ≡ read_area state table.now coded.now source.old }
{
    SlotRead::from(slot_reader::read_slot(state, table, coded, source))
}

#[unsafe(no_mangle)]
pub extern "C" fn s3_check_parity(rate: u32, table: &[u16], coded: &[u8]) -> WordAnswer
    ensures { result ≡ check_answer rate table.now coded.now }
{
    WordAnswer::from(slot_check::check_parity(rate, table, coded))
}
