// Coding a slot at a frame's state.
ghost use Rattle.std.specs.Prelude.{◌≡◌};
ghost use Rattle.plan.specs.States.{as_answer};
ghost use Rattle.slot.specs.Calls.{code_answer, code_area};

use crate::stages::put_slot;
use plan::FrameState;
use refusal::Refusal;

// Codes header and data octets into the 5,610 octets of the state's next slot: the state one slot on, or the refusal and the area
// as it was.
#[tactic(auto, using(refusal::specs::AnswerLaws::refused_not_0), unfolding(slot::specs::Calls::code_answer, slot::specs::Calls::code_area))]
pub fn code_slot(
    state: FrameState,
    table: &[u16],
    source: &[u8],
    coded: &mut [u8],
) -> Result<FrameState, Refusal>
    ensures value { as_answer state result ≡ code_answer state table.now source.now coded.old }
    ensures coded_after { coded.new ≡ code_area state table.now source.now coded.old }
{
    let rows = slot::check_slot(state, table, source, coded)?;
    let mut bits = [0u8; plan::SLOT_BITS];
    let mut input = [0u8; plan::SLOT_BITS];
    let register = put_slot(
        rows,
        table,
        state.mask,
        state.register,
        source,
        &mut bits,
        &mut input,
        coded,
    );
    Ok(plan::advanced(state, register))
}
