// What a slot call tests before any work on the slot: the state, the place, the lent areas and the table, in document 01's order.
ghost use Rattle.std.specs.Prelude.{◌≡◌, IfOk};
ghost use Rattle.refusal.specs.Answers.{number};
ghost use Rattle.plan.specs.States.{state_number};
ghost use Rattle.slot.specs.Calls.{rows_at, data_number, slot_number};

use crate::sizes::{shape, source_octets};
use plan::FrameState;
use refusal::Refusal;

// The rows of the parity table at the place of a state's next slot.
#[tactic(auto, unfolding(crate::specs::Calls::rows_at, plan::specs::Places::place_of))]
pub fn rows_at(state: FrameState) -> usize
    requires { state_number state ≡ 0 }
    ensures { result ≡ rows_at state }
{
    let place = plan::next_place(state);
    plan::rows(place.rate)
}

// The same for a data call, or its refusal there.
#[tactic(auto, using(refusal::specs::AnswerLaws::refused_not_0), unfolding(crate::specs::Calls::data_number, plan::specs::Places::place_of))]
fn data_rows(state: FrameState) -> Result<usize, Refusal>
    ensures refused { number result ≡ data_number state }
    ensures rows { IfOk result (λ rows. rows ≡ rows_at state) }
{
    plan::check_state(state)?;
    let place = plan::next_place(state);
    if !place.carries {
        return Err(Refusal::Dummy);
    }
    Ok(rows_at(state))
}

// The rows of the parity table at the place of a state's next slot, where nothing refuses a call there.
#[tactic(auto, using(refusal::specs::AnswerLaws::refused_not_0), unfolding(crate::specs::Calls::slot_number))]
pub fn check_slot(
    state: FrameState,
    table: &[u16],
    source: &[u8],
    coded: &[u8],
) -> Result<usize, Refusal>
    ensures refused { number result ≡ slot_number state table.now source.now coded.now }
    ensures rows { IfOk result (λ rows. rows ≡ rows_at state) }
{
    let rows = data_rows(state)?;
    codeword::check_lent(shape(rows), source_octets(rows), table, source, coded)?;
    Ok(rows)
}
