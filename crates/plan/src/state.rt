// The frame state: opening a frame, what every slot call tests, and passing a dummy.
ghost use Rattle.std.specs.Prelude.{◌≡◌, ◌≤◌};
ghost use Rattle.refusal.specs.Answers.{number};
ghost use Rattle.plan.specs.Places.{place_of};
ghost use Rattle.plan.specs.Records.{plan_in};
ghost use Rattle.plan.specs.States.{as_answer, zeros, moved_on, open_number, opened, sound_number, state_number, pass_number, passed};

use crate::groups::check_plan;
use crate::places::place_of;
use crate::{FrameState, Place, Plan, SLOT_WIDTH, plan_in, state_at};
use refusal::Refusal;

// The refusal of a plan or of a register's settings.
#[tactic(auto, using(refusal::specs::AnswerLaws::refused_not_0), unfolding(crate::specs::States::open_number))]
pub fn check_opening(plan: Plan, mask: u32, start: u32) -> Result<(), Refusal>
    ensures { number result ≡ open_number plan mask start }
{
    check_plan(plan)?;
    if !dispersal::settings_ok(SLOT_WIDTH, mask, start) {
        return Err(Refusal::Register);
    }
    Ok(())
}

// Opens a frame: the state at slot 1, or the refusal.
#[tactic(auto, using(refusal::specs::AnswerLaws::refused_not_0), unfolding(crate::specs::States::opened))]
pub fn open(plan: Plan, mask: u32, start: u32) -> Result<FrameState, Refusal>
    ensures { as_answer zeros result ≡ opened plan mask start }
{
    check_opening(plan, mask, start)?;
    Ok(state_at(plan, mask, start, 1, start))
}

// The refusal of a state for its plan or its register.
#[tactic(auto, using(refusal::specs::AnswerLaws::refused_not_0), unfolding(crate::specs::States::sound_number))]
fn check_sound(state: FrameState) -> Result<(), Refusal>
    ensures { number result ≡ sound_number state }
{
    if state.slot == 0 {
        return Err(Refusal::Plan);
    }
    check_plan(plan_in(state))?;
    let set = dispersal::settings_ok(SLOT_WIDTH, state.mask, state.start);
    if set && dispersal::register_ok(SLOT_WIDTH, state.register) {
        return Ok(());
    }
    Err(Refusal::Register)
}

// What every slot call tests of the state handed in.
#[tactic(auto, using(refusal::specs::AnswerLaws::refused_not_0), unfolding(crate::specs::States::state_number))]
pub fn check_state(state: FrameState) -> Result<(), Refusal>
    ensures { number result ≡ state_number state }
{
    check_sound(state)?;
    if state.slot <= 120 {
        return Ok(());
    }
    Err(Refusal::Full)
}

// The state one slot on, with a register.
pub fn advanced(state: FrameState, register: u32) -> FrameState
    requires { state.slot ≤ 120 }
    ensures { result ≡ moved_on state register }
{
    state_at(
        plan_in(state),
        state.mask,
        state.start,
        state.slot + 1,
        register,
    )
}

// The place of a state's next slot.
pub fn next_place(state: FrameState) -> Place
    requires { state_number state ≡ 0 }
    ensures { result ≡ place_of (plan_in state) state.slot }
{
    place_of(plan_in(state), usize::from(state.slot))
}

#[tactic(auto, using(refusal::specs::AnswerLaws::refused_not_0), unfolding(crate::specs::States::pass_number, crate::specs::Places::place_of))]
fn check_pass(state: FrameState) -> Result<(), Refusal>
    ensures { number result ≡ pass_number state }
{
    check_state(state)?;
    if next_place(state).carries {
        return Err(Refusal::Dummy);
    }
    Ok(())
}

// Passes a dummy: the state one slot on, its register where it was, or the refusal.
#[tactic(auto, using(refusal::specs::AnswerLaws::refused_not_0), unfolding(crate::specs::States::passed))]
pub fn pass(state: FrameState) -> Result<FrameState, Refusal>
    ensures { as_answer state result ≡ passed state }
{
    check_pass(state)?;
    Ok(advanced(state, state.register))
}
