// The slots of a frame, coded one behind the other into one area.
ghost use Rattle.std.specs.Prelude.{◌≡◌, length};
ghost use Rattle.refusal.specs.Answers.{Answered, number};
ghost use Rattle.frame.specs.Steps.{coded_at, state_after};
ghost use Rattle.frame.specs.Frames.{frame_of, frame_number};
ghost use Rattle.frame.specs.Needs.{Framed};
ghost use Rattle.frame_coder.specs.Needs.{Coding};

use plan::{FrameState, Plan};
use refusal::Refusal;

// Codes the state's next slot, or passes it where it is a dummy; the state after it. Neither is refused in a frame's own slots.
// Tables and ends stand apart, since what ties them speaks of the plan too.
fn code_place(
    state: FrameState,
    tables: &[u16],
    ends: &[usize; 9],
    source: &[u8],
    coded: &mut [u8],
) -> FrameState
    requires { Coding state tables.now ends.now source.now coded.old }
    ensures value { result ≡ state_after state }
    ensures coded_after { coded.new ≡ coded_at state tables.now source.now coded.old }
{
    let place = plan::next_place(state);
    if place.carries {
        let table = frame::table_of(tables, ends, place.group);
        return slot_coder::code_slot(state, table, source, coded).unwrap();
    }
    plan::pass(state).unwrap()
}

// Codes every slot of a frame into its part of the area, from the header and data octets that follow each other. Parts are cut
// by index: of chunks_exact_mut a proof knows the length alone.
fn code_slots(
    plan: Plan,
    mask: u32,
    start: u32,
    tables: &[u16],
    ends: &[usize; 9],
    source: &[u8],
    frame: &mut [u8],
)
    requires { Framed plan mask start tables.now ends.now source.now frame.old }
    ensures { frame.new ≡ frame_of plan tables.now mask start source.now frame.old }
{
    let mut state = plan::open(plan, mask, start).unwrap();
    let mut from: usize = 0;
    for k in 0..frame::SLOTS {
        let next = k + 1;
        let at = plan::SLOT_OCTETS * k;
        let end = plan::SLOT_OCTETS * next;
        let to = from + frame::slot_octets(plan, next);
        state = code_place(state, tables, ends, &source[from..to], &mut frame[at..end]);
        from = to;
    }
}

// Codes a whole frame from plan, settings, the groups' tables and all header and data octets; the dummies' parts are left
// as found, and so is the whole area by a refusal.
#[tactic(auto, using(refusal::specs::AnswerLaws::refused_by), unfolding(frame::specs::Frames::frame_number))]
pub fn code_frame(
    plan: Plan,
    mask: u32,
    start: u32,
    tables: &[u16],
    source: &[u8],
    frame: &mut [u8],
) -> Result<(), Refusal>
    ensures { Answered (frame_number plan mask start tables.now (length source.now) (length frame.old)) (frame_of plan tables.now mask start source.now frame.old) frame.old (number result) frame.new }
{
    let octets = source.len();
    let area = frame.len();
    // Coding is lent no area that has an entry for each slot, so none of a wrong length.
    let ends = frame::check_frame(plan, mask, start, tables, octets, area, true)?;
    code_slots(plan, mask, start, tables, &ends, source, frame);
    Ok(())
}
