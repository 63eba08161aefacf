// The slots of a frame, read one behind the other from one area.
ghost use Rattle.std.specs.Prelude.{◌≡◌, ◌&&◌, eqb, length};
ghost use Rattle.lists.specs.Choice.{pick};
ghost use Rattle.refusal.specs.Answers.{number};
ghost use Rattle.frame.specs.Steps.{answer_at, stuff_at, position_at, read_at, state_after};
ghost use Rattle.frame.specs.Frames.{answers_of, stuffs_of, positions_of, sources_of, read_frame_number};
ghost use Rattle.frame_reader.specs.Needs.{Reading, Answering};

use plan::{FrameState, Plan};
use refusal::Refusal;
use slot::{SlotRead, SlotReading};

// Reads the state's next slot, or passes it where it is a dummy: its answer, the state after it, its stuff bits, and its failing
// position. Tables and ends stand apart, since what ties them speaks of the plan too.
fn read_place(
    state: FrameState,
    tables: &[u16],
    ends: &[usize; 9],
    received: &[u8],
    source: &mut [u8],
) -> SlotRead
    requires { Reading state tables.now ends.now received.now source.old }
    ensures number_value { (result.number ≡ answer_at state tables.now received.now) × (result.state ≡ state_after state) × (result.stuff ≡ stuff_at state tables.now received.now) × (result.position ≡ position_at state tables.now received.now) }
    ensures source_after { source.new ≡ read_at state tables.now received.now source.old }
{
    let place = plan::next_place(state);
    if place.carries {
        let table = frame::table_of(tables, ends, place.group);
        return SlotRead::from(slot_reader::read_slot(state, table, received, source));
    }
    SlotRead::from(SlotReading {
        state: plan::pass(state).unwrap(),
        stuff: Err(Refusal::Dummy),
    })
}

// Reads every slot of a frame from its part of the area; header and data octets follow each other. k is the index of four areas.
fn read_slots(
    plan: Plan,
    mask: u32,
    start: u32,
    tables: &[u16],
    ends: &[usize; 9],
    frame: &[u8],
    source: &mut [u8],
    answers: &mut [u8],
    stuff: &mut [u8],
    positions: &mut [u16],
)
    requires { Answering plan mask start tables.now ends.now source.old frame.now answers.old stuff.old positions.old }
    ensures source_after { source.new ≡ sources_of plan tables.now mask start frame.now source.old }
    ensures answers_after { answers.new ≡ answers_of plan tables.now mask start frame.now }
    ensures stuff_after { stuff.new ≡ stuffs_of plan tables.now mask start frame.now }
    ensures positions_after { positions.new ≡ positions_of plan tables.now mask start frame.now }
{
    let mut state = plan::open(plan, mask, start).unwrap();
    let mut from: usize = 0;
    for k in 0..frame::SLOTS {
        let next = k + 1;
        let at = plan::SLOT_OCTETS * k;
        let end = plan::SLOT_OCTETS * next;
        let to = from + frame::slot_octets(plan, next);
        let read = read_place(state, tables, ends, &frame[at..end], &mut source[from..to]);
        answers[k] = read.number;
        stuff[k] = read.stuff;
        positions[k] = read.position;
        state = read.state;
        from = to;
    }
}

// Whether the areas that have an entry for each slot have their length.
fn each_slot(answers: usize, stuff: usize, positions: usize) -> bool
    ensures { result ≡ (eqb answers 120 && eqb stuff 120 && eqb positions 120) }
{
    answers == frame::SLOTS && stuff == frame::SLOTS && positions == frame::SLOTS
}

// Reads a whole frame: all header and data octets, and for each slot an answer octet, one with its stuff bits, and its failing
// position. What is read badly leaves its header and data places as found; a refusal leaves all areas as found.
#[tactic(auto, using(refusal::specs::AnswerLaws::refused_not_0), unfolding(frame::specs::Frames::read_frame_number))]
pub fn read_frame(
    plan: Plan,
    mask: u32,
    start: u32,
    tables: &[u16],
    frame: &[u8],
    source: &mut [u8],
    answers: &mut [u8],
    stuff: &mut [u8],
    positions: &mut [u16],
) -> Result<(), Refusal>
    ensures value { number result ≡ read_frame_number plan mask start tables.now (length source.old) (length frame.now) (length answers.old) (length stuff.old) (length positions.old) }
    ensures source_after { source.new ≡ pick (eqb (number result) 0) (sources_of plan tables.now mask start frame.now source.old) source.old }
    ensures answers_after { answers.new ≡ pick (eqb (number result) 0) (answers_of plan tables.now mask start frame.now) answers.old }
    ensures stuff_after { stuff.new ≡ pick (eqb (number result) 0) (stuffs_of plan tables.now mask start frame.now) stuff.old }
    ensures positions_after { positions.new ≡ pick (eqb (number result) 0) (positions_of plan tables.now mask start frame.now) positions.old }
{
    let octets = source.len();
    let each = each_slot(answers.len(), stuff.len(), positions.len());
    let ends = frame::check_frame(plan, mask, start, tables, octets, frame.len(), each)?;
    read_slots(
        plan, mask, start, tables, &ends, frame, source, answers, stuff, positions,
    );
    Ok(())
}
