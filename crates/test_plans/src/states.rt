// Openings and passes, each with its number and the slot and register of its state.
use plan::{Answer, FrameState, Plan};
use std::io;
use test_lines::field;

// The number, slot and register of an answer, behind what was asked.
fn answered(rt: &impl Print, answer: Answer) -> io::Result<()> {
    let state = answer.state;
    field(rt, ": ", u64::from(answer.number))?;
    field(rt, " slot ", u64::from(state.slot))?;
    field(rt, " register ", u64::from(state.register))?;
    println!(rt; "")
}

fn show(rt: &impl Print, name: &str, answer: Answer) -> io::Result<()> {
    print!(rt; "{name}")?;
    answered(rt, answer)
}

// What opening answers C: a state of zeros by a refusal.
fn opened(plan: Plan, mask: u32, start: u32) -> Answer {
    Answer::new(plan::open(plan, mask, start), plan::no_state())
}

// What passing answers C: the state as it was by a refusal.
fn passed(state: FrameState) -> Answer {
    Answer::new(plan::pass(state), state)
}

// 16APSK 7/9 in 115 slots, of which 92 carry data, and QPSK 1/2 in 5, of which 2 do.
fn example() -> Plan {
    plan::of_columns(
        2,
        [4, 2, 0, 0, 0, 0, 0, 0],
        [7, 3, 0, 0, 0, 0, 0, 0],
        [115, 5, 0, 0, 0, 0, 0, 0],
    )
}

// The first groups of the example, so many.
fn groups(count: u16) -> Plan {
    let mut plan = example();
    plan.count = count;
    plan
}

// Opens the example with settings.
fn opening(rt: &impl Print, name: &str, mask: u32, start: u32) -> io::Result<()> {
    show(rt, name, opened(example(), mask, start))
}

fn openings(rt: &impl Print) -> io::Result<()> {
    opening(rt, "open", 16777216, 1)?;
    show(rt, "open with nine groups", opened(groups(9), 16777216, 1))?;
    show(
        rt,
        "open with 115 slots and start 0",
        opened(groups(1), 16777216, 0),
    )?;
    opening(rt, "open with mask 2^25", 33554432, 1)?;
    opening(rt, "open with mask 2^25 - 1", 33554431, 1)?;
    opening(rt, "open with mask 2^24 - 1", 16777215, 1)?;
    opening(rt, "open with start 0", 16777216, 0)?;
    opening(rt, "open with start 2^25", 16777216, 33554432)?;
    opening(rt, "open with start 2^25 - 1", 16777216, 33554431)
}

// The example's state at a slot, with a register.
fn state_at(slot: u16, register: u32) -> FrameState {
    plan::state_at(example(), 16777216, 1, slot, register)
}

fn pass_at(rt: &impl Print, slot: u16) -> io::Result<()> {
    field(rt, "pass at slot ", u64::from(slot))?;
    answered(rt, passed(state_at(slot, 5)))
}

// Data slots and dummies of both groups, their first and last ones, and slots that no frame has.
fn passes(rt: &impl Print) -> io::Result<()> {
    pass_at(rt, 0)?;
    pass_at(rt, 1)?;
    pass_at(rt, 92)?;
    pass_at(rt, 93)?;
    pass_at(rt, 115)?;
    pass_at(rt, 116)?;
    pass_at(rt, 117)?;
    pass_at(rt, 118)?;
    pass_at(rt, 120)?;
    pass_at(rt, 121)
}

// Passes a slot with a register.
fn passing(rt: &impl Print, name: &str, slot: u16, register: u32) -> io::Result<()> {
    show(rt, name, passed(state_at(slot, register)))
}

// A state of 115 slots, whose total is wrong.
fn wrong_plan(rt: &impl Print, name: &str, slot: u16, register: u32) -> io::Result<()> {
    show(
        rt,
        name,
        passed(plan::state_at(groups(1), 16777216, 1, slot, register)),
    )
}

fn wrong_plans(rt: &impl Print) -> io::Result<()> {
    wrong_plan(rt, "pass in 115 slots", 93, 5)?;
    wrong_plan(rt, "pass in 115 slots with register 0", 93, 0)?;
    wrong_plan(rt, "pass at slot 0 in 115 slots", 0, 5)
}

fn wrong_registers(rt: &impl Print) -> io::Result<()> {
    passing(rt, "pass with register 0", 93, 0)?;
    passing(rt, "pass with register 2^25", 93, 33554432)?;
    passing(rt, "pass at slot 121 with register 0", 121, 0)
}

pub fn run(rt: &impl Print) -> io::Result<()> {
    openings(rt)?;
    passes(rt)?;
    wrong_plans(rt)?;
    wrong_registers(rt)
}
