// The lines that are written.
use codeword::WordAnswer;
use plan::{Answer, FrameState};
use slot::SlotRead;
use std::io;
use test_lines::field;

// Which slot the line is about.
fn title(rt: &impl Print, rate: u16, slot: u16) -> io::Result<()> {
    field(rt, "rate ", u64::from(rate))?;
    field(rt, " slot ", u64::from(slot))
}

// The register after the slot, and the digest of the octets that the call wrote or left.
fn end(rt: &impl Print, state: FrameState, octets: &[u8]) -> io::Result<()> {
    field(rt, " register ", u64::from(state.register))?;
    field(rt, " digest ", test_samples::digest(octets))?;
    println!(rt; "")
}

pub fn coded(
    rt: &impl Print,
    rate: u16,
    slot: u16,
    answer: Answer,
    octets: &[u8],
) -> io::Result<()> {
    title(rt, rate, slot)?;
    field(rt, " coded ", u64::from(answer.number))?;
    end(rt, answer.state, octets)
}

// What was read: the damage, the reader's number, the stuff bits and the failing position, and the number and the position of the
// lone parity check.
pub fn read(
    rt: &impl Print,
    rate: u16,
    slot: u16,
    damage: &str,
    answer: SlotRead,
    check: WordAnswer,
    octets: &[u8],
) -> io::Result<()> {
    title(rt, rate, slot)?;
    print!(rt; "{damage}")?;
    field(rt, " read ", u64::from(answer.number))?;
    field(rt, " stuff ", u64::from(answer.stuff))?;
    field(rt, " position ", u64::from(answer.position))?;
    field(rt, " check ", u64::from(check.number))?;
    field(rt, " position ", u64::from(check.position))?;
    end(rt, answer.state, octets)
}
