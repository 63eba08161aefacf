// Slots coded and read.
ghost use Rattle.test_samples.specs.Areas.{Room};

use crate::lines;
use codeword::WordAnswer;
use plan::{Answer, FrameState};
use slot::SlotRead;
use std::io;

// Reads a slot into octets that a refusal must leave as they are.
fn read_line(
    rt: &impl Print,
    rate: u16,
    state: FrameState,
    table: &[u16],
    damage: &str,
    coded: &[u8; plan::SLOT_OCTETS],
    found: &mut [u8],
) -> io::Result<()> {
    test_samples::fill(0, found);
    let answer = SlotRead::from(slot_reader::read_slot(state, table, coded, found));
    let check = WordAnswer::from(slot_check::check_parity(u32::from(rate), table, coded));
    lines::read(rt, rate, state.slot, damage, answer, check, found)
}

// Reads a slot as it was coded and with its first bit turned round.
fn read_lines(
    rt: &impl Print,
    rate: u16,
    state: FrameState,
    table: &[u16],
    coded: [u8; plan::SLOT_OCTETS],
    found: &mut [u8],
) -> io::Result<()> {
    let mut damaged = coded;
    damaged[0] ^= 128;
    read_line(rt, rate, state, table, " whole", &coded, found)?;
    read_line(rt, rate, state, table, " damaged", &damaged, found)
}

// Codes and reads the state's next slot; the state after it.
fn slot_lines(
    rt: &impl Print,
    rate: u16,
    state: FrameState,
    table: &[u16],
    source: &mut [u8],
    found: &mut [u8],
) -> io::Result<FrameState> {
    let mut coded = [0u8; plan::SLOT_OCTETS];
    test_samples::fill(100 * u64::from(rate) + u64::from(state.slot), source);
    let answer = Answer::new(
        slot_coder::code_slot(state, table, source, &mut coded),
        state,
    );
    lines::coded(rt, rate, state.slot, answer, &coded)?;
    read_lines(rt, rate, state, table, coded, found)?;
    Ok(answer.state)
}

// The first two slots of a frame.
fn frame_lines(
    rt: &impl Print,
    rate: u16,
    table: &[u16],
    source: &mut [u8],
    found: &mut [u8],
) -> io::Result<()> {
    let first = test_samples::opened(rate);
    let second = slot_lines(rt, rate, first, table, source, found)?;
    slot_lines(rt, rate, second, table, source, found)?;
    Ok(())
}

// The same, with areas that hold the table and the octets of any rate.
fn with_areas(
    rt: &impl Print,
    rate: u16,
    table: &mut [u16],
    source: &mut [u8],
    found: &mut [u8],
) -> io::Result<()>
    requires { Room table.old source.old found.old }
{
    let numbers = published::table_length(u32::from(rate));
    let octets = test_samples::source_length(rate);
    let _ = published::copy_table(u32::from(rate), &mut table[..numbers]);
    frame_lines(
        rt,
        rate,
        &table[..numbers],
        &mut source[..octets],
        &mut found[..octets],
    )
}

// The lines of a rate.
pub fn of_rate(rt: &(impl Print + AllocGlobal), rate: u16) -> io::Result<()> {
    let mut table = vec![in rt.alloc(); 0u16; 510]?;
    let mut source = vec![in rt.alloc(); 0u8; plan::MOST_SOURCE]?;
    let mut found = vec![in rt.alloc(); 0u8; plan::MOST_SOURCE]?;
    with_areas(rt, rate, &mut table, &mut source, &mut found)
}
