// Slots coded and read again and again at the start of a frame.
#![tactic(auto)]

ghost use Rattle.test_samples.specs.Areas.{Room};

use plan::FrameState;
use std::io;
use test_lines::field;

// Makes what is coded next depend on the slot before it.
fn carry(coded: &[u8; plan::SLOT_OCTETS], source: &mut [u8]) {
    if 0 < source.len() {
        source[0] = coded[5609];
    }
}

fn code_slots(
    state: FrameState,
    table: &[u16],
    count: u64,
    source: &mut [u8],
    coded: &mut [u8; plan::SLOT_OCTETS],
) {
    for _ in 0..count {
        carry(coded, source);
        let _ = slot_coder::code_slot(state, table, source, coded);
    }
}

// Reads a slot as often as count says; the sum of the registers after it.
fn read_slots(
    state: FrameState,
    table: &[u16],
    count: u64,
    coded: &[u8; plan::SLOT_OCTETS],
    found: &mut [u8],
) -> u64 {
    let mut sum: u64 = 0;
    for _ in 0..count {
        let answer = slot_reader::read_slot(state, table, coded, found);
        sum = (sum + u64::from(answer.state.register)) % 4294967296;
    }
    sum
}

// A line with the digests of the last slot coded and of what was read last.
fn line(
    rt: &impl Print,
    rate: u16,
    codings: u64,
    readings: u64,
    registers: u64,
    coded: &[u8; plan::SLOT_OCTETS],
    found: &[u8],
) -> io::Result<()> {
    field(rt, "rate ", u64::from(rate))?;
    field(rt, " coded ", codings)?;
    field(rt, " digest ", test_samples::digest(coded))?;
    field(rt, " read ", readings)?;
    field(rt, " registers ", registers)?;
    field(rt, " digest ", test_samples::digest(found))?;
    println!(rt; "")
}

fn run(
    rt: &impl Print,
    rate: u16,
    codings: u64,
    readings: u64,
    table: &[u16],
    source: &mut [u8],
    found: &mut [u8],
) -> io::Result<()> {
    let state = test_samples::opened(rate);
    let mut coded = [0u8; plan::SLOT_OCTETS];
    test_samples::fill(u64::from(rate), source);
    code_slots(state, table, codings, source, &mut coded);
    let registers = read_slots(state, table, readings, &coded, found);
    line(rt, rate, codings, readings, registers, &coded, found)
}

fn with_areas(
    rt: &impl Print,
    rate: u16,
    codings: u64,
    readings: u64,
    table: &mut [u16],
    source: &mut [u8],
    found: &mut [u8],
) -> io::Result<()>
    requires { Room table.old source.old found.old }
{
    let numbers = published::table_length(u32::from(rate));
    let octets = test_samples::source_length(rate);
    let _ = published::copy_table(u32::from(rate), &mut table[..numbers]);
    run(
        rt,
        rate,
        codings,
        readings,
        &table[..numbers],
        &mut source[..octets],
        &mut found[..octets],
    )
}

// Codes and reads slots of a rate, and writes their line.
pub fn of_rate(
    rt: &(impl Print + AllocGlobal),
    rate: u16,
    codings: u64,
    readings: u64,
) -> io::Result<()> {
    let mut table = vec![in rt.alloc(); 0u16; 510]?;
    let mut source = vec![in rt.alloc(); 0u8; plan::MOST_SOURCE]?;
    let mut found = vec![in rt.alloc(); 0u8; plan::MOST_SOURCE]?;
    with_areas(
        rt,
        rate,
        codings,
        readings,
        &mut table,
        &mut source,
        &mut found,
    )
}
