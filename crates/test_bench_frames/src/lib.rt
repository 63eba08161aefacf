// Whole frames of one rate, coded and read again and again.
#![tactic(auto)]

ghost use Rattle.test_bench_frames.specs.Areas.{Room};

use std::io;
use test_lines::field;
use test_samples::{MASK, START};

// Makes what is coded next depend on the frame before it.
fn carry(frame: &[u8], source: &mut [u8]) {
    if frame.len() == plan::FRAME_OCTETS && 0 < source.len() {
        source[0] = frame[673199];
    }
}

fn code_frames(rate: u16, table: &[u16], count: u64, source: &mut [u8], frame: &mut [u8]) {
    for _ in 0..count {
        carry(frame, source);
        let _ = frame_coder::code_frame(
            test_samples::plan_of(rate),
            MASK,
            START,
            table,
            source,
            frame,
        );
    }
}

fn read_frames(
    rate: u16,
    table: &[u16],
    count: u64,
    frame: &[u8],
    found: &mut [u8],
    answers: &mut [u8],
    stuff: &mut [u8],
    positions: &mut [u16],
) {
    for _ in 0..count {
        let _ = frame_reader::read_frame(
            test_samples::plan_of(rate),
            MASK,
            START,
            table,
            frame,
            found,
            answers,
            stuff,
            positions,
        );
    }
}

// A line with the digests of the last frame coded and of what was read last.
fn line(
    rt: &impl Print,
    rate: u16,
    codings: u64,
    readings: u64,
    frame: &[u8],
    answers: &[u8],
    found: &[u8],
) -> io::Result<()> {
    field(rt, "frame rate ", u64::from(rate))?;
    field(rt, " coded ", codings)?;
    field(rt, " digest ", test_samples::digest(frame))?;
    field(rt, " read ", readings)?;
    field(rt, " answers ", test_samples::digest(answers))?;
    field(rt, " digest ", test_samples::digest(found))?;
    println!(rt; "")
}

fn run(
    rt: &impl Print,
    rate: u16,
    codings: u64,
    readings: u64,
    table: &[u16],
    source: &mut [u8],
    found: &mut [u8],
    frame: &mut [u8],
) -> io::Result<()> {
    let mut answers = [0u8; 120];
    let mut stuff = [0u8; 120];
    let mut positions = [0u16; 120];
    test_samples::fill(u64::from(rate), source);
    code_frames(rate, table, codings, source, frame);
    read_frames(
        rate,
        table,
        readings,
        frame,
        found,
        &mut answers,
        &mut stuff,
        &mut positions,
    );
    line(rt, rate, codings, readings, frame, &answers, found)
}

fn with_areas(
    rt: &impl Print,
    rate: u16,
    codings: u64,
    readings: u64,
    table: &mut [u16],
    source: &mut [u8],
    found: &mut [u8],
    frame: &mut [u8],
) -> io::Result<()>
    requires { Room table.old source.old found.old }
{
    let numbers = published::table_length(u32::from(rate));
    let octets = 120 * test_samples::source_length(rate);
    let _ = published::copy_table(u32::from(rate), &mut table[..numbers]);
    run(
        rt,
        rate,
        codings,
        readings,
        &table[..numbers],
        &mut source[..octets],
        &mut found[..octets],
        frame,
    )
}

// Codes and reads frames of a rate, and writes their line.
pub fn of_rate(
    rt: &(impl Print + AllocGlobal),
    rate: u16,
    codings: u64,
    readings: u64,
) -> io::Result<()> {
    let mut table = vec![in rt.alloc(); 0u16; 510]?;
    let mut source = vec![in rt.alloc(); 0u8; 608520]?;
    let mut found = vec![in rt.alloc(); 0u8; 608520]?;
    let mut frame = vec![in rt.alloc(); 0u8; plan::FRAME_OCTETS]?;
    with_areas(
        rt,
        rate,
        codings,
        readings,
        &mut table,
        &mut source,
        &mut found,
        &mut frame,
    )
}
