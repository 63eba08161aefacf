// Whole frames: coded, read back, and read with a few slots damaged.
ghost use Rattle.test_frame_lines.specs.Areas.{Room};

use crate::lines;
use std::io;
use test_samples::{MASK, START};

// Codes a frame into an area that is filled before, so that the dummies' parts show.
fn code_line(
    rt: &impl Print,
    number: u16,
    tables: &[u16],
    source: &mut [u8],
    frame: &mut [u8],
) -> io::Result<()> {
    test_samples::fill(1000 + u64::from(number), source);
    test_samples::fill(7, frame);
    let plan = test_samples::numbered_plan(number);
    let answer = refusal::number(frame_coder::code_frame(plan, MASK, START, tables, source, frame));
    lines::answer(rt, number, " coded ", answer)?;
    lines::end(rt, frame)
}

// Reads a frame into areas that are filled before, so that what is left as found shows.
fn read_line(
    rt: &impl Print,
    number: u16,
    name: &str,
    tables: &[u16],
    frame: &[u8],
    source: &mut [u8],
) -> io::Result<()> {
    let mut answers = [11u8; 120];
    let mut stuff = [11u8; 120];
    let mut positions = [11u16; 120];
    test_samples::fill(9, source);
    let plan = test_samples::numbered_plan(number);
    let answer = refusal::number(frame_reader::read_frame(
        plan,
        MASK,
        START,
        tables,
        frame,
        source,
        &mut answers,
        &mut stuff,
        &mut positions,
    ));
    lines::answer(rt, number, name, answer)?;
    lines::each(rt, " answers ", &answers)?;
    lines::each(rt, " stuff ", &stuff)?;
    lines::failing(rt, &positions)?;
    lines::end(rt, source)
}

// Turns the first bit of an octet round.
fn damage_octet(octet: usize, area: &mut [u8]) {
    if octet < area.len() {
        area[octet] ^= 128;
    }
}

// Turns the first bits of slots 1, 50 and 120 round.
fn damage(frame: &mut [u8]) {
    damage_octet(0, frame);
    damage_octet(274890, frame);
    damage_octet(667590, frame);
}

fn frame_lines(
    rt: &impl Print,
    number: u16,
    tables: &[u16],
    source: &mut [u8],
    frame: &mut [u8],
) -> io::Result<()> {
    code_line(rt, number, tables, source, frame)?;
    read_line(rt, number, " read ", tables, frame, source)?;
    damage(frame);
    read_line(rt, number, " damaged read ", tables, frame, source)
}

// The same with areas that hold the tables and the octets of any plan.
fn with_areas(
    rt: &impl Print,
    number: u16,
    tables: &mut [u16],
    source: &mut [u8],
    frame: &mut [u8],
) -> io::Result<()>
    requires { Room tables.old source.old }
{
    let numbers = test_samples::put_tables(test_samples::numbered_plan(number), tables);
    let octets = test_samples::plan_octets(number);
    frame_lines(rt, number, &tables[..numbers], &mut source[..octets], frame)
}

// The lines of a plan's frame.
pub fn of_plan(rt: &(impl Print + AllocGlobal), number: u16) -> io::Result<()> {
    let mut tables = vec![in rt.alloc(); 0u16; 4080]?;
    let mut source = vec![in rt.alloc(); 0u8; 608520]?;
    let mut frame = vec![in rt.alloc(); 0u8; plan::FRAME_OCTETS]?;
    with_areas(rt, number, &mut tables, &mut source, &mut frame)
}
