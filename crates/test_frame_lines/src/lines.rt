// The lines that are written.
use std::io;
use test_lines::field;

// The number of a frame's plan, and what a call answered.
pub fn answer(rt: &impl Print, frame: u16, name: &str, answer: u8) -> io::Result<()> {
    field(rt, "frame ", u64::from(frame))?;
    field(rt, name, u64::from(answer))
}

// The digest of octets that the calls give back for each slot.
pub fn each(rt: &impl Print, name: &str, octets: &[u8; 120]) -> io::Result<()> {
    field(rt, name, test_samples::digest(octets))
}

fn position(rt: &impl Print, name: &str, position: u16) -> io::Result<()> {
    field(rt, name, u64::from(position))
}

// The failing positions of the slots that are damaged.
pub fn failing(rt: &impl Print, positions: &[u16; 120]) -> io::Result<()> {
    position(rt, " positions ", positions[0])?;
    position(rt, " ", positions[49])?;
    position(rt, " ", positions[119])
}

// The digest of the octets that a call wrote or left, and the end of the line.
pub fn end(rt: &impl Print, octets: &[u8]) -> io::Result<()> {
    field(rt, " digest ", test_samples::digest(octets))?;
    println!(rt; "")
}
