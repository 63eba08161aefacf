// The lines that are written.
use std::io;

// A name and a number.
pub fn line(rt: &impl Print, name: &str, value: u64) -> io::Result<()> {
    println!(rt; "{name}{value}")
}
