// What the lines of test programs are made of.
#![tactic(auto)]

use std::io;

// A number behind its name, on standard output.
pub fn field(rt: &impl Print, name: &str, value: u64) -> io::Result<()> {
    print!(rt; "{name}{value}")
}
