// Cases that documents 01 and 02 work by hand, and 32APSK at 7/9: each line says what a call answered.
#![tactic(auto)]

mod labels;
mod lines;
mod plans;
mod slots;

use std::io;

fn main(rt: HostRuntime) -> io::Result<()> {
    plans::run(&rt)?;
    slots::run(&rt)?;
    labels::run(&rt)
}
