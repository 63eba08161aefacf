// Cases of documents 01 and 02 around plans: texts that plan-list reads or refuses, and openings and passes.
#![tactic(auto)]

mod cases;
mod states;

use std::io;

fn main(rt: HostRuntime) -> io::Result<()> {
    cases::run(&rt)?;
    states::run(&rt)
}
