// Codes and reads slots at rates 1, 7 and 11, as many as the first and the second argument say, and whole frames, as many as
// the third and the fourth say, or 2 of each: work to be timed. A fifth argument names the one rate that is worked on.
#![tactic(auto)]

mod arguments;

use arguments::number_or;
use std::io;
use std::rt::Env;

const COUNT: u64 = 2;

// Whether a rate is worked on.
fn chosen(rt: &impl Env, rate: u16) -> bool {
    let only = number_or(rt, 5, 0);
    only == 0 || only == u64::from(rate)
}

fn slots_of(rt: &(impl Print + AllocGlobal + Env), rate: u16) -> io::Result<()> {
    if chosen(rt, rate) {
        test_bench_slots::of_rate(rt, rate, number_or(rt, 1, COUNT), number_or(rt, 2, COUNT))?;
    }
    Ok(())
}

fn frames_of(rt: &(impl Print + AllocGlobal + Env), rate: u16) -> io::Result<()> {
    if chosen(rt, rate) {
        test_bench_frames::of_rate(rt, rate, number_or(rt, 3, COUNT), number_or(rt, 4, COUNT))?;
    }
    Ok(())
}

fn main(rt: HostRuntime) -> io::Result<()> {
    slots_of(&rt, 1)?;
    slots_of(&rt, 7)?;
    slots_of(&rt, 11)?;
    frames_of(&rt, 1)?;
    frames_of(&rt, 7)?;
    frames_of(&rt, 11)
}
