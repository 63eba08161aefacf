// Slots at all eleven rates with the published tables: for each rate the first two slots of a frame, coded, read back,
// and read with one bit damaged.
#![tactic(auto)]

mod lines;
mod slots;

use std::io;

fn main(rt: HostRuntime) -> io::Result<()> {
    for rate in 1..=11u16 {
        slots::of_rate(&rt, rate)?;
    }
    Ok(())
}
