// Whole frames with the published tables: coded, read back, and read with a few bits damaged. Every rate has a frame, and
// so have plans with dummies.
#![tactic(auto)]

use std::io;

fn main(rt: HostRuntime) -> io::Result<()> {
    for number in 1..=14u16 {
        test_frame_lines::of_plan(&rt, number)?;
    }
    Ok(())
}
