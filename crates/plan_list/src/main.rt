// plan-list: reads a plan's lines from standard input, and prints the list of its runs or `refused` and the number.
#![tactic(auto)]

use std::io;
use std::io::Read;

// One octet more than a plan's text may have, so that a longer text is seen to be one.
const MOST_READ: u64 = 129;

fn main(rt: HostRuntime) -> io::Result<()> {
    let mut text = Vec::new(rt.alloc());
    rt.reader().take(MOST_READ).read_to_end(&mut text)?;
    let mut out = [0u8; 512];
    let length = run_list::answer(&text, &mut out);
    rt.write_all(&out[..length])
}
