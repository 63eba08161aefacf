// "Counts 115 + 5 accepted .. Nine groups 1. Mask 2^25 refused 6", and of document 02 "115 alone is now 15, and 116 + 4 is 13".
use crate::lines::line;
use plan::{Answer, Plan};
use std::io;
use test_samples::{MASK, START};

// 16APSK 7/9 and QPSK 1/2 in so many slots, of which the first groups are in use.
fn of_counts(count: u16, first: u16, second: u16) -> Plan {
    plan::of_columns(
        count,
        [4, 2, 0, 0, 0, 0, 0, 0],
        [7, 3, 0, 0, 0, 0, 0, 0],
        [first, second, 0, 0, 0, 0, 0, 0],
    )
}

fn opening(rt: &impl Print, name: &str, plan: Plan, mask: u32) -> io::Result<()> {
    let answer = Answer::new(plan::open(plan, mask, START), plan::no_state());
    line(rt, name, u64::from(answer.number))
}

pub fn run(rt: &impl Print) -> io::Result<()> {
    opening(rt, "115 + 5 slots ", of_counts(2, 115, 5), MASK)?;
    opening(rt, "115 slots ", of_counts(1, 115, 0), MASK)?;
    opening(rt, "116 + 4 slots ", of_counts(2, 116, 4), MASK)?;
    opening(rt, "nine groups ", of_counts(9, 115, 5), MASK)?;
    opening(rt, "mask 2^25 ", of_counts(2, 115, 5), 33554432)
}
