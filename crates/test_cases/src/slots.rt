// Slots of rate 5: "Address M refused 5, M − 1 accepted".
use crate::lines::line;
use plan::Answer;
use std::io;

// The first address of the first row, replaced.
fn of_address(
    rt: &impl Print,
    name: &str,
    address: u16,
    table: [u16; 432],
    source: &[u8],
    coded: &mut [u8],
) -> io::Result<()> {
    let mut changed = table;
    changed[1] = address;
    let state = test_samples::opened(5);
    let answer = Answer::new(slot_coder::code_slot(state, &changed, source, coded), state);
    line(rt, name, u64::from(answer.number))
}

pub fn run(rt: &impl Print) -> io::Result<()> {
    let mut table = [0u16; 432];
    let mut source = [0u8; 3762];
    let _ = published::copy_table(5, &mut table);
    test_samples::fill(5, &mut source);
    let mut coded = [0u8; plan::SLOT_OCTETS];
    of_address(rt, "address M ", 14586, table, &source, &mut coded)?;
    of_address(rt, "address M - 1 ", 14585, table, &source, &mut coded)
}
