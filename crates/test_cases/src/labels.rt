// "Label 8 in 8PSK refused 12, 7 accepted", and 32APSK at 7/9, which is read right to left.
use crate::lines::line;
use std::io;

fn of_8psk(rt: &impl Print, name: &str, first: u8, slot: &mut [u8]) -> io::Result<()> {
    let mut labels = [7u8; 14960];
    labels[0] = first;
    let number = refusal::number(symbols::slot_of_labels(3, 3, &labels, slot));
    line(rt, name, u64::from(number))
}

// The first label of a slot whose first bit alone is set.
fn of_32apsk(rt: &impl Print, name: &str, rate: u32, slot: &[u8]) -> io::Result<()> {
    let mut labels = [0u8; 8976];
    let _ = symbols::labels_of_slot(5, rate, slot, &mut labels);
    line(rt, name, u64::from(labels[0]))
}

pub fn run(rt: &impl Print) -> io::Result<()> {
    let mut slot = [0u8; plan::SLOT_OCTETS];
    of_8psk(rt, "label 8 in 8PSK ", 8, &mut slot)?;
    of_8psk(rt, "label 7 in 8PSK ", 7, &mut slot)?;
    let mut first = [0u8; plan::SLOT_OCTETS];
    first[0] = 128;
    of_32apsk(rt, "bit 0 in 32APSK at rate 7 gives label ", 7, &first)?;
    of_32apsk(rt, "bit 0 in 32APSK at rate 8 gives label ", 8, &first)
}
