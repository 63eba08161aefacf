// Slots filled with TLV packets, and read.
ghost use Rattle.std.specs.Prelude.{◌≡◌};
ghost use Rattle.tlv.specs.Calls.{fill_answer, fill_slots, fill_begins, read_answer, read_packets};

use tlv::{FillAnswer, ReadAnswer};

#[unsafe(no_mangle)]
pub extern "C" fn s3_tlv_fill(
    rate: u32,
    packets: &[u8],
    taken: usize,
    owed: usize,
    slots: &mut [u8],
    begins: &mut [u16],
) -> FillAnswer
    ensures value { result ≡ fill_answer rate packets.now taken owed slots.old begins.old }
    ensures slots_after { slots.new ≡ fill_slots rate packets.now taken owed slots.old begins.old }
    ensures begins_after { begins.new ≡ fill_begins rate packets.now taken owed slots.old begins.old }
{
    FillAnswer::from(tlv_fill::fill(rate, packets, taken, owed, slots, begins))
}

#[unsafe(no_mangle)]
pub extern "C" fn s3_tlv_read(
    rate: u32,
    slots: &[u8],
    begins: &[u16],
    lost: &[u8],
    first: u32,
    packets: &mut [u8],
) -> ReadAnswer
    ensures value { result ≡ read_answer rate slots.now begins.now lost.now first packets.old }
    ensures packets_after { packets.new ≡ read_packets rate slots.now begins.now lost.now first packets.old }
{
    ReadAnswer::from(tlv_read::read(rate, slots, begins, lost, first, packets))
}
