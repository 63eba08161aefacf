// The call: what it refuses, and what it fills.
ghost use Rattle.std.specs.Prelude.{◌≡◌, length};
ghost use Rattle.refusal.specs.Answers.{number};
ghost use Rattle.tlv.specs.Calls.{taken_ok, fill_lent, fill_number, as_fill, fill_answer, fill_slots, fill_begins};

use crate::begins::mark_begins;
use crate::octets::{lacking, lay};
use crate::packets::packets_ok;
use refusal::Refusal;
use tlv::Filled;

// Whether so many octets of the packets can have been taken, with so many of a filler owed.
#[tactic(auto, unfolding(tlv::specs::Calls::taken_ok))]
fn taken_ok(length: usize, taken: usize, owed: usize) -> bool
    ensures { result ≡ taken_ok length taken owed }
{
    taken <= length && owed <= 3 && (owed == 0 || taken == 0 || taken == length)
}

// The rate and what is lent, with the lengths of packets, slots and reports.
#[tactic(auto, unfolding(tlv::specs::Calls::fill_lent))]
fn check_lent(
    rate: u32,
    length: usize,
    taken: usize,
    owed: usize,
    octets: usize,
    reports: usize,
) -> Result<(), Refusal>
    ensures { number result ≡ fill_lent rate length taken owed octets reports }
{
    if !plan::known(rate, plan::RATES) {
        return Err(Refusal::Plan);
    }
    let size = plan::data_octets(rate);
    if tlv::slots_ok(size, octets, reports) && taken_ok(length, taken, owed) {
        return Ok(());
    }
    Err(Refusal::Length)
}

// What filling tests: what is lent, then the packets.
#[tactic(auto, using(refusal::specs::AnswerLaws::refused_not_0), unfolding(tlv::specs::Calls::fill_number))]
fn check_fill(
    rate: u32,
    packets: &[u8],
    taken: usize,
    owed: usize,
    slots: &[u8],
    begins: &[u16],
) -> Result<(), Refusal>
    ensures { number result ≡ fill_number rate packets.now taken owed slots.now begins.now }
{
    check_lent(rate, packets.len(), taken, owed, slots.len(), begins.len())?;
    if !packets_ok(packets) {
        return Err(Refusal::Packet);
    }
    Ok(())
}

// Fills slots with the packets from `taken` on and fillers behind them, and says where in each slot the first begins; a
// refusal leaves slots and reports as they were.
#[tactic(auto, using(refusal::specs::AnswerLaws::refused_not_0), unfolding(tlv::specs::Calls::fill_answer, tlv::specs::Calls::fill_slots, tlv::specs::Calls::fill_begins))]
pub fn fill(
    rate: u32,
    packets: &[u8],
    taken: usize,
    owed: usize,
    slots: &mut [u8],
    begins: &mut [u16],
) -> Result<Filled, Refusal>
    ensures value { as_fill result ≡ fill_answer rate packets.now taken owed slots.old begins.old }
    ensures slots_after { slots.new ≡ fill_slots rate packets.now taken owed slots.old begins.old }
    ensures begins_after { begins.new ≡ fill_begins rate packets.now taken owed slots.old begins.old }
{
    check_fill(rate, packets, taken, owed, slots, begins)?;
    let end = taken + (slots.len() - owed);
    lay(packets, taken, owed, slots);
    mark_begins(plan::data_octets(rate), packets, taken, owed, begins);
    Ok(Filled {
        taken: packets.len().min(end),
        owed: lacking(end.saturating_sub(packets.len())),
    })
}
