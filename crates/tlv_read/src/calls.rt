// The call: what it refuses, and the packets.
ghost use Rattle.std.specs.Prelude.{◌≡◌, ◌<◌};
ghost use Rattle.refusal.specs.Answers.{number};
ghost use Rattle.tlv.specs.Calls.{place_ok, mark_ok, all_hold, read_ok, read_number, as_read, read_answer, read_packets};

use crate::slots::Slots;
use refusal::Refusal;
use tlv::Unpacked;

// Whether x is an octet of a slot, or stands for none.
fn place_ok(size: usize, x: usize) -> bool
    ensures { result ≡ place_ok size x }
{
    x < size || x == usize::from(tlv::NONE)
}

// Whether each report is an octet of its slot, or none.
fn places_ok(size: usize, begins: &[u16]) -> bool
    ensures { result ≡ all_hold (place_ok size) begins.now }
{
    begins
        .iter()
        .all(|begin| place_ok(size, usize::from(*begin)))
}

// Whether each mark is 0 or 1.
fn marks_ok(lost: &[u8]) -> bool
    ensures { result ≡ all_hold mark_ok lost.now }
{
    lost.iter().all(|mark| *mark <= 1)
}

// Whether everything lent is as reading wants it, with the octets of slots and of the packets' area.
#[tactic(auto, unfolding(tlv::specs::Calls::read_ok))]
fn lent_ok(
    size: usize,
    octets: usize,
    begins: &[u16],
    lost: &[u8],
    first: usize,
    area: usize,
) -> bool
    requires { 0 < size }
    ensures { result ≡ read_ok size octets begins.now lost.now first area }
{
    tlv::slots_ok(size, octets, begins.len())
        && lost.len() == begins.len()
        && area == octets
        && place_ok(size, first)
        && places_ok(size, begins)
        && marks_ok(lost)
}

// What reading tests, with the octets of the packets' area.
#[tactic(auto, unfolding(tlv::specs::Calls::read_number))]
fn check_read(
    rate: u32,
    slots: &[u8],
    begins: &[u16],
    lost: &[u8],
    first: usize,
    area: usize,
) -> Result<(), Refusal>
    ensures { number result ≡ read_number rate slots.now begins.now lost.now first area }
{
    if !plan::known(rate, plan::RATES) {
        return Err(Refusal::Plan);
    }
    let size = plan::data_octets(rate);
    if lent_ok(size, slots.len(), begins, lost, first, area) {
        return Ok(());
    }
    Err(Refusal::Length)
}

// Reads the packets of slots into an area as long as these; a refusal leaves it as it was.
#[tactic(auto, using(refusal::specs::AnswerLaws::refused_not_0), unfolding(tlv::specs::Calls::read_answer, tlv::specs::Calls::read_packets))]
pub fn read(
    rate: u32,
    slots: &[u8],
    begins: &[u16],
    lost: &[u8],
    first: u32,
    packets: &mut [u8],
) -> Result<Unpacked, Refusal>
    ensures value { as_read result ≡ read_answer rate slots.now begins.now lost.now first packets.old }
    ensures packets_after { packets.new ≡ read_packets rate slots.now begins.now lost.now first packets.old }
{
    let first = first as usize;
    check_read(rate, slots, begins, lost, first, packets.len())?;
    let size = plan::data_octets(rate);
    let lent = Slots {
        size,
        octets: slots,
        lost,
        begins,
    };
    let from = lent.start_at(first);
    Ok(lent.read_from(from, packets))
}
