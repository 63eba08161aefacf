// The two calls: packets of one slot into its data octets, and back.
ghost use Rattle.std.specs.Prelude.{◌≡◌, length};
ghost use Rattle.plan.specs.Rates.{packets_of};
ghost use Rattle.refusal.specs.Answers.{Answered, number};
ghost use Rattle.packets.specs.Packets.{packed, unpacked, size_number, pack_number, unpack_number};

use crate::carry::{leave_out, put_back, syncs_ok};
use refusal::Refusal;

// The refusal of an unknown rate or a wrong length.
#[tactic(auto, using(std::proofs::lemmas::Bool::Decides::nat_tests, plan::proofs::RateLaws::rows_most), unfolding(crate::specs::Packets::size_number, plan::specs::Rates::packets_of, plan::specs::Rates::data_octets_of, plan::specs::Rates::data_bits_of))]
fn check_size(rate: u32, packets: usize, octets: usize) -> Result<(), Refusal>
    ensures { number result ≡ size_number rate packets octets }
{
    if !plan::known(rate, plan::RATES) {
        return Err(Refusal::Plan);
    }
    if packets != 188 * plan::packets(rate) || octets != plan::data_octets(rate) {
        return Err(Refusal::Length);
    }
    Ok(())
}

// The refusal of packing, with the length of the area for the data octets.
#[tactic(auto, using(refusal::specs::AnswerLaws::refused_not_0), unfolding(crate::specs::Packets::pack_number))]
fn check_pack(rate: u32, packets: &[u8], room: usize) -> Result<(), Refusal>
    ensures { number result ≡ pack_number rate packets.now room }
{
    check_size(rate, packets.len(), room)?;
    if !syncs_ok(plan::packets(rate), packets) {
        return Err(Refusal::Sync);
    }
    Ok(())
}

// Packs one slot's packets into data octets; a refusal leaves the octets as they were.
pub fn pack(rate: u32, packets: &[u8], octets: &mut [u8]) -> Result<(), Refusal>
    ensures { Answered (pack_number rate packets.now (length octets.old)) (packed (packets_of rate) packets.now) octets.old (number result) octets.new }
{
    check_pack(rate, packets, octets.len())?;
    leave_out(plan::packets(rate), packets, octets);
    Ok(())
}

// Unpacks one slot's data octets into packets; a refusal leaves the packets as they were.
#[tactic(auto, using(refusal::specs::AnswerLaws::refused_not_0), unfolding(crate::specs::Packets::unpack_number))]
pub fn unpack(rate: u32, octets: &[u8], packets: &mut [u8]) -> Result<(), Refusal>
    ensures { Answered (unpack_number rate octets.now (length packets.old)) (unpacked (packets_of rate) octets.now) packets.old (number result) packets.new }
{
    check_size(rate, packets.len(), octets.len())?;
    put_back(plan::packets(rate), octets, packets);
    Ok(())
}
