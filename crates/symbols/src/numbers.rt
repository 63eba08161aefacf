// What the calls test.
ghost use Rattle.std.specs.Prelude.{◌≡◌, ◌≤◌};
ghost use Rattle.refusal.specs.Answers.{number};
ghost use Rattle.symbols.specs.Labels.{length_number, label_number, slot_number, slot_of_labels_number, block_number, block_of_labels_number};

use refusal::Refusal;

// The lengths: there must be n octets and s labels.
#[tactic(auto, unfolding(crate::specs::Labels::length_number))]
fn check_length(n: usize, s: usize, octets: usize, labels: usize) -> Result<(), Refusal>
    ensures { number result ≡ length_number n s octets labels }
{
    if octets == n && labels == s {
        return Ok(());
    }
    Err(Refusal::Length)
}

// The labels: none has more bits than the modulation.
pub fn check_label(modulation: usize, labels: &[u8]) -> Result<(), Refusal>
    requires { modulation ≤ 5 }
    ensures { number result ≡ label_number modulation labels.now }
{
    let limit = 1u64 << modulation;
    if labels.iter().all(|label| u64::from(*label) < limit) {
        return Ok(());
    }
    Err(Refusal::Label)
}

// What both slot calls test: modulation and rate, then the lengths.
#[tactic(auto, unfolding(crate::specs::Labels::slot_number))]
pub fn check_slot(modulation: u32, rate: u32, octets: usize, labels: usize) -> Result<(), Refusal>
    ensures { number result ≡ slot_number modulation rate octets labels }
{
    if !plan::known(modulation, plan::MODULATIONS) || !plan::known(rate, plan::RATES) {
        return Err(Refusal::Plan);
    }
    let symbols = plan::SLOT_BITS / modulation as usize;
    check_length(plan::SLOT_OCTETS, symbols, octets, labels)
}

// What the way back of a slot tests: the same, then the labels.
#[tactic(auto, using(refusal::specs::AnswerLaws::refused_not_0), unfolding(crate::specs::Labels::slot_of_labels_number))]
pub fn check_slot_of_labels(
    modulation: u32,
    rate: u32,
    labels: &[u8],
    room: usize,
) -> Result<(), Refusal>
    ensures { number result ≡ slot_of_labels_number modulation rate labels.now room }
{
    check_slot(modulation, rate, room, labels.len())?;
    check_label(modulation as usize, labels)
}

// What both block calls test: the lengths; a label has one bit, so there are as many labels as bits.
#[tactic(auto, unfolding(crate::specs::Labels::block_number))]
pub fn check_block(octets: usize, labels: usize) -> Result<(), Refusal>
    ensures { number result ≡ block_number octets labels }
{
    check_length(plan::BLOCK_OCTETS, plan::BLOCK_BITS, octets, labels)
}

// What the way back of a block tests: the same, then the labels, of one bit each.
#[tactic(auto, using(refusal::specs::AnswerLaws::refused_not_0), unfolding(crate::specs::Labels::block_of_labels_number))]
pub fn check_block_of_labels(labels: &[u8], room: usize) -> Result<(), Refusal>
    ensures { number result ≡ block_of_labels_number labels.now room }
{
    check_block(room, labels.len())?;
    check_label(1, labels)
}
