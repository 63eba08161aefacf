// The four calls: labels of a slot and of a TMCC block, and the way back. Slots and blocks have calls of their own in C.
ghost use Rattle.std.specs.Prelude.{length};
ghost use Rattle.refusal.specs.Answers.{Answered, number};
ghost use Rattle.symbols.specs.Labels.{labels_of_slot, slot_of_labels, labels_of_block, block_of_labels, slot_number, slot_of_labels_number, block_number, block_of_labels_number};

use crate::numbers::{check_block, check_block_of_labels, check_slot, check_slot_of_labels};
use crate::places::right_to_left;
use crate::runs::{label_octets, unlabel_octets};
use refusal::Refusal;

// The labels of a slot; a refusal leaves the labels as they were.
#[tactic(auto, using(refusal::specs::AnswerLaws::refused_not_0))]
pub fn labels_of_slot(
    modulation: u32,
    rate: u32,
    slot: &[u8],
    labels: &mut [u8],
) -> Result<(), Refusal>
    ensures { Answered (slot_number modulation rate (length slot.now) (length labels.old)) (labels_of_slot modulation rate slot.now) labels.old (number result) labels.new }
{
    check_slot(modulation, rate, slot.len(), labels.len())?;
    let leftward = right_to_left(modulation, rate);
    label_octets::<{ plan::SLOT_BITS }>(modulation as usize, leftward, slot, labels);
    Ok(())
}

// The slot of labels; a refusal leaves the slot as it was.
#[tactic(auto, using(refusal::specs::AnswerLaws::refused_not_0))]
pub fn slot_of_labels(
    modulation: u32,
    rate: u32,
    labels: &[u8],
    slot: &mut [u8],
) -> Result<(), Refusal>
    ensures { Answered (slot_of_labels_number modulation rate labels.now (length slot.old)) (slot_of_labels modulation rate labels.now) slot.old (number result) slot.new }
{
    check_slot_of_labels(modulation, rate, labels, slot.len())?;
    let leftward = right_to_left(modulation, rate);
    unlabel_octets::<{ plan::SLOT_BITS }>(modulation as usize, leftward, labels, slot);
    Ok(())
}

// The labels of a TMCC block; a refusal leaves the labels as they were.
#[tactic(auto, using(refusal::specs::AnswerLaws::refused_not_0))]
pub fn labels_of_block(block: &[u8], labels: &mut [u8]) -> Result<(), Refusal>
    ensures { Answered (block_number (length block.now) (length labels.old)) (labels_of_block block.now) labels.old (number result) labels.new }
{
    check_block(block.len(), labels.len())?;
    label_octets::<{ plan::BLOCK_BITS }>(1, false, block, labels);
    Ok(())
}

// The TMCC block of labels; a refusal leaves the block as it was.
#[tactic(auto, using(refusal::specs::AnswerLaws::refused_not_0))]
pub fn block_of_labels(labels: &[u8], block: &mut [u8]) -> Result<(), Refusal>
    ensures { Answered (block_of_labels_number labels.now (length block.old)) (block_of_labels labels.now) block.old (number result) block.new }
{
    check_block_of_labels(labels, block.len())?;
    unlabel_octets::<{ plan::BLOCK_BITS }>(1, false, labels, block);
    Ok(())
}
