// Symbols as labels, and back.
ghost use Rattle.std.specs.Prelude.{length};
ghost use Rattle.refusal.specs.Answers.{Answered};
ghost use Rattle.symbols.specs.Labels.{labels_of_slot, slot_number, slot_of_labels, slot_of_labels_number, labels_of_block, block_number, block_of_labels, block_of_labels_number};

#[unsafe(no_mangle)]
pub extern "C" fn s3_labels(modulation: u32, rate: u32, slot: &[u8], labels: &mut [u8]) -> u8
    ensures { Answered (slot_number modulation rate (length slot.now) (length labels.old)) (labels_of_slot modulation rate slot.now) labels.old result labels.new }
{
    refusal::number(symbols::labels_of_slot(modulation, rate, slot, labels))
}

#[unsafe(no_mangle)]
pub extern "C" fn s3_slot_of_labels(
    modulation: u32,
    rate: u32,
    labels: &[u8],
    slot: &mut [u8],
) -> u8
    ensures { Answered (slot_of_labels_number modulation rate labels.now (length slot.old)) (slot_of_labels modulation rate labels.now) slot.old result slot.new }
{
    refusal::number(symbols::slot_of_labels(modulation, rate, labels, slot))
}

#[unsafe(no_mangle)]
pub extern "C" fn s3_tmcc_labels(block: &[u8], labels: &mut [u8]) -> u8
    ensures { Answered (block_number (length block.now) (length labels.old)) (labels_of_block block.now) labels.old result labels.new }
{
    refusal::number(symbols::labels_of_block(block, labels))
}

#[unsafe(no_mangle)]
pub extern "C" fn s3_tmcc_of_labels(labels: &[u8], block: &mut [u8]) -> u8
    ensures { Answered (block_of_labels_number labels.now (length block.old)) (block_of_labels labels.now) block.old result block.new }
{
    refusal::number(symbols::block_of_labels(labels, block))
}
