// A received slot, read by way of lent areas.
ghost use Rattle.std.specs.Prelude.{◌≡◌};
ghost use Rattle.bits.specs.Digits.{number};
ghost use Rattle.bits.specs.Octets.{octets_of};
ghost use Rattle.refusal.specs.Answers.{number as refusal_number};
ghost use Rattle.slot.specs.Reading.{stuff_of};
ghost use Rattle.codeword.specs.Reading.{message_in, tail_in, position};
ghost use Rattle.codeword.specs.Needs.{ReadOf as ReadWord};
ghost use Rattle.slot.specs.Slots.{source_octets, slot_shape};
ghost use Rattle.slot_reader.specs.Needs.{Taken, Held, Readable, ReadOf};

use refusal::Refusal;
use word_reader::WordRead;

// A received slot, read: its stuff bits, or the refusal of its parity or BCH bits, and the register after it.
#[derive(Clone, Copy)]
pub struct Found {
    pub stuff: Result<u8, Refusal>,
    pub register: u32,
}

// Header and data octets of the bits with dispersal taken off; their stuff bits as a number.
fn take_source(rows: usize, plain: &[u8], source: &mut [u8]) -> u8
    requires { Taken rows plain.now source.old }
    ensures value { result ≡ number 6 (tail_in (slot_shape rows) plain.now) }
    ensures source_after { source.new ≡ octets_of (source_octets rows) (message_in (slot_shape rows) plain.now) }
{
    let message = slot::message_bits(rows);
    let stuff = message + 192;
    bits::collect(&plain[0..message], source);
    bits::gather(&plain[stuff..]) as u8
}

// The codeword of a slot, read: message, BCH bits and stuff bits are left at the head of the bits' area. The areas are arrays of
// the caller's, as there is no heap, and are cut to a codeword's sizes here.
fn read_codeword(
    rows: usize,
    table: &[u16],
    mask: u32,
    register: u32,
    coded: &[u8],
    bits: &mut [u8],
    input: &mut [u8],
    sums: &mut [u8],
) -> WordRead
    requires { Held rows register table.now coded.now bits.old input.old sums.old }
    ensures { ReadWord (slot_shape rows) table.now mask register coded.now (refusal_number result.checked) (position result.checked) result.register bits.new }
{
    let end = 374 * rows;
    let positions = 374 * (120 - rows);
    word_reader::read_word(
        slot::shape(rows),
        table,
        mask,
        register,
        coded,
        bits,
        &mut input[0..end],
        &mut sums[0..positions],
    )
}

// A slot read: its stuff bits and its header and data octets where nothing refuses it, and the register after it.
pub fn read(
    rows: usize,
    table: &[u16],
    mask: u32,
    register: u32,
    coded: &[u8],
    bits: &mut [u8],
    input: &mut [u8],
    sums: &mut [u8],
    source: &mut [u8],
) -> Found
    requires { Readable rows register table.now coded.now bits.old input.old sums.old source.old }
    ensures { ReadOf rows table.now mask register coded.now source.old (refusal_number result.stuff) result.register (stuff_of result.stuff) (position result.stuff) source.new }
{
    let run = codeword::run_bits(slot::shape(rows));
    let word = read_codeword(rows, table, mask, register, coded, bits, input, sums);
    let register = word.register;
    match word.checked {
        Ok(()) => Found {
            stuff: Ok(take_source(rows, &bits[0..run], source)),
            register,
        },
        Err(refused) => Found {
            stuff: Err(refused),
            register,
        },
    }
}
