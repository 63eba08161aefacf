// The stages of coding, over lent areas with one octet a bit.
ghost use Rattle.std.specs.Prelude.{◌≡◌};
ghost use Rattle.bits.specs.Octets.{bits_of};
ghost use Rattle.codeword.specs.Words.{plain};
ghost use Rattle.slot.specs.Slots.{stuff_bits, slot_of, register_after};
ghost use Rattle.slot_coder.specs.Needs.{Plain, Coding};

// Header and data, BCH bits and stuff bits.
fn put_plain(rows: usize, source: &[u8], bits: &mut [u8])
    requires { Plain rows source.now bits.old }
    ensures { bits.new ≡ plain (bits_of source.now) stuff_bits }
{
    let (message, rest) = bits.split_at_mut(slot::message_bits(rows));
    let (check, stuff) = rest.split_at_mut(192);
    bits::expand(source, message);
    bch::of_octets(source, check);
    stuff.fill(1);
}

// The slot of header and data octets; the register after it. The areas hold a slot's bits and its parity input on the
// way.
pub fn put_slot(
    rows: usize,
    table: &[u16],
    mask: u32,
    register: u32,
    source: &[u8],
    bits: &mut [u8],
    input: &mut [u8],
    coded: &mut [u8],
) -> u32
    requires { Coding rows register table.now source.now bits.old input.old coded.old }
    ensures value { result ≡ register_after rows mask register }
    ensures coded_after { coded.new ≡ slot_of rows table.now mask register source.now }
{
    let shape = slot::shape(rows);
    let run = codeword::run_bits(shape);
    let end = 374 * rows;
    put_plain(rows, source, &mut bits[0..run]);
    word_coder::put_word(
        shape,
        table,
        mask,
        register,
        bits,
        &mut input[0..end],
        coded,
    )
}
