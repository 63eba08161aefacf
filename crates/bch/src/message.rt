// The BCH bits of a message of octets, and of a message of bits: two loops, since octets stand as they are, and eights of bits
// have to be gathered.
ghost use Rattle.std.specs.Prelude.{◌≡◌, length};
ghost use Rattle.bits.specs.Digits.{digits};
ghost use Rattle.bits.specs.Octets.{bits_of};
ghost use Rattle.bits.specs.Same.{same};
ghost use Rattle.bch.specs.Division.{remainder_of};
ghost use Rattle.bch.specs.Bch.{generator, bch_bits};
ghost use Rattle.bch.specs.Words.{worth, Table};
ghost use Rattle.bch.specs.Needs.{Divided, Message, Received};

use crate::division::Words;
use crate::{division, table};

// The remainder of a message of octets.
fn divide_octets(table: &[Words; 256], octets: &[u8]) -> Words
    requires { Table table.now }
    ensures { worth result ≡ remainder_of 192 generator (bits_of octets.now) }
{
    let mut rest = division::NONE;
    for octet in octets {
        rest = division::advance(table, rest, u64::from(*octet));
    }
    rest
}

// The remainder of a message of bits. The bits before the whole eights, less than eight, go first, as the low bits
// of an octet: zeros in front of a message change nothing.
fn divide_bits(table: &[Words; 256], run: &[u8]) -> Words
    requires { Divided table.now run.now }
    ensures { worth result ≡ remainder_of 192 generator run.now }
{
    let (few, eights) = run.split_at(run.len() % 8);
    let mut rest = division::advance(table, division::NONE, bits::gather(few));
    for eight in eights.chunks_exact(8) {
        rest = division::advance(table, rest, bits::gather(eight));
    }
    rest
}

// The 192 coefficients of a remainder, highest power first.
fn put(rest: Words, bch: &mut [u8])
    requires { length bch.old ≡ 192 }
    ensures { bch.new ≡ digits 192 (worth rest) }
{
    bits::spread(rest.high, &mut bch[0..64]);
    bits::spread(rest.middle, &mut bch[64..128]);
    bits::spread(rest.low, &mut bch[128..192]);
}

// The BCH bits of a message of octets, one octet for each bit.
pub fn of_octets(octets: &[u8], bch: &mut [u8])
    requires { length bch.old ≡ 192 }
    ensures { bch.new ≡ bch_bits (bits_of octets.now) }
{
    let table = table::remainders();
    put(divide_octets(&table, octets), bch);
}

// The BCH bits of a message of bits, whatever their number.
pub fn of_bits(run: &[u8], bch: &mut [u8])
    requires { Message run.now bch.old }
    ensures { bch.new ≡ bch_bits run.now }
{
    let table = table::remainders();
    put(divide_bits(&table, run), bch);
}

// Whether the received bits are the BCH bits of the message.
pub fn right(run: &[u8], received: &[u8]) -> bool
    requires { Received run.now received.now }
    ensures { result ≡ same (bch_bits run.now) received.now }
{
    let mut made = [0u8; 192];
    of_bits(run, &mut made);
    bits::same_run(&made, received)
}
