// Numbers in octets, the highest octet first, and what is asked of runs of octets. A run is a field of one to four octets cut
// from a block, so that its length is asked for: an array would fix one size.
#![tactic(auto)]

ghost use Rattle.std.specs.Prelude.{◌≡◌, ◌≤◌, length};
ghost use Rattle.octet_numbers.specs.Numbers.{big_endian, number_of, sum_of, all_zero};
ghost use Rattle.octet_numbers.specs.Needs.{Digits};

// The number of octets, by way of their digits.
fn gathered(octets: &[u8], digits: &mut [u8]) -> u64
    requires { Digits octets.now digits.old }
    ensures { result ≡ number_of (length octets.now) octets.now }
{
    bits::expand(octets, digits);
    bits::gather(digits)
}

// The number of at most four octets.
pub fn number_of(octets: &[u8]) -> u32
    requires { length octets.now ≤ 4 }
    ensures { result ≡ number_of (length octets.now) octets.now }
{
    let mut digits = [0u8; 32];
    gathered(octets, &mut digits[..8 * octets.len()]) as u32
}

// Puts a number into octets, by way of its digits.
fn spread(x: u64, digits: &mut [u8], octets: &mut [u8])
    requires { Digits octets.old digits.old }
    ensures { octets.new ≡ big_endian (length octets.old) x }
{
    bits::spread(x, digits);
    bits::collect(digits, octets);
}

// Puts a number into at most four octets.
pub fn put_number(x: u32, octets: &mut [u8])
    requires { length octets.old ≤ 4 }
    ensures { octets.new ≡ big_endian (length octets.old) x }
{
    let mut digits = [0u8; 32];
    spread(u64::from(x), &mut digits[..8 * octets.len()], octets);
}

// The sum of at most 512 octets modulo 65,536.
pub fn sum_of(octets: &[u8]) -> u32
    requires { length octets.now ≤ 512 }
    ensures { result ≡ sum_of octets.now }
{
    octets.iter().map(|octet| u32::from(*octet)).sum::<u32>() % 65536
}

// Whether all octets are zeros.
pub fn all_zero(octets: &[u8]) -> bool
    ensures { result ≡ all_zero octets.now }
{
    octets.iter().all(|octet| *octet == 0)
}
