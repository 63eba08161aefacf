// Numbers and octets as bits, highest first. Bits are stored by index: of what is written through iter_mut().rev() or
// chunks_exact_mut a proof knows the length alone.
ghost use Rattle.std.specs.Prelude.{◌≡◌, ◌*◌, length};
ghost use Rattle.bits.specs.Digits.{digits, number};
ghost use Rattle.bits.specs.Octets.{bits_of, octets_of};
ghost use Rattle.bits.specs.Needs.{OfBits, Packed};

// The lowest digits of x, as many as bits has places.
pub fn spread(x: u64, bits: &mut [u8])
    ensures { bits.new ≡ digits (length bits.old) x }
{
    let mut rest = x;
    for k in (0..bits.len()).rev() {
        bits[k] = (rest % 2) as u8;
        rest /= 2;
    }
}

// The number that the bits make.
pub fn gather(bits: &[u8]) -> u64
    requires { OfBits 63 bits.now }
    ensures { result ≡ number (length bits.now) bits.now }
{
    let mut made: u64 = 0;
    for bit in bits {
        made = made * 2 + u64::from(*bit);
    }
    made
}

// The bits of the octets.
pub fn expand(octets: &[u8], bits: &mut [u8])
    requires { length bits.old ≡ 8 * length octets.now }
    ensures { bits.new ≡ bits_of octets.now }
{
    for (i, octet) in octets.iter().enumerate() {
        spread(u64::from(*octet), &mut bits[8 * i..8 * i + 8]);
    }
}

// The octets of the bits.
pub fn collect(bits: &[u8], octets: &mut [u8])
    requires { Packed bits.now octets.old }
    ensures { octets.new ≡ octets_of (length octets.old) bits.now }
{
    for (i, eight) in bits.chunks_exact(8).enumerate() {
        octets[i] = gather(eight) as u8;
    }
}
