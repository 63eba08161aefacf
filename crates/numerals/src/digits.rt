// Digits, and the number that a run of them makes.
ghost use Rattle.std.specs.Prelude.{◌≡◌};
ghost use Rattle.numerals.specs.Needs.{Digits};
ghost use Rattle.numerals.specs.Numerals.{digit_of, value_of};

// The value of a digit, or 16 where the octet is none. No base here has a digit 16, so one comparison with the base
// tests an octet; an `Option` would have to be unwrapped at each digit of a sum.
#[tactic(auto, using(std::proofs::lemmas::Bool::Decides::nat_tests), unfolding(crate::specs::Numerals::digit_of))]
pub fn digit(octet: u8) -> u64
    ensures { result ≡ digit_of octet }
{
    match octet {
        b'0'..=b'9' => u64::from(octet - b'0'),
        b'a'..=b'f' => u64::from(octet - b'a' + 10),
        b'A'..=b'F' => u64::from(octet - b'A' + 10),
        _ => 16,
    }
}

// The number that the digits from a place on make.
pub fn value(base: u64, text: &[u8], at: usize, count: usize) -> u64
    requires { Digits base text.now at count }
    ensures { result ≡ value_of base text.now at count }
{
    let mut made: u64 = 0;
    for k in 0..count {
        made = made * base + digit(lists::octet_at(text, at + k));
    }
    made
}
