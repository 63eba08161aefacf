// A number as text: decimal digits, or hexadecimal ones behind 0x.
ghost use Rattle.std.specs.Prelude.{◌≡◌, length};
ghost use Rattle.lists.specs.Count.{every};
ghost use Rattle.numerals.specs.Words.{digit_at, number_in, number_text};
ghost use Rattle.numerals.specs.Needs.{Base};

use crate::digits::{digit, value};

// Whether all octets are digits of the base.
fn all_digits(base: u64, text: &[u8]) -> bool
    ensures { result ≡ every (length text.now) (digit_at base text.now) }
{
    text.iter().all(|octet| digit(*octet) < base)
}

// The number of 1 to most digits of a base, where it has at most 32 bits.
fn number_in(base: u64, most: usize, text: &[u8]) -> Option<u32>
    requires { Base base most }
    ensures { result ≡ number_in base most text.now }
{
    if (1..=most).contains(&text.len()) && all_digits(base, text) {
        u32::try_from(value(base, text, 0, text.len())).ok()
    } else {
        None
    }
}

// The number that a word says: 1 to 10 decimal digits, or 0x and 1 to 8 hexadecimal ones, at most 32 bits.
pub fn number(word: &[u8]) -> Option<u32>
    ensures { result ≡ number_text word.now }
{
    match word {
        [b'0', b'x', digits @ ..] if !digits.is_empty() => number_in(16, 8, digits),
        _ => number_in(10, 10, word),
    }
}
