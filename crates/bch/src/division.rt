// Division by the generator: a remainder in three words, and eight message bits more.
ghost use Rattle.std.specs.Prelude.{◌≡◌, ◌*◌, ◌^◌};
ghost use Rattle.bch.specs.Polynomials.{◌⊕◌};
ghost use Rattle.bch.specs.Division.{remainder};
ghost use Rattle.bch.specs.Bch.{generator};
ghost use Rattle.bch.specs.Words.{worth};
ghost use Rattle.bch.specs.Needs.{Entry};

// A polynomial of a degree below 192, highest powers first.
#[derive(Clone, Copy)]
pub struct Words {
    pub high: u64,
    pub middle: u64,
    pub low: u64,
}

// Where every division begins: the remainder of no message.
pub const NONE: Words = Words {
    high: 0,
    middle: 0,
    low: 0,
};

// The remainder of a message with eight bits more behind it, from the remainder before them. The eight terms that
// the shift moves out at the top are divided together with the new bits.
pub fn advance(table: &[Words; 256], rest: Words, octet: u64) -> Words
    requires { Entry table.now octet }
    ensures { worth result ≡ remainder 192 generator 8 (worth rest * 2 ^ 8 ⊕ octet * 2 ^ 192) }
{
    let out = (rest.high >> 56) ^ octet;
    let taken = table[out as usize];
    Words {
        high: ((rest.high << 8) ^ (rest.middle >> 56)) ^ taken.high,
        middle: ((rest.middle << 8) ^ (rest.low >> 56)) ^ taken.middle,
        low: (rest.low << 8) ^ taken.low,
    }
}
