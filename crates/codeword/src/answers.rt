// What is told beside the number of a received word.
ghost use Rattle.std.specs.Prelude.{◌≡◌};
ghost use Rattle.codeword.specs.Reading.{as_word_answer, position_of};

use crate::{NO_POSITION, WordAnswer};
use refusal::Refusal;

// The lowest failing parity position where a word is refused for its parity, and that there is none where it is for another
// reason.
pub fn position_of(refused: Refusal) -> u16
    ensures { result ≡ position_of refused }
{
    match refused {
        Refusal::Parity(position) => position,
        _ => NO_POSITION,
    }
}

// Number and position of what a call answers.
impl From<Result<(), Refusal>> for WordAnswer {
    ghost from_gives = { λ answer told. told ≡ as_word_answer answer };

    fn from(answer: Result<(), Refusal>) -> WordAnswer {
        match answer {
            Ok(()) => WordAnswer {
                number: 0,
                position: NO_POSITION,
            },
            Err(refused) => WordAnswer {
                number: refused.number(),
                position: position_of(refused),
            },
        }
    }
}
