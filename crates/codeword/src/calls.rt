// What a call on a codeword tests of what it is lent.
ghost use Rattle.std.specs.Prelude.{◌≡◌};
ghost use Rattle.refusal.specs.Answers.{number};
ghost use Rattle.codeword.specs.Calls.{lent_number};
ghost use Rattle.codeword.specs.Needs.{Fits};

use crate::Shape;
use refusal::Refusal;

// The refusal of the lent areas, the first of which holds the message's octets, or of the parity table.
#[tactic(auto, unfolding(crate::specs::Calls::lent_number))]
pub fn check_lent(
    shape: Shape,
    octets: usize,
    table: &[u16],
    source: &[u8],
    coded: &[u8],
) -> Result<(), Refusal>
    requires { Fits shape }
    ensures { number result ≡ lent_number shape octets table.now source.now coded.now }
{
    if source.len() != octets || coded.len() != shape.octets {
        return Err(Refusal::Length);
    }
    if !parity_table::table_ok(shape.rows, table) {
        return Err(Refusal::Table);
    }
    Ok(())
}
