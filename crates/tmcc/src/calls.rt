// What both calls test: settings, lengths, table.
ghost use Rattle.std.specs.Prelude.{◌≡◌};
ghost use Rattle.refusal.specs.Answers.{number};
ghost use Rattle.tmcc.specs.Calls.{lent_number};

use crate::{SOURCE_OCTETS, shape};
use refusal::Refusal;

// The refusal of the settings, of a lent area's length or of the parity table.
#[tactic(auto, using(crate::proofs::BlockLaws::fits), unfolding(crate::specs::Calls::lent_number))]
pub fn check_lent(
    mask: u32,
    start: u32,
    table: &[u16],
    source: &[u8],
    block: &[u8],
) -> Result<(), Refusal>
    ensures { number result ≡ lent_number mask start table.now source.now block.now }
{
    if !dispersal::settings_ok(plan::BLOCK_WIDTH, mask, start) {
        return Err(Refusal::Register);
    }
    codeword::check_lent(shape(), SOURCE_OCTETS, table, source, block)
}
