// The lone parity check.
#![tactic(auto)]

ghost use Rattle.std.specs.Prelude.{◌≡◌};
ghost use Rattle.refusal.specs.Answers.{number};
ghost use Rattle.codeword.specs.Reading.{as_word_answer};
ghost use Rattle.slot.specs.Reading.{checked_answer};
ghost use Rattle.slot.specs.Calls.{form_number, check_answer};
ghost use Rattle.slot.specs.Areas.{Checked};

use refusal::Refusal;

// The refusal of the rate, of the slot's length or of the table.
#[tactic(auto, unfolding(slot::specs::Calls::form_number))]
fn check_form(rate: u32, table: &[u16], coded: &[u8]) -> Result<(), Refusal>
    ensures { number result ≡ form_number rate table.now coded.now }
{
    if !plan::known(rate, plan::RATES) {
        return Err(Refusal::Plan);
    }
    if coded.len() != plan::SLOT_OCTETS {
        return Err(Refusal::Length);
    }
    if !parity_table::table_ok(plan::rows(rate), table) {
        return Err(Refusal::Table);
    }
    Ok(())
}

// Checks the parity of a received slot. The areas hold the slot's bits, its parity input and its sums; they are arrays of the
// caller's, as there is no heap.
fn checked(
    rows: usize,
    table: &[u16],
    coded: &[u8],
    bits: &mut [u8],
    input: &mut [u8],
    sums: &mut [u8],
) -> Result<(), Refusal>
    requires { Checked rows table.now coded.now bits.old input.old sums.old }
    ensures { as_word_answer result ≡ checked_answer rows table.now coded.now }
{
    let shape = slot::shape(rows);
    let end = 374 * rows;
    let positions = 374 * (120 - rows);
    let wrong = word_reader::wrong_position(
        shape,
        table,
        coded,
        bits,
        &mut input[0..end],
        &mut sums[0..positions],
    );
    word_reader::check_parity(shape, wrong)
}

// Checks the parity of a slot of a rate, whatever its dispersal.
#[tactic(auto, using(crate::specs::FormLaws::form_refused))]
pub fn check_parity(rate: u32, table: &[u16], coded: &[u8]) -> Result<(), Refusal>
    ensures { as_word_answer result ≡ check_answer rate table.now coded.now }
{
    check_form(rate, table, coded)?;
    let mut bits = [0u8; plan::SLOT_BITS];
    let mut input = [0u8; plan::SLOT_BITS];
    let mut sums = [0u8; plan::MOST_PARITY];
    checked(
        plan::rows(rate),
        table,
        coded,
        &mut bits,
        &mut input,
        &mut sums,
    )
}
