// Copying the published table of a rate.
ghost use Rattle.std.specs.Prelude.{◌≡◌, ◌-◌, ◌≤◌, true, false, MatchOption};
ghost use Rattle.lists.specs.Count.{joined};
ghost use Rattle.lists.specs.CountLaws.{joined_at};
ghost use Rattle.refusal.specs.Answers.{Answered, number};
ghost use Rattle.plan.specs.Rates.{rate_ok};
ghost use Rattle.published.specs.Published.{table_at, table_of, length_of, copy_number};

use crate::data::{STARTS, TABLES};
use refusal::Refusal;
use std::ops::Range;

// Where the table of a rate stands among all of them, if it has one.
fn place(rate: u32) -> Option<Range<usize>>
    ensures { MatchOption result (rate_ok rate ≡ false) (λ place. (rate_ok rate ≡ true) × (place.start ≡ joined_at table_at (rate - 1)) × (place.end ≡ joined_at table_at rate)) }
{
    if !plan::known(rate, plan::RATES) {
        return None;
    }
    let k = rate as usize;
    Some(STARTS[k - 1]..STARTS[k])
}

// The length of the published table of a rate; 0 for a number that is no rate's, as C is answered.
pub fn table_length(rate: u32) -> usize
    ensures value { result ≡ length_of rate }
    ensures upper_bound { result ≤ 510 }
{
    let Some(place) = place(rate) else {
        return 0;
    };
    place.len()
}

// Copies the table of a rate from all of them.
fn copy_from(tables: &[u16], rate: u32, area: &mut [u16]) -> Result<(), Refusal>
    requires { tables.now ≡ joined 11 table_at }
    ensures { Answered (copy_number rate area.old) (table_of rate) area.old (number result) area.new }
{
    let Some(place) = place(rate) else {
        return Err(Refusal::Plan);
    };
    if area.len() != place.len() {
        return Err(Refusal::Length);
    }
    area.copy_from_slice(&tables[place]);
    Ok(())
}

// Copies the published table of a rate from 1 to 11 into an area of exactly its length.
pub fn copy_table(rate: u32, area: &mut [u16]) -> Result<(), Refusal>
    ensures { Answered (copy_number rate area.old) (table_of rate) area.old (number result) area.new }
{
    let tables = TABLES;
    copy_from(&tables, rate, area)
}
