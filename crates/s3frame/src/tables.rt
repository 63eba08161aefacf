// The published parity tables, of a rate and of a plan.
ghost use Rattle.std.specs.Prelude.{◌≡◌, ◌≤◌};
ghost use Rattle.lookup.specs.Lookups.{tables_entries, tables_of, tables_number};
ghost use Rattle.published.specs.Published.{length_of, table_of, copy_number};
ghost use Rattle.refusal.specs.Answers.{Answered};

use plan::Plan;

#[unsafe(no_mangle)]
pub extern "C" fn s3_table_entries(rate: u32) -> usize
    ensures value { result ≡ length_of rate }
    ensures upper_bound { result ≤ 510 }
{
    published::table_length(rate)
}

#[unsafe(no_mangle)]
pub extern "C" fn s3_published_table(rate: u32, area: &mut [u16]) -> u8
    ensures { Answered (copy_number rate area.old) (table_of rate) area.old result area.new }
{
    refusal::number(published::copy_table(rate, area))
}

#[unsafe(no_mangle)]
pub extern "C" fn s3_tables_entries(plan: Plan) -> usize
    ensures value { result ≡ tables_entries plan }
    ensures upper_bound { result ≤ 4080 }
{
    lookup::tables_entries(plan)
}

#[unsafe(no_mangle)]
pub extern "C" fn s3_published_tables(plan: Plan, tables: &mut [u16]) -> u8
    ensures { Answered (tables_number plan tables.old) (tables_of plan) tables.old result tables.new }
{
    refusal::number(lookup::copy_tables(plan, tables))
}
