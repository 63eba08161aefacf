// The published parity tables of a plan's groups, end to end.
ghost use Rattle.std.specs.Prelude.{◌≡◌, ◌≤◌, length};
ghost use Rattle.refusal.specs.Answers.{Answered, number};
ghost use Rattle.plan.specs.Plans.{plan_number};
ghost use Rattle.lookup.specs.Needs.{Tables};
ghost use Rattle.lookup.specs.Lookups.{tables_of, tables_entries, tables_number};

use plan::Plan;
use refusal::Refusal;

// How many numbers the tables of an accepted plan have.
fn entries(plan: Plan) -> usize
    requires { plan_number plan ≡ 0 }
    ensures { result ≡ length (tables_of plan) }
{
    let mut sum: usize = 0;
    for g in 0..usize::from(plan.count) {
        sum += published::table_length(u32::from(plan.rate[g]));
    }
    sum
}

// The same of any plan; 0 where it is refused, as C is answered.
#[tactic(auto, using(refusal::specs::AnswerLaws::refused_not_0, crate::proofs::LookupLaws::tables_few), unfolding(crate::specs::Lookups::tables_entries))]
pub fn tables_entries(plan: Plan) -> usize
    ensures value { result ≡ tables_entries plan }
    ensures upper_bound { result ≤ 4080 }
{
    if plan::check_plan(plan).is_err() {
        return 0;
    }
    entries(plan)
}

// Puts the tables of an accepted plan, whose rates are known, into an area of their length.
fn put_tables(plan: Plan, tables: &mut [u16])
    requires { Tables plan tables.old }
    ensures { tables.new ≡ tables_of plan }
{
    let mut at: usize = 0;
    for g in 0..usize::from(plan.count) {
        let rate = u32::from(plan.rate[g]);
        let end = at + published::table_length(rate);
        published::copy_table(rate, &mut tables[at..end]).unwrap();
        at = end;
    }
}

// The refusal of the plan, or of an area that has not the tables' length.
#[tactic(auto, using(refusal::specs::AnswerLaws::refused_not_0), unfolding(crate::specs::Lookups::tables_number))]
fn check_tables(plan: Plan, room: &[u16]) -> Result<(), Refusal>
    ensures { number result ≡ tables_number plan room.now }
{
    plan::check_plan(plan)?;
    if room.len() != entries(plan) {
        return Err(Refusal::Length);
    }
    Ok(())
}

// Copies the tables of a plan into an area of exactly their length; a refusal leaves the area as it was.
#[tactic(auto, using(refusal::specs::AnswerLaws::refused_by))]
pub fn copy_tables(plan: Plan, tables: &mut [u16]) -> Result<(), Refusal>
    ensures { Answered (tables_number plan tables.old) (tables_of plan) tables.old (number result) tables.new }
{
    check_tables(plan, tables)?;
    put_tables(plan, tables);
    Ok(())
}
