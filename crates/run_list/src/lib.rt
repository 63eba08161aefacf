// The list of a plan's runs, written, and the whole answer of plan-list.
#![tactic(auto)]

ghost use Rattle.std.specs.Prelude.{[], ◌≡◌, eqb, leb, length};
ghost use Rattle.lists.specs.Choice.{pick};
ghost use Rattle.lists.specs.Count.{joined};
ghost use Rattle.lists.specs.Parts.{put};
ghost use Rattle.plan.specs.Plans.{plan_number};
ghost use Rattle.texts.specs.Needs.{Number};
ghost use Rattle.texts.specs.Written.{Written};
ghost use Rattle.run_list.specs.Listing.{run_line, group_text, data_total, total_line, list_text, listed, as_listed, refused_text, answer_text};
ghost use Rattle.run_list.specs.Needs.{Taken, RunLine, GroupLines, PlanLines, Totals, ListArea};

use plan::Plan;
use refusal::Refusal;
use texts::{put_decimal, put_field, put_text};

// The slots of a run, from the first to the last, with their group's modulation and rate.
#[derive(Clone, Copy)]
struct Run {
    from: usize,
    to: usize,
    modulation: usize,
    rate: usize,
}

// The line of a run, which a run without slots has not.
#[tactic(auto, using(texts::specs::DecimalLaws::length_field))]
fn write_run(out: &mut [u8], at: usize, run: Run, word: &[u8]) -> usize
    requires { RunLine run.from run.to run.modulation run.rate at word.now out.old }
    ensures { Written (pick (leb run.from run.to) (run_line run.from run.to run.modulation run.rate word.now) []) at out.old out.new result }
{
    if run.to < run.from {
        return at;
    }
    let last = put_field(out, at, run.from);
    let third = put_field(out, last, run.to);
    let fourth = put_field(out, third, run.modulation);
    let fifth = put_field(out, fourth, run.rate);
    put_text(out, fifth, word)
}

// The lines of group g, before which the groups passed have their slots.
#[tactic(auto, using(crate::proofs::Sizes::sizes))]
fn write_group(out: &mut [u8], at: usize, plan: Plan, g: usize, passed: usize) -> usize
    requires { GroupLines plan g passed at out.old }
    ensures { Written (group_text plan g) at out.old out.new result }
{
    let slots = usize::from(plan.slots[g]);
    let modulation = usize::from(plan.modulation[g]);
    let rate = usize::from(plan.rate[g]);
    let filled = passed + plan::data_slots(plan, g);
    let carried = Run {
        from: passed + 1,
        to: filled,
        modulation,
        rate,
    };
    let dummies = Run {
        from: filled + 1,
        to: passed + slots,
        modulation,
        rate,
    };
    let next = write_run(out, at, carried, b"data\n");
    write_run(out, next, dummies, b"dummy\n")
}

#[tactic(auto, using(crate::proofs::Sizes::sizes))]
fn write_groups(out: &mut [u8], at: usize, plan: Plan) -> usize
    requires { PlanLines plan at out.old }
    ensures { Written (joined plan.count (group_text plan)) at out.old out.new result }
{
    let mut passed: usize = 0;
    let mut next = at;
    for g in 0..usize::from(plan.count) {
        next = write_group(out, next, plan, g, passed);
        passed += usize::from(plan.slots[g]);
    }
    next
}

// The data slots of all groups. Three crates add up numbers of groups or slots so: a function that takes the number's closure
// would be no shorter.
fn data_total(plan: Plan) -> usize
    requires { plan_number plan ≡ 0 }
    ensures { result ≡ data_total plan }
{
    let mut sum: usize = 0;
    for g in 0..usize::from(plan.count) {
        sum += plan::data_slots(plan, g);
    }
    sum
}

#[tactic(auto, using(texts::specs::DecimalLaws::length_field))]
fn write_total(out: &mut [u8], at: usize, data: usize, dummies: usize) -> usize
    requires { Totals «data» dummies at out.old }
    ensures { Written (total_line «data» dummies) at out.old out.new result }
{
    let first = put_text(out, at, b"total ");
    let word = put_field(out, first, data);
    let second = put_text(out, word, b"data ");
    let last = put_field(out, second, dummies);
    put_text(out, last, b"dummy\n")
}

// The list of an accepted plan.
fn write_all(out: &mut [u8], plan: Plan) -> usize
    requires { ListArea plan out.old }
    ensures { Written (list_text plan) 0 out.old out.new result }
{
    let groups = put_text(out, 0, b"first last mod rate kind\n");
    let total = write_groups(out, groups, plan);
    let data = data_total(plan);
    write_total(out, total, data, 120 - data)
}

#[tactic(auto, using(texts::specs::DecimalLaws::length_decimal))]
fn write_refusal(out: &mut [u8], number: usize) -> usize
    requires { Number number 16 out.old }
    ensures { Written (refused_text number) 0 out.old out.new result }
{
    let first = put_text(out, 0, b"refused ");
    let last = put_decimal(out, first, number);
    put_text(out, last, b"\n")
}

// Writes the list of a plan and answers how many octets it takes, or the plan's refusal, with the area as it was.
#[tactic(auto, using(refusal::specs::AnswerLaws::refused_not_0), unfolding(crate::specs::Listing::listed))]
pub fn write_list(plan: Plan, out: &mut [u8; 512]) -> Result<usize, Refusal>
    ensures value { as_listed result ≡ listed plan }
    ensures out_after { out.new ≡ pick (eqb (plan_number plan) 0) (put 0 (list_text plan) out.old) out.old }
{
    plan::check_plan(plan)?;
    Ok(write_all(out, plan))
}

// What plan-list prints for a text: the list of its plan, or the line of its refusal; and how many octets that takes. The
// last clause follows from the others; with it `&out[..n]` needs no proof from a caller.
pub fn answer(text: &[u8], out: &mut [u8; 512]) -> usize
    ensures value { result ≡ length (answer_text text.now) }
    ensures out_after { out.new ≡ put 0 (answer_text text.now) out.old }
    ensures taken { Taken result out.new }
{
    match plan_text::read_plan(text) {
        Ok(plan) => write_all(out, plan),
        Err(refused) => write_refusal(out, usize::from(refused.number())),
    }
}
