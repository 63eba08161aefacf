// The rules of a plan, each tested over the whole of it: number of groups, values, order, total. A plan as callers have it may
// hold any count, so that each rule asks for what the rules before it have shown.
ghost use Rattle.std.specs.Prelude.{◌≡◌, ◌+◌, ◌≤◌, ◌<◌};
ghost use Rattle.refusal.specs.Answers.{number};
ghost use Rattle.plan.specs.Plans.{slots_before, values_ok, falls_after, all_values_ok, all_fall, rule_number, plan_number, data_slots_of};

use crate::Plan;
use crate::rates::{MODULATIONS, RATES, known};
use refusal::Refusal;

#[tactic(auto, unfolding(crate::specs::Plans::values_ok))]
fn values_ok(plan: Plan, g: usize) -> bool
    requires { g < 8 }
    ensures { result ≡ values_ok plan g }
{
    known(u32::from(plan.modulation[g]), MODULATIONS)
        && known(u32::from(plan.rate[g]), RATES)
        && 1 <= plan.slots[g]
        && plan.slots[g] % 5 == 0
}

#[tactic(auto, using(lists::specs::CountLaws::every_none, lists::specs::CountLaws::every_next, lists::specs::CountLaws::every_not))]
fn all_values_ok(plan: Plan) -> bool
    requires { plan.count ≤ 8 }
    ensures { result ≡ all_values_ok plan }
{
    for g in 0..usize::from(plan.count) {
        if !values_ok(plan, g) {
            return false;
        }
    }
    true
}

// Whether group g + 1 falls below group g.
#[tactic(auto, unfolding(crate::specs::Plans::falls_after))]
fn falls_after(plan: Plan, g: usize) -> bool
    requires { g + 1 < 8 }
    ensures { result ≡ falls_after plan g }
{
    let modulation = plan.modulation[g];
    let lower = plan.modulation[g + 1];
    lower < modulation || lower == modulation && plan.rate[g + 1] < plan.rate[g]
}

#[tactic(auto, using(lists::specs::CountLaws::every_none, lists::specs::CountLaws::every_next, lists::specs::CountLaws::every_not))]
fn all_fall(plan: Plan) -> bool
    requires { plan.count ≤ 8 }
    ensures { result ≡ all_fall plan }
{
    for g in 1..usize::from(plan.count) {
        if !falls_after(plan, g - 1) {
            return false;
        }
    }
    true
}

// The slots of group g that carry data.
#[tactic(auto, unfolding(crate::specs::Plans::data_slots_of))]
pub fn data_slots(plan: Plan, g: usize) -> usize
    requires { g < 8 }
    ensures { result ≡ data_slots_of plan g }
{
    usize::from(plan.slots[g]) * usize::from(plan.modulation[g]) / 5
}

// The slots of all groups.
#[tactic(auto, using(crate::proofs::PlanLaws::before_none, crate::proofs::PlanLaws::before_more))]
fn total(plan: Plan) -> usize
    requires { plan.count ≤ 8 }
    ensures { result ≡ slots_before plan plan.count }
{
    let mut sum: usize = 0;
    for g in 0..usize::from(plan.count) {
        sum += usize::from(plan.slots[g]);
    }
    sum
}

// The first of these rules that does not hold.
fn check_rules(values: bool, order: bool, whole: bool) -> Result<(), Refusal>
    ensures { number result ≡ rule_number values order whole }
{
    if !values {
        return Err(Refusal::Value);
    }
    if !order {
        return Err(Refusal::Order);
    }
    if !whole {
        return Err(Refusal::Total);
    }
    Ok(())
}

// The refusal of the first rule that a plan breaks.
#[tactic(auto, unfolding(crate::specs::Plans::plan_number, crate::specs::Plans::groups_ok))]
pub fn check_plan(plan: Plan) -> Result<(), Refusal>
    ensures { number result ≡ plan_number plan }
{
    if !known(u32::from(plan.count), 8) {
        return Err(Refusal::Plan);
    }
    let values = all_values_ok(plan);
    let order = all_fall(plan);
    let whole = total(plan) == 120;
    check_rules(values, order, whole)
}
