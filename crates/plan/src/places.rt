// The place of a slot.
ghost use Rattle.std.specs.Prelude.{◌≡◌};
ghost use Rattle.plan.specs.Needs.{SlotOf};
ghost use Rattle.plan.specs.Places.{place_of};

use crate::groups::data_slots;
use crate::{Place, Plan};

pub fn place_of(plan: Plan, slot: usize) -> Place
    requires { SlotOf plan slot }
    ensures { result ≡ place_of plan slot }
{
    let mut g: usize = 0;
    let mut passed: usize = 0;
    let mut end = usize::from(plan.slots[0]);
    // A walk to the group that reaches the slot: a `for` would need an end that no accepted plan comes to.
    while end < slot {
        g += 1;
        passed = end;
        end = passed + usize::from(plan.slots[g]);
    }
    let filled = data_slots(plan, g);
    Place {
        group: g,
        modulation: u32::from(plan.modulation[g]),
        rate: u32::from(plan.rate[g]),
        carries: slot - 1 - passed < filled,
    }
}
