// Header and data octets, the data slots end to end.
ghost use Rattle.std.specs.Prelude.{◌≡◌};
ghost use Rattle.plan.specs.Needs.{SlotOf};
ghost use Rattle.plan.specs.Plans.{plan_number};
ghost use Rattle.frame.specs.Frames.{octets_of_slot, source_from};

use crate::SLOTS;
use plan::Plan;

// The header and data octets of a slot; a dummy has none.
pub fn slot_octets(plan: Plan, slot: usize) -> usize
    requires { SlotOf plan slot }
    ensures { result ≡ octets_of_slot plan slot }
{
    let place = plan::place_of(plan, slot);
    if place.carries {
        return slot::source_octets(plan::rows(place.rate));
    }
    0
}

// Those of all slots.
pub fn source_length(plan: Plan) -> usize
    requires { plan_number plan ≡ 0 }
    ensures { result ≡ source_from plan 120 }
{
    let mut sum: usize = 0;
    for k in 0..SLOTS {
        sum += slot_octets(plan, k + 1);
    }
    sum
}
