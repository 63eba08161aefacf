// Opening a frame, passing a dummy, and where a slot lies.
ghost use Rattle.std.specs.Prelude.{◌≡◌};
ghost use Rattle.lookup.specs.Lookups.{placed};
ghost use Rattle.plan.specs.States.{opened, passed};

use lookup::Placed;
use plan::{Answer, FrameState, Plan};

#[unsafe(no_mangle)]
pub extern "C" fn s3_open(plan: Plan, mask: u32, start: u32) -> Answer
    ensures { result ≡ opened plan mask start }
{
    Answer::new(plan::open(plan, mask, start), plan::no_state())
}

#[unsafe(no_mangle)]
pub extern "C" fn s3_pass(state: FrameState) -> Answer
    ensures { result ≡ passed state }
{
    Answer::new(plan::pass(state), state)
}

#[unsafe(no_mangle)]
pub extern "C" fn s3_place(plan: Plan, slot: u32) -> Placed
    ensures { result ≡ placed plan slot }
{
    Placed::from(lookup::place(plan, slot))
}
