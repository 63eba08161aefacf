// A frame whose slots all have one rate.
ghost use Rattle.std.specs.Prelude.{◌≤◌};
ghost use Rattle.plan.specs.Sizes.{most_source};

use plan::{FrameState, Plan};

// The dispersal register's settings.
pub const MASK: u32 = 19088743;

pub const START: u32 = 12246029;

// A frame of 32APSK, which has no dummies.
pub fn plan_of(rate: u16) -> Plan {
    plan::of_columns(
        1,
        [5, 0, 0, 0, 0, 0, 0, 0],
        [rate, 0, 0, 0, 0, 0, 0, 0],
        [120, 0, 0, 0, 0, 0, 0, 0],
    )
}

// The state at its first slot, or of zeros where there is no such rate.
pub fn opened(rate: u16) -> FrameState {
    plan::open(plan_of(rate), MASK, START).unwrap_or(plan::no_state())
}

// The header and data octets of a slot.
pub fn source_length(rate: u16) -> usize
    ensures { result ≤ most_source }
{
    22 + plan::data_octets(u32::from(rate))
}
