// The plans of whole frames, by number.
ghost use Rattle.std.specs.Prelude.{◌≤◌};

use crate::rates::{plan_of, source_length};
use plan::Plan;

// 12: the plan that document 01 works out.
fn worked() -> Plan {
    plan::of_columns(
        2,
        [4, 2, 0, 0, 0, 0, 0, 0],
        [7, 3, 0, 0, 0, 0, 0, 0],
        [115, 5, 0, 0, 0, 0, 0, 0],
    )
}

// 13: as many groups as a plan may have, with every modulation.
fn eight_groups() -> Plan {
    plan::of_columns(
        8,
        [5, 5, 4, 3, 3, 2, 1, 1],
        [11, 7, 7, 5, 1, 3, 9, 1],
        [20, 10, 30, 20, 15, 10, 10, 5],
    )
}

// 14: as many dummies as there can be.
fn most_dummies() -> Plan {
    plan::of_columns(
        1,
        [1, 0, 0, 0, 0, 0, 0, 0],
        [3, 0, 0, 0, 0, 0, 0, 0],
        [120, 0, 0, 0, 0, 0, 0, 0],
    )
}

// The plan of a number: below 12 the rate of a frame of one group without dummies.
pub fn numbered_plan(number: u16) -> Plan {
    match number {
        12 => worked(),
        13 => eight_groups(),
        14 => most_dummies(),
        _ => plan_of(number),
    }
}

// The header and data octets of its data slots. From 12 on they are added up by hand, data slots times octets of a slot:
// 92 * 4323 + 2 * 2827; 20 * 5071 + 34 * 4323 + 12 * 3762 + 10 * 1892 + 4 * 2827 + 2 * 4697; 24 * 2827.
pub fn plan_octets(number: u16) -> usize
    ensures { result ≤ 608520 }
{
    match number {
        12 => 403370,
        13 => 333168,
        14 => 67848,
        _ => 120 * source_length(number),
    }
}
