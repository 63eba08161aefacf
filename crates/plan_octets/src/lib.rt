// Plans as octets: modulation, rate and slots of each group, an octet each.
#![tactic(auto)]

ghost use Rattle.std.specs.Prelude.{◌≡◌, ◌<◌};
ghost use Rattle.plan_octets.specs.Groups.{column, of_octets, group_of, groups_of};
ghost use Rattle.plan_octets.specs.Needs.{GroupRoom, Room};

use plan::Plan;

// One of the three octets of each of eight groups.
fn column_of(octets: &[u8], k: usize) -> [u16; 8]
    requires { k < 3 }
    ensures { result ≡ column k octets.now }
{
    std::array::from_fn(|g| u16::from(lists::octet_at(octets, 3 * g + k)))
}

// The plan of so many groups, from their octets.
pub fn of_octets(count: u16, octets: &[u8]) -> Plan
    ensures { result ≡ of_octets count octets.now }
{
    let modulation = column_of(octets, 0);
    let rate = column_of(octets, 1);
    let slots = column_of(octets, 2);
    plan::of_columns(count, modulation, rate, slots)
}

// Puts the octets of a group, and zeros behind the last group.
fn put_group(plan: Plan, g: usize, octets: &mut [u8])
    requires { GroupRoom plan g octets.old }
    ensures { octets.new ≡ group_of plan g }
{
    if g < usize::from(plan.count) {
        octets[0] = plan.modulation[g] as u8;
        octets[1] = plan.rate[g] as u8;
        octets[2] = plan.slots[g] as u8;
    } else {
        octets.fill(0);
    }
}

// Puts the octets of eight groups, by a group's number: what `chunks_exact_mut` lends is not known behind a loop.
pub fn put_groups(plan: Plan, octets: &mut [u8])
    requires { Room plan octets.old }
    ensures { octets.new ≡ groups_of plan }
{
    for g in 0..8 {
        put_group(plan, g, &mut octets[3 * g..3 * g + 3]);
    }
}
