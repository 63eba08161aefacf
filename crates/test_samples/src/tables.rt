// The published tables of a plan.
ghost use Rattle.std.specs.Prelude.{◌≡◌, ◌≤◌, length};

use plan::Plan;

// Puts the published tables of a plan's groups end to end at the head of an area that holds those of any plan; their length.
pub fn put_tables(plan: Plan, area: &mut [u16]) -> usize
    requires { length area.old ≡ 4080 }
    ensures { result ≤ 4080 }
{
    let end = lookup::tables_entries(plan);
    match lookup::copy_tables(plan, &mut area[..end]) {
        Ok(()) => end,
        Err(_) => 0,
    }
}
