// The groups' parity tables, end to end.
ghost use Rattle.std.specs.Prelude.{◌≡◌, ◌+◌, is_some, IfSome, get_or};
ghost use Rattle.lists.specs.Parts.{part};
ghost use Rattle.plan.specs.Plans.{plan_number};
ghost use Rattle.frame.specs.Tables.{tables_ok};
ghost use Rattle.frame.specs.Needs.{Ends, Within};

use plan::Plan;

// The table of a group, which lies between two ends.
pub fn table_of<'a>(tables: &'a [u16], ends: &[usize; 9], group: usize) -> &'a [u16]
    requires { Within tables.now ends.now group }
    ensures { result.now ≡ part (get_or ends.now group 0) (get_or ends.now (group + 1) 0) tables.now }
{
    &tables[ends[group]..ends[group + 1]]
}

// Where each group's table begins and, behind them, where the last one ends; none unless each group has an accepted table and
// nothing follows.
pub fn find_tables(plan: Plan, tables: &[u16]) -> Option<[usize; 9]>
    requires { plan_number plan ≡ 0 }
    ensures value { is_some result ≡ tables_ok plan tables.now }
    ensures ends { IfSome result (λ ends. Ends plan tables.now ends) }
{
    let mut ends = [0usize; 9];
    let mut at: usize = 0;
    for g in 0..usize::from(plan.count) {
        let rows = plan::rows(u32::from(plan.rate[g]));
        let length = parity_table::table_length(rows, &tables[at..]);
        if length == 0 {
            return None;
        }
        at += length;
        ends[g + 1] = at;
    }
    if at == tables.len() {
        return Some(ends);
    }
    None
}
