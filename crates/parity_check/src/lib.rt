// The check of received LDPC parity, over the coder's columns.
#![tactic(auto)]

ghost use Rattle.std.specs.Prelude.{◌≡◌, ◌<◌, replicate};
ghost use Rattle.parity_table.specs.Tables.{positions};
ghost use Rattle.ldpc.specs.Needs.{AddedBySteps};
ghost use Rattle.parity_check.specs.Check.{lowest_wrong, next_place};
ghost use Rattle.parity_check.specs.Needs.{Received};

// The place in the columns of the position behind the one that stands at a place: in the column behind it, and behind the
// last column, which begins at edge, in the first, one place on.
fn next_place(place: usize, edge: usize) -> usize
    requires { place < 44880 }
    ensures { result ≡ next_place edge place }
{
    if edge <= place {
        place - edge + 1
    } else {
        place + 374
    }
}

// The lowest position at which the received parity is not that of the bits, or M, where the walk ends, if there is none.
// The 120 rows of a slot have 374 bits each: those of the first rows are added through their row's addresses, to sums
// that stand in columns, and each bit of the others is a parity position, whose running sum must be the bit received.
// The loops over rows, addresses and bits, left by the rows' label, are the form that document 01 names.
pub fn lowest_wrong(
    rows: usize,
    table: &[u16],
    bits: &[u8],
    received: &[u8],
    sums: &mut [u8],
) -> usize
    requires { Received rows table.now bits.now received.now sums.old }
    ensures value { result ≡ lowest_wrong rows table.now bits.now received.now }
    ensures added_by_steps { AddedBySteps rows table.now bits.now (replicate (positions rows) 0) sums.new }
{
    sums.fill(0);
    let q = 120 - rows;
    let edge = 374 * (119 - rows);
    let mut s = 0;
    let mut last: u64 = 0;
    let mut position = 0;
    let mut place = 0;
    'rows: for r in 0..120 {
        if r < rows {
            let from = s + 1;
            let to = from + usize::from(table[s]);
            let base = 374 * r;
            for address in &table[from..to] {
                ldpc::add_address(q, usize::from(*address), &bits[base..base + 374], sums);
            }
            s = to;
            continue;
        }
        for _ in 0..374usize {
            last = (last + u64::from(sums[place])) % 2;
            if last != u64::from(received[position]) {
                break 'rows;
            }
            position += 1;
            place = next_place(place, edge);
        }
    }
    position
}
