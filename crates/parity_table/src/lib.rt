// The form of a parity table that is lent: for each row a count and as many addresses.
// With R rows there are M = 374 * (120 - R) parity positions, and the addresses are below M.
#![tactic(auto)]

ghost use Rattle.std.specs.Prelude.{◌≡◌, ◌+◌, ◌<◌, length};
ghost use Rattle.parity_table.specs.Tables.{address_ok, row_ok, table_ok, table_length};
ghost use Rattle.parity_table.specs.Needs.{Rows};

// Whether the address at from + i is below m and differs from the i before it.
fn address_ok(m: usize, table: &[u16], from: usize, i: usize) -> bool
    requires { from + i < length table.now }
    ensures { result ≡ address_ok m table.now from i }
{
    let address = table[from + i];
    usize::from(address) < m && !table[from..from + i].contains(&address)
}

// Whether a row with addresses below m stands at s.
fn row_ok(m: usize, table: &[u16], s: usize) -> bool
    ensures { result ≡ row_ok m table.now s }
{
    let Some(&first) = table.get(s) else {
        return false;
    };
    let count = usize::from(first);
    let from = s + 1;
    (1..=16).contains(&count)
        && count <= table.len() - from
        && (0..count).all(|i| address_ok(m, table, from, i))
}

// The length of the accepted table at the head of a list, or 0 where none stands there: what the walk over a frame's tables
// goes on by.
pub fn table_length(rows: usize, list: &[u16]) -> usize
    requires { Rows rows }
    ensures { result ≡ table_length rows list.now }
{
    let m = 374 * (120 - rows);
    let mut s = 0;
    for _ in 0..rows {
        if !row_ok(m, list, s) {
            return 0;
        }
        s += 1 + usize::from(list[s]);
    }
    s
}

// Whether the list is an accepted table and nothing more.
pub fn table_ok(rows: usize, table: &[u16]) -> bool
    requires { Rows rows }
    ensures { result ≡ table_ok rows table.now }
{
    let length = table_length(rows, table);
    length != 0 && length == table.len()
}
