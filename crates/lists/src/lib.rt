// One shared function. What every crate shares besides is in specs/: counting by index, choosing
// by a test, parts of a list, runs of bits and of octets.
#![tactic(auto)]

ghost use Rattle.std.specs.Prelude.{◌≡◌, get_or};

// The octet at a place, and 0 past the end.
pub fn octet_at(octets: &[u8], at: usize) -> u8
    ensures { result ≡ get_or octets.now at 0 }
{
    octets.get(at).copied().unwrap_or(0)
}
