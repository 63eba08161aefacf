// Lent slots.
ghost use Rattle.std.specs.Prelude.{◌≡◌, ◌<◌};
ghost use Rattle.tlv.specs.Calls.{slots_ok};

// Whether so many octets are slots of a size, and so many reports are theirs.
#[tactic(auto, unfolding(crate::specs::Calls::slots_ok))]
pub fn slots_ok(size: usize, octets: usize, reports: usize) -> bool
    requires { 0 < size }
    ensures { result ≡ slots_ok size octets reports }
{
    octets != 0 && octets % size == 0 && reports == octets / size
}
