// Head and body of a packet.
ghost use Rattle.std.specs.Prelude.{◌≡◌, ◌+◌, ◌≤◌, ◌<◌, length};
ghost use Rattle.tlv.specs.Packets.{octets, type_ok, head_ok, size_at, body_ok};

use crate::NULL;

// The octet that a head begins with.
const MARK: u8 = 0x7F;

// Whether a type is known.
#[tactic(auto, unfolding(crate::specs::Packets::type_ok))]
fn type_ok(kind: u8) -> bool
    ensures { result ≡ type_ok kind }
{
    matches!(kind, 0x01 | 0x02 | 0x03 | 0xFE | NULL)
}

// Whether the head at p is right.
#[tactic(auto, unfolding(crate::specs::Packets::head_ok))]
pub fn head_ok(lent: &[u8], p: usize) -> bool
    requires { p + 4 ≤ length lent.now }
    ensures { result ≡ head_ok (octets lent.now) p }
{
    lent[p] == MARK && type_ok(lent[p + 1])
}

// The octets of head and body.
#[tactic(auto, unfolding(crate::specs::Packets::size_at))]
pub fn size_at(lent: &[u8], p: usize) -> usize
    requires { p + 4 ≤ length lent.now }
    ensures { (result ≡ size_at (octets lent.now) p) × (result < 65540) }
{
    4 + usize::from(u16::from_be_bytes([lent[p + 2], lent[p + 3]]))
}

// Whether a null's body is right; other bodies are.
pub fn body_ok(lent: &[u8], p: usize, size: usize) -> bool
    requires { (p + size ≤ length lent.now) × (size ≡ size_at (octets lent.now) p) × (4 ≤ size) }
    ensures { result ≡ body_ok (octets lent.now) p }
{
    lent[p + 1] != NULL || lent[p + 4..p + size].iter().all(|octet| *octet == NULL)
}
