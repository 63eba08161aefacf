// The test of the lent packets.
ghost use Rattle.std.specs.Prelude.{◌≡◌};
ghost use Rattle.tlv.specs.Packets.{packets_ok};

// Whether the packets are right, end to end.
pub fn packets_ok(packets: &[u8]) -> bool
    ensures { result ≡ packets_ok packets.now }
{
    // h goes on by each packet's own size, which no iterator gives.
    let mut h: usize = 0;
    while h < packets.len() {
        if packets.len() - h < 4 || !tlv::head_ok(packets, h) {
            return false;
        }
        let size = tlv::size_at(packets, h);
        if packets.len() - h < size || !tlv::body_ok(packets, h, size) {
            return false;
        }
        h += size;
    }
    true
}
