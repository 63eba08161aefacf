// The work on packets: their first octets tested, left out and put back.
ghost use Rattle.std.specs.Prelude.{◌≡◌, ◌*◌, length};
ghost use Rattle.lists.specs.Count.{every};
ghost use Rattle.packets.specs.Needs.{OfPackets};
ghost use Rattle.packets.specs.Packets.{packed, unpacked, begins_sync};

// The first octet of a TS packet.
const SYNC_OCTET: u8 = 0x47;

// Whether each packet begins with the sync octet.
pub fn syncs_ok(count: usize, packets: &[u8]) -> bool
    requires { length packets.now ≡ 188 * count }
    ensures { result ≡ every count (begins_sync packets.now) }
{
    (0..count).all(|i| packets[188 * i] == SYNC_OCTET)
}

// The packets without their first octets, end to end. The loops go by a packet's number: what `chunks_exact_mut` lends is
// not known behind a loop.
pub fn leave_out(count: usize, packets: &[u8], octets: &mut [u8])
    requires { OfPackets count packets.now octets.old }
    ensures { octets.new ≡ packed count packets.now }
{
    for i in 0..count {
        let rest = &packets[188 * i + 1..188 * (i + 1)];
        bits::copy(rest, &mut octets[187 * i..187 * (i + 1)]);
    }
}

// The packets again, each with the sync octet in front.
pub fn put_back(count: usize, octets: &[u8], packets: &mut [u8])
    requires { OfPackets count packets.old octets.now }
    ensures { packets.new ≡ unpacked count octets.now }
{
    for i in 0..count {
        let rest = &octets[187 * i..187 * (i + 1)];
        packets[188 * i] = SYNC_OCTET;
        bits::copy(rest, &mut packets[188 * i + 1..188 * (i + 1)]);
    }
}
