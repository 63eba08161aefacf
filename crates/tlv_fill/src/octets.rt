// The octets of the slots: owed ones, those of packets, fillers.
ghost use Rattle.std.specs.Prelude.{◌≡◌, ◌≤◌, ◌+◌, ◌-◌, ◌%◌, length, get_or};
ghost use Rattle.lists.specs.Count.{table};
ghost use Rattle.tlv.specs.Fill.{filler, filled, lacking};
ghost use Rattle.tlv_fill.specs.Needs.{LayNeeds};

// An empty null packet.
const FILLER: [u8; 4] = [0x7F, 0xFF, 0x00, 0x00];

// The octets that a cut filler lacks, of m octets of fillers.
pub fn lacking(m: usize) -> usize
    ensures { result ≡ lacking m }
{
    (4 - m % 4) % 4
}

// Fillers without end, from octet `from` of the first on, as far as there is room.
fn put_fillers(from: usize, to: &mut [u8])
    requires { from ≤ 4 }
    ensures { to.new ≡ table (length to.old) (λ i. get_or filler ((from + i) % 4) 0) }
{
    // The remainder by 4 is a mask; `cycle` and `skip` would be no plainer.
    for (i, octet) in to.iter_mut().enumerate() {
        *octet = FILLER[(from + i) % 4];
    }
}

// The slots' octets.
pub fn lay(packets: &[u8], taken: usize, owed: usize, slots: &mut [u8])
    requires { LayNeeds packets.now taken owed slots.old }
    ensures { slots.new ≡ filled packets.now taken owed (length slots.old) }
{
    let carried = (packets.len() - taken).min(slots.len() - owed);
    let (front, rest) = slots.split_at_mut(owed);
    let (middle, back) = rest.split_at_mut(carried);
    put_fillers(4 - owed, front);
    bits::copy(&packets[taken..taken + carried], middle);
    put_fillers(0, back);
}
