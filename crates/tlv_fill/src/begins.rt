// The reports: where the first packet or filler of each slot begins.
ghost use Rattle.std.specs.Prelude.{◌≡◌, ◌≤◌, ltb, length};
ghost use Rattle.lists.specs.Choice.{pick};
ghost use Rattle.tlv.specs.Fill.{reports};
ghost use Rattle.tlv_fill.specs.Needs.{MarkNeeds};
ghost use Rattle.tlv_fill.specs.BeginTurns.{Ahead, AheadNeeds};

use crate::octets::lacking;

// The first beginning at or behind `target`, in the packets and the fillers behind them, from the beginning at h on.
fn first_begin(packets: &[u8], h: usize, target: usize) -> usize
    requires { AheadNeeds packets.now h target }
    ensures { Ahead packets.now target result × (target ≤ result) }
{
    // `at` goes on by each packet's own size, which no iterator gives.
    let mut at = h;
    while at < target {
        if packets.len() <= at {
            return target + lacking(target - packets.len());
        }
        at += tlv::size_at(packets, at);
    }
    at
}

// A report: the octet in the slot, or none.
fn report_of(rest: usize, size: usize) -> u16
    requires { size ≤ 65535 }
    ensures { result ≡ pick (ltb rest size) rest 65535 }
{
    if rest < size { rest as u16 } else { tlv::NONE }
}

// The reports of all slots.
pub fn mark_begins(size: usize, packets: &[u8], taken: usize, owed: usize, begins: &mut [u16])
    requires { MarkNeeds size packets.now taken owed begins.old }
    ensures { begins.new ≡ reports size (length begins.old) packets.now taken owed }
{
    let mut start: usize = 0;
    let mut h: usize = 0;
    for begin in begins.iter_mut() {
        h = first_begin(packets, h, taken + start.saturating_sub(owed));
        let rest = (owed + (h - taken)) - start;
        *begin = report_of(rest, size);
        start += size;
    }
}
