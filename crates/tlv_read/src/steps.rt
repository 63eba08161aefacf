// One step of reading, and steps until one stops.
ghost use Rattle.std.specs.Prelude.{◌≡◌, ◌+◌, ◌*◌, ◌/◌, ◌<◌, ◌≤◌, length, Ok};
ghost use Rattle.tlv.specs.Calls.{as_read};
ghost use Rattle.tlv.specs.Packets.{octets};
ghost use Rattle.tlv.specs.Read.{on_from, step, read};
ghost use Rattle.tlv_read.specs.Needs.{ReadIs, kept_of};
ghost use Rattle.tlv_read.specs.Moves.{made, Instead, goes_on};

use crate::slots::Slots;
use tlv::Unpacked;

// What a step does: stop, where the unfinished one begins; or write so many octets, and go on at a place.
#[derive(Clone, Copy)]
pub enum Move {
    Stop(usize),
    On { size: usize, at: usize },
}

// The octets of a packet that are written: none of an empty null.
fn kept(kind: u8, size: usize) -> usize
    ensures { result ≡ kept_of kind size }
{
    if kind == tlv::NULL && size == 4 {
        return 0;
    }
    size
}

impl Slots<'_> {
    // Where the rest of a slot is lost, reading goes on at the next beginning that is reported behind it.
    fn behind(self, slot: usize) -> Move
        requires { slot < 9223372036854775808 }
        ensures { result ≡ goes_on (on_from self.entry.size (length self.entry.begins.now) self.entry.lost.now self.entry.begins.now (slot + 1)) }
    {
        let at = self.next_begin(slot + 1);
        Move::On { size: 0, at }
    }

    // What to do instead where the octets from p, in `slot`, to before `to` are not all there and in sound slots.
    fn whole(self, slot: usize, p: usize, to: usize) -> Option<Move>
        requires { slot ≡ p / self.size }
        ensures { Instead self.entry.size (length self.entry.begins.now) self.entry.lost.now self.entry.begins.now p to result }
    {
        if let Some(gone) = self.first_lost(slot, to) {
            return Some(self.behind(gone));
        }
        if self.octets.len() < to {
            return Some(Move::Stop(p));
        }
        None
    }

    // One step at position p.
    fn step_at(self, p: usize) -> Move
        requires { p ≤ length self.octets.now }
        ensures { made (octets self.entry.octets.now) p result ≡ step self.entry.size (length self.entry.begins.now) self.entry.lost.now self.entry.begins.now (octets self.entry.octets.now) p }
    {
        if p == self.octets.len() {
            return Move::Stop(p);
        }
        let slot = p / self.size;
        if let Some(instead) = self.whole(slot, p, p + 4) {
            return instead;
        }
        if !tlv::head_ok(self.octets, p) {
            return self.behind(slot);
        }
        let size = tlv::size_at(self.octets, p);
        if let Some(instead) = self.whole(slot, p, p + size) {
            return instead;
        }
        if !tlv::body_ok(self.octets, p, size) {
            return self.behind(slot);
        }
        Move::On {
            size: kept(self.octets[p + 1], size),
            at: p + size,
        }
    }

    // The reading from `from` on, written to the front of the packets' area.
    pub fn read_from(self, from: usize, packets: &mut [u8]) -> Unpacked
        requires within { from ≤ length self.octets.now }
        requires place { length packets.old ≡ length self.octets.now }
        ensures { ReadIs (read self.entry.size (length self.entry.begins.now) self.entry.lost.now self.entry.begins.now (octets self.entry.octets.now) (self.entry.size * length self.entry.begins.now) from) (as_read (Ok result)) packets.old packets.new }
    {
        // Each step says where the next begins, which no iterator gives.
        let mut p = from;
        let mut w: usize = 0;
        loop {
            match self.step_at(p) {
                Move::Stop(at) => {
                    return Unpacked {
                        written: w,
                        unfinished: at,
                    };
                }
                Move::On { size, at } => {
                    bits::copy(&self.octets[p..p + size], &mut packets[w..w + size]);
                    w += size;
                    p = at;
                }
            }
        }
    }
}
