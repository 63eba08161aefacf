// The lent slots: lost ones, and reported beginnings.
ghost use Rattle.std.specs.Prelude.{◌≡◌, ◌<◌, length, unwrap_or, IfSome};
ghost use Rattle.tlv.specs.Read.{lost_from, on_from, start};
ghost use Rattle.tlv_read.specs.Needs.{Lending};

// Slots of `size` octets, end to end, each with a lost mark and a report.
#[derive(Clone, Copy)]
pub struct Slots<'a> {
    pub size: usize,
    pub octets: &'a [u8],
    pub lost: &'a [u8],
    pub begins: &'a [u16],
    pub ghost lending: { Lending size octets.now lost.now begins.now },
}

impl Slots<'_> {
    // The first lost slot from `slot` on that begins before octet `to`. The mark of a slot and its place go by one index, here and
    // below.
    pub fn first_lost(self, slot: usize, to: usize) -> Option<usize>
        ensures first { unwrap_or result (length self.entry.begins.now) ≡ lost_from self.entry.size (length self.entry.begins.now) self.entry.lost.now slot to }
        ensures within { IfSome result (λ k. k < length self.entry.begins.now) }
    {
        for k in slot..self.begins.len() {
            if to <= self.size * k {
                return None;
            }
            if self.lost[k] == 1 {
                return Some(k);
            }
        }
        None
    }

    // The next reported beginning from `slot` on, and where there is none the slots' length, at which reading stops.
    pub fn next_begin(self, slot: usize) -> usize
        ensures { result ≡ on_from self.entry.size (length self.entry.begins.now) self.entry.lost.now self.entry.begins.now slot }
    {
        for k in slot..self.begins.len() {
            if self.lost[k] != 1 && self.begins[k] != tlv::NONE {
                return self.size * k + usize::from(self.begins[k]);
            }
        }
        self.octets.len()
    }

    // Where reading begins.
    #[tactic(auto, unfolding(tlv::specs::Read::start))]
    pub fn start_at(self, first: usize) -> usize
        ensures { result ≡ start self.entry.size (length self.entry.begins.now) self.entry.lost.now self.entry.begins.now first }
    {
        if first == usize::from(tlv::NONE) {
            return self.next_begin(0);
        }
        first
    }
}
