// One place of every label: the bits that it has lie one stride apart.
ghost use Rattle.std.specs.Prelude.{◌≡◌, length};
ghost use Rattle.symbols.specs.Index.{right_to_left, bit_at, stride_of};
ghost use Rattle.symbols.specs.Needs.{PlaceOf, Taking, grown, Putting, Put, weighed};

// Whether rows are read from the right.
#[tactic(auto, unfolding(crate::specs::Index::right_to_left))]
pub fn right_to_left(modulation: u32, rate: u32) -> bool
    ensures { result ≡ right_to_left modulation rate }
{
    rate <= 2 || (rate == 7 && modulation == 5)
}

// How far apart the bits of one place lie.
#[tactic(auto, unfolding(crate::specs::Index::stride_of))]
pub fn stride(modulation: usize) -> usize
    ensures { result ≡ stride_of modulation }
{
    if modulation <= 2 { modulation } else { 1 }
}

// The bit that the first label has at a place.
#[tactic(auto, using(crate::proofs::Strides::column_small), unfolding(crate::specs::Index::bit_at))]
pub fn first_bit(modulation: usize, symbols: usize, leftward: bool, place: usize) -> usize
    requires { PlaceOf modulation symbols place }
    ensures { result ≡ bit_at modulation symbols leftward 0 place }
{
    if modulation <= 2 {
        place
    } else if leftward {
        (modulation - 1 - place) * symbols
    } else {
        place * symbols
    }
}

// One more bit of each label, below those that it has.
pub fn take_place(bits: &[u8], start: usize, step: usize, labels: &mut [u8])
    requires { Taking bits.now start step labels.old }
    ensures { labels.new ≡ grown bits.now start step labels.old }
{
    // The place is counted: `step_by` would look for the run's end at each label, besides the labels' own.
    let mut at = start;
    for label in labels.iter_mut() {
        *label = *label * 2 + bits[at];
        at += step;
    }
}

// The bit of each label that stands shift places above the lowest, put where it belongs.
pub fn put_place(labels: &[u8], shift: usize, start: usize, step: usize, bits: &mut [u8])
    requires { Putting labels.now shift start step bits.old }
    ensures { Put (length labels.now) (weighed labels.now shift) start step bits.old bits.new }
{
    let mut at = start;
    for label in labels {
        bits[at] = (*label >> shift) & 1;
        at += step;
    }
}
