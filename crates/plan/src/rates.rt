// Rates and modulations by their numbers, and what a rate says of its slots: 0 rows for a number that is no rate's, as callers
// are answered. Both are numbers and no enums, since plans and callers hand in any, which the calls then refuse.
ghost use Rattle.std.specs.Prelude.{◌&&◌, ◌≡◌, leb};
ghost use Rattle.plan.specs.Rates.{rows_of, data_octets_of, packets_of};

// How many rates and modulations there are; they are numbered from 1.
pub const RATES: u32 = 11;

pub const MODULATIONS: u32 = 5;

// Whether x is a number from 1 to most.
pub fn known(x: u32, most: u32) -> bool
    ensures { result ≡ (leb 1 x && leb x most) }
{
    (1..=most).contains(&x)
}

const ROWS: [usize; 12] = [0, 41, 49, 61, 73, 81, 89, 93, 97, 101, 105, 109];

// The rows R of the parity table.
#[tactic(auto, unfolding(crate::specs::Rates::rows_of))]
pub fn rows(rate: u32) -> usize
    ensures { result ≡ rows_of rate }
{
    ROWS.get(rate as usize).copied().unwrap_or(0)
}

// The data octets of a slot.
#[tactic(auto, using(crate::proofs::RateLaws::rows_most), unfolding(crate::specs::Rates::data_octets_of, crate::specs::Rates::data_bits_of))]
pub fn data_octets(rate: u32) -> usize
    ensures { result ≡ data_octets_of rate }
{
    374 * rows(rate).saturating_sub(1) / 8
}

// The packets of a slot.
#[tactic(auto, unfolding(crate::specs::Rates::packets_of))]
pub fn packets(rate: u32) -> usize
    ensures { result ≡ packets_of rate }
{
    data_octets(rate) / 187
}
