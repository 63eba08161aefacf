// What the calls test.
ghost use Rattle.std.specs.Prelude.{◌≡◌, ◌&&◌, ◌≤◌, length};
ghost use Rattle.refusal.specs.Answers.{number};
ghost use Rattle.points.specs.Needs.{AllListed};
ghost use Rattle.points.specs.Numbers.{symbol_ok, lent_ok, lent_number, room_ok, used_number, points_number};

use crate::mapping::{BPSK, Entries};
use refusal::Refusal;

// Whether a symbol number is allowed: 0 is not, where the number counts.
#[tactic(auto, unfolding(crate::specs::Numbers::symbol_ok))]
fn symbol_ok(modulation: u32, symbol: u32) -> bool
    ensures { result ≡ symbol_ok modulation symbol }
{
    modulation != BPSK || 0 < symbol
}

// Whether both lists have an entry for each label, and the symbol number is allowed.
#[tactic(auto, using(symbols::specs::LabelLaws::one_shifted), unfolding(crate::specs::Numbers::lent_ok))]
fn lent_ok(modulation: u32, symbol: u32, entries: Entries) -> bool
    requires { modulation ≤ 5 }
    ensures { result ≡ lent_ok modulation symbol (length entries.entry.in_phase.now) (length entries.entry.quadrature.now) }
{
    let labels = 1usize << modulation;
    entries.in_phase.len() == labels
        && entries.quadrature.len() == labels
        && symbol_ok(modulation, symbol)
}

// What every call tests first: the modulation, the register, and what is lent, with the room for what it makes.
#[tactic(auto, unfolding(crate::specs::Numbers::lent_number))]
pub fn check_lent(
    modulation: u32,
    register: bool,
    symbol: u32,
    entries: Entries,
    room: bool,
) -> Result<(), Refusal>
    ensures { number result ≡ lent_number modulation register (lent_ok modulation symbol (length entries.entry.in_phase.now) (length entries.entry.quadrature.now) && room) }
{
    if !plan::known(modulation, plan::MODULATIONS) {
        return Err(Refusal::Plan);
    }
    if !register {
        return Err(Refusal::Register);
    }
    if lent_ok(modulation, symbol, entries) && room {
        return Ok(());
    }
    Err(Refusal::Length)
}

// Tests that the entries that labels use are finite.
fn check_used(labels: &[u8], entries: Entries) -> Result<(), Refusal>
    requires { AllListed entries.in_phase.now entries.quadrature.now labels.now }
    ensures { number result ≡ used_number labels.now entries.entry.in_phase.now entries.entry.quadrature.now }
{
    for label in labels {
        if !entries.used_ok(usize::from(*label)) {
            return Err(Refusal::Coordinate);
        }
    }
    Ok(())
}

// Whether both areas, given as their lengths, have room for so many labels.
#[tactic(auto, unfolding(crate::specs::Numbers::room_ok))]
fn room_ok(labels: usize, i: usize, q: usize) -> bool
    ensures { result ≡ room_ok labels i q }
{
    i == labels && q == labels
}

// What the call on a run of labels tests, both areas given as their lengths.
#[tactic(auto, using(refusal::specs::AnswerLaws::refused_not_0), unfolding(crate::specs::Numbers::points_number))]
pub fn check_points(
    modulation: u32,
    symbol: u32,
    labels: &[u8],
    entries: Entries,
    i: usize,
    q: usize,
) -> Result<(), Refusal>
    ensures { number result ≡ points_number modulation symbol labels.now entries.entry.in_phase.now entries.entry.quadrature.now i q }
{
    check_lent(
        modulation,
        true,
        symbol,
        entries,
        room_ok(labels.len(), i, q),
    )?;
    symbols::check_label(modulation as usize, labels)?;
    check_used(labels, entries)
}
