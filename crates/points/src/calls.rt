// The calls: the point of a symbol, of one of the signal point arrangement signal, the step of that signal's register, and the
// points of a run of labels.
ghost use Rattle.std.specs.Prelude.{◌≡◌};
ghost use Rattle.refusal.specs.Answers.{number};
ghost use Rattle.points.specs.Points.{point_of, arranged_of};
ghost use Rattle.points.specs.Answers.{Answers, PointsMade};
ghost use Rattle.points.specs.Numbers.{mapped_number, point_number, arranged_number, as_step, step_answer};

use crate::Point;
use crate::mapping::{Entries, put_points};
use crate::numbers::{check_lent, check_points};
use crate::turns::half_turn;
use refusal::Refusal;

// The width of the register of the signal point arrangement signal.
const WIDTH: u32 = 15;

// The point of a label, or the refusal. Whether mask and register of a caller are allowed is handed in.
fn mapped(
    register: bool,
    modulation: u32,
    label: u32,
    symbol: u32,
    entries: Entries,
) -> Result<Point, Refusal>
    ensures { Answers (mapped_number register modulation label symbol entries.entry.in_phase.now entries.entry.quadrature.now) (point_of modulation symbol entries.entry.in_phase.now entries.entry.quadrature.now label) result }
{
    check_lent(modulation, register, symbol, entries, true)?;
    let at = label as usize;
    if entries.in_phase.len() <= at {
        return Err(Refusal::Label);
    }
    if !entries.used_ok(at) {
        return Err(Refusal::Coordinate);
    }
    Ok(entries.point_of(modulation, symbol as usize, at))
}

// The point of a label, or the refusal.
pub fn point_of_label(
    modulation: u32,
    label: u32,
    symbol: u32,
    in_phase: &[f32],
    quadrature: &[f32],
) -> Result<Point, Refusal>
    ensures { Answers (point_number modulation label symbol in_phase.now quadrature.now) (point_of modulation symbol in_phase.now quadrature.now label) result }
{
    let entries = Entries {
        in_phase,
        quadrature,
    };
    mapped(true, modulation, label, symbol, entries)
}

// A point turned by 180 degrees where the register gives 1.
#[tactic(auto, unfolding(crate::specs::Points::arranged_of, dispersal::specs::Register::top))]
fn turned(register: u32, point: Point) -> Point
    ensures { result ≡ arranged_of register point }
{
    if register >> (WIDTH - 1) == 1 {
        return half_turn(point);
    }
    point
}

// The point of a label in the signal point arrangement signal, or the refusal.
#[tactic(auto, using(crate::proofs::AnswerLaws::refusal_turned))]
pub fn arranged_point(
    modulation: u32,
    label: u32,
    symbol: u32,
    in_phase: &[f32],
    quadrature: &[f32],
    mask: u32,
    register: u32,
) -> Result<Point, Refusal>
    ensures { Answers (arranged_number modulation label symbol in_phase.now quadrature.now mask register) (arranged_of register (point_of modulation symbol in_phase.now quadrature.now label)) result }
{
    let sound = dispersal::settings_ok(WIDTH, mask, register);
    let entries = Entries {
        in_phase,
        quadrature,
    };
    let point = mapped(sound, modulation, label, symbol, entries)?;
    Ok(turned(register, point))
}

// The register of the signal point arrangement signal one step on, or the refusal.
#[tactic(auto, unfolding(crate::specs::Numbers::step_answer))]
pub fn arranged_step(mask: u32, register: u32) -> Result<u32, Refusal>
    ensures { as_step result ≡ step_answer mask register }
{
    if !dispersal::settings_ok(WIDTH, mask, register) {
        return Err(Refusal::Register);
    }
    Ok(dispersal::stepped(WIDTH, mask, register))
}

// The coordinates of the labels' points, the first label as symbol number `symbol`; a refusal leaves both areas as they were.
#[tactic(auto, using(refusal::specs::AnswerLaws::refused_not_0))]
pub fn points_of_labels(
    modulation: u32,
    symbol: u32,
    labels: &[u8],
    in_phase: &[f32],
    quadrature: &[f32],
    i: &mut [f32],
    q: &mut [f32],
) -> Result<(), Refusal>
    ensures { PointsMade modulation symbol labels.now in_phase.now quadrature.now i.old q.old (number result) i.new q.new }
{
    let entries = Entries {
        in_phase,
        quadrature,
    };
    check_points(modulation, symbol, labels, entries, i.len(), q.len())?;
    put_points(modulation, symbol, labels, entries, i, q);
    Ok(())
}
