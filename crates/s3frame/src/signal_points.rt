// Signal points of labels.
ghost use Rattle.std.specs.Prelude.{◌≡◌};
ghost use Rattle.points.specs.Answers.{point_values, PointsMade};
ghost use Rattle.points.specs.Numbers.{point_number, arranged_number, step_answer};
ghost use Rattle.points.specs.Points.{point_of, arranged_of};

use points::{PointValues, StepAnswer};

#[tactic(auto, using(points::proofs::AnswerLaws::values_answered))]
#[unsafe(no_mangle)]
pub extern "C" fn s3_point(
    modulation: u32,
    label: u32,
    symbol: u32,
    in_phase: &[f32],
    quadrature: &[f32],
) -> PointValues
    ensures { result ≡ point_values (point_number modulation label symbol in_phase.now quadrature.now) (point_of modulation symbol in_phase.now quadrature.now label) }
{
    PointValues::from(points::point_of_label(modulation, label, symbol, in_phase, quadrature))
}

#[tactic(auto, using(points::proofs::AnswerLaws::values_answered))]
#[unsafe(no_mangle)]
pub extern "C" fn s3_arranged_point(
    modulation: u32,
    label: u32,
    symbol: u32,
    in_phase: &[f32],
    quadrature: &[f32],
    mask: u32,
    register: u32,
) -> PointValues
    ensures { result ≡ point_values (arranged_number modulation label symbol in_phase.now quadrature.now mask register) (arranged_of register (point_of modulation symbol in_phase.now quadrature.now label)) }
{
    PointValues::from(points::arranged_point(
        modulation, label, symbol, in_phase, quadrature, mask, register,
    ))
}

#[unsafe(no_mangle)]
pub extern "C" fn s3_arranged_step(mask: u32, register: u32) -> StepAnswer
    ensures { result ≡ step_answer mask register }
{
    StepAnswer::from(points::arranged_step(mask, register))
}

#[unsafe(no_mangle)]
pub extern "C" fn s3_points(
    modulation: u32,
    symbol: u32,
    labels: &[u8],
    in_phase: &[f32],
    quadrature: &[f32],
    i: &mut [f32],
    q: &mut [f32],
) -> u8
    ensures { PointsMade modulation symbol labels.now in_phase.now quadrature.now i.old q.old result i.new q.new }
{
    refusal::number(points::points_of_labels(
        modulation, symbol, labels, in_phase, quadrature, i, q,
    ))
}
