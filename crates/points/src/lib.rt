// Signal points of labels: of one symbol, of one in the signal point arrangement signal, and of a run of symbols.
#![tactic(auto)]

ghost use Rattle.std.specs.Prelude.{◌≡◌};
ghost use Rattle.points.specs.Answers.{as_values};
ghost use Rattle.points.specs.Numbers.{as_step};

mod calls;
mod mapping;
mod numbers;
mod turns;

pub use calls::{arranged_point, arranged_step, point_of_label, points_of_labels};
use refusal::Refusal;

// A signal point: its in-phase and its quadrature coordinate.
#[derive(Clone, Copy)]
pub struct Point {
    pub i: f32,
    pub q: f32,
}

// What a call on a label answers C, where a Result does not cross: the number, 0 or the refusal's, and both coordinates, zeros
// by a refusal.
#[repr(C)]
#[derive(Clone, Copy)]
pub struct PointValues {
    pub number: u8,
    pub i: f32,
    pub q: f32,
}

// Number and coordinates of what a call answers.
impl From<Result<Point, Refusal>> for PointValues {
    ghost from_gives = { λ answer told. told ≡ as_values answer };

    fn from(answer: Result<Point, Refusal>) -> PointValues {
        match answer {
            Ok(point) => PointValues {
                number: 0,
                i: point.i,
                q: point.q,
            },
            Err(refused) => PointValues {
                number: refused.number(),
                i: 0.0,
                q: 0.0,
            },
        }
    }
}

// What stepping the register of the arrangement signal answers C: the number, 0 or the refusal's, and the register after it, 0
// by a refusal.
#[repr(C)]
#[derive(Clone, Copy)]
pub struct StepAnswer {
    pub number: u8,
    pub register: u32,
}

// Number and register of what the call answers.
impl From<Result<u32, Refusal>> for StepAnswer {
    ghost from_gives = { λ answer told. told ≡ as_step answer };

    fn from(answer: Result<u32, Refusal>) -> StepAnswer {
        match answer {
            Ok(register) => StepAnswer {
                number: 0,
                register,
            },
            Err(refused) => StepAnswer {
                number: refused.number(),
                register: 0,
            },
        }
    }
}
