// Where a slot lies.
ghost use Rattle.std.specs.Prelude.{◌≡◌};
ghost use Rattle.refusal.specs.Answers.{number};
ghost use Rattle.lookup.specs.Lookups.{as_placed, place_number, placed};

use crate::Placed;
use plan::{Place, Plan};
use refusal::Refusal;

#[tactic(auto, using(refusal::specs::AnswerLaws::refused_not_0), unfolding(crate::specs::Lookups::place_number))]
fn check_place(plan: Plan, slot: u32) -> Result<(), Refusal>
    ensures { number result ≡ place_number plan slot }
{
    if slot == 0 {
        return Err(Refusal::Plan);
    }
    plan::check_plan(plan)?;
    if slot <= 120 {
        return Ok(());
    }
    Err(Refusal::Full)
}

// The place of a slot from 1 to 120, or the refusal.
#[tactic(auto, using(refusal::specs::AnswerLaws::refused_not_0), unfolding(crate::specs::Lookups::placed))]
pub fn place(plan: Plan, slot: u32) -> Result<Place, Refusal>
    ensures { as_placed result ≡ placed plan slot }
{
    check_place(plan, slot)?;
    Ok(plan::place_of(plan, slot as usize))
}

// Number and place of what is answered, a place of zeros by a refusal.
impl From<Result<Place, Refusal>> for Placed {
    ghost from_gives = { λ answer told. told ≡ as_placed answer };

    fn from(answer: Result<Place, Refusal>) -> Placed {
        match answer {
            Ok(place) => Placed { number: 0, place },
            Err(refused) => Placed {
                number: refused.number(),
                place: Place {
                    group: 0,
                    modulation: 0,
                    rate: 0,
                    carries: false,
                },
            },
        }
    }
}
