// Header and data octets of a whole frame.
ghost use Rattle.std.specs.Prelude.{◌≡◌};
ghost use Rattle.lookup.specs.Lookups.{source_octets};

use plan::Plan;

// Those of all data slots; 0 where the plan is refused, as C is answered.
#[tactic(auto, using(refusal::specs::AnswerLaws::refused_not_0), unfolding(crate::specs::Lookups::source_octets))]
pub fn source_octets(plan: Plan) -> usize
    ensures { result ≡ source_octets plan }
{
    if plan::check_plan(plan).is_err() {
        return 0;
    }
    frame::source_length(plan)
}
