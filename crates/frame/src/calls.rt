// What a whole-frame call tests.
ghost use Rattle.std.specs.Prelude.{◌≡◌, IfOk};
ghost use Rattle.refusal.specs.Answers.{number};
ghost use Rattle.frame.specs.Frames.{whole_number};
ghost use Rattle.frame.specs.Needs.{Ends};

use crate::sources::source_length;
use crate::tables::find_tables;
use plan::Plan;
use refusal::Refusal;

// The refusal of plan, settings, the lengths of the call's areas or the tables, and otherwise where the groups' tables begin and
// end. Whether the areas that have an entry for each slot have their length is handed in.
#[tactic(auto, using(refusal::specs::AnswerLaws::refused_not_0), unfolding(crate::specs::Frames::whole_number))]
pub fn check_frame(
    plan: Plan,
    mask: u32,
    start: u32,
    tables: &[u16],
    source: usize,
    frame: usize,
    each: bool,
) -> Result<[usize; 9], Refusal>
    ensures value { number result ≡ whole_number plan mask start tables.now source frame each }
    ensures ends { IfOk result (λ ends. Ends plan tables.now ends) }
{
    plan::check_opening(plan, mask, start)?;
    if !each || source != source_length(plan) || frame != plan::FRAME_OCTETS {
        return Err(Refusal::Length);
    }
    find_tables(plan, tables).ok_or(Refusal::Table)
}
