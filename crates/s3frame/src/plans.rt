// A plan's text, and the list of its runs.
ghost use Rattle.std.specs.Prelude.{◌≡◌, length};
ghost use Rattle.lists.specs.Parts.{put};
ghost use Rattle.plan_text.specs.Reading.{plan_read};
ghost use Rattle.run_list.specs.Listing.{answer_text};
ghost use Rattle.run_list.specs.Needs.{Taken};

use plan_text::PlanRead;

#[unsafe(no_mangle)]
pub extern "C" fn s3_plan_of_text(text: &[u8]) -> PlanRead
    ensures { result ≡ plan_read text.now }
{
    PlanRead::from(plan_text::read_plan(text))
}

#[unsafe(no_mangle)]
pub extern "C" fn s3_plan_list(text: &[u8], out: &mut [u8; 512]) -> usize
    ensures value { result ≡ length (answer_text text.now) }
    ensures out_after { out.new ≡ put 0 (answer_text text.now) out.old }
    ensures taken { Taken result out.new }
{
    run_list::answer(text, out)
}
