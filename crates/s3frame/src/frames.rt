// Calls on a whole frame.
ghost use Rattle.std.specs.Prelude.{◌≡◌, eqb, length};
ghost use Rattle.frame.specs.Frames.{frame_of, frame_number, answers_of, stuffs_of, positions_of, sources_of, read_frame_number};
ghost use Rattle.lists.specs.Choice.{pick};
ghost use Rattle.lookup.specs.Lookups.{source_octets};
ghost use Rattle.refusal.specs.Answers.{Answered};

use plan::Plan;

#[unsafe(no_mangle)]
pub extern "C" fn s3_source_octets(plan: Plan) -> usize
    ensures { result ≡ source_octets plan }
{
    lookup::source_octets(plan)
}

#[unsafe(no_mangle)]
pub extern "C" fn s3_code_frame(
    plan: Plan,
    mask: u32,
    start: u32,
    tables: &[u16],
    source: &[u8],
    frame: &mut [u8],
) -> u8
    ensures { Answered (frame_number plan mask start tables.now (length source.now) (length frame.old)) (frame_of plan tables.now mask start source.now frame.old) frame.old result frame.new }
{
    refusal::number(frame_coder::code_frame(plan, mask, start, tables, source, frame))
}

#[unsafe(no_mangle)]
pub extern "C" fn s3_read_frame(
    plan: Plan,
    mask: u32,
    start: u32,
    tables: &[u16],
    frame: &[u8],
    source: &mut [u8],
    answers: &mut [u8],
    stuff: &mut [u8],
    positions: &mut [u16],
) -> u8
    ensures value { result ≡ read_frame_number plan mask start tables.now (length source.old) (length frame.now) (length answers.old) (length stuff.old) (length positions.old) }
    ensures source_after { source.new ≡ pick (eqb result 0) (sources_of plan tables.now mask start frame.now source.old) source.old }
    ensures answers_after { answers.new ≡ pick (eqb result 0) (answers_of plan tables.now mask start frame.now) answers.old }
    ensures stuff_after { stuff.new ≡ pick (eqb result 0) (stuffs_of plan tables.now mask start frame.now) stuff.old }
    ensures positions_after { positions.new ≡ pick (eqb result 0) (positions_of plan tables.now mask start frame.now) positions.old }
{
    refusal::number(frame_reader::read_frame(
        plan, mask, start, tables, frame, source, answers, stuff, positions,
    ))
}
