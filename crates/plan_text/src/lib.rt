// A plan's text, as plan-list has it, read: lines of modulation, rate and slots. A place comes beside its text, as the
// definitions have it, and with a bound that keeps sums of places small.
#![tactic(auto)]

ghost use Rattle.std.specs.Prelude.{◌||◌, not, ◌≡◌, ◌≤◌, Some, None, eqb, get_or};
ghost use Rattle.lists.specs.Choice.{pick};
ghost use Rattle.texts.specs.Characters.{ZERO};
ghost use Rattle.numerals.specs.Numerals.{is_digit};
ghost use Rattle.plan_text.specs.Reading.{digits_at, field_ok, field_value, field_end, line_ok, line_of, text_number, as_read, read_as, plan_read};

use plan::Plan;
use refusal::Refusal;

// A line read: its three numbers, and where the next one begins.
#[derive(Clone, Copy)]
pub struct Line {
    pub modulation: u16,
    pub rate: u16,
    pub slots: u16,
    pub next: usize,
}

// What reading a text answers, for C: 0 and the plan, or the refusal and a plan of zeros.
#[repr(C)]
#[derive(Clone, Copy)]
pub struct PlanRead {
    pub number: u8,
    pub plan: Plan,
}

impl From<Result<Plan, Refusal>> for PlanRead {
    ghost from_gives = { λ answer read. read ≡ as_read answer };

    fn from(answer: Result<Plan, Refusal>) -> PlanRead {
        match answer {
            Ok(plan) => PlanRead { number: 0, plan },
            Err(refused) => PlanRead {
                number: refused.number(),
                plan: plan::no_plan(),
            },
        }
    }
}

#[tactic(auto, using(std::proofs::lemmas::Bool::Decides::nat_tests), unfolding(numerals::specs::Numerals::digit_of))]
fn is_digit(c: u8) -> bool
    ensures { result ≡ is_digit 10 c }
{
    c.is_ascii_digit()
}

// How many digits stand at a place, counted up to three.
fn digits_at(text: &[u8], at: usize) -> usize
    requires { at ≤ 65536 }
    ensures { result ≡ digits_at text.now at }
{
    (0..3)
        .take_while(|k| is_digit(lists::octet_at(text, at + *k)))
        .count()
}

// Whether digits at a place begin with no needless zero.
fn no_leading_zero(text: &[u8], at: usize, count: usize) -> bool
    ensures { result ≡ (eqb count 1 || not (eqb (get_or text.now at 0) ZERO)) }
{
    count == 1 || lists::octet_at(text, at) != b'0'
}

// The number at a place and the place behind its separator, where both stand there.
fn read_field(text: &[u8], at: usize, separator: u8) -> Option<(u16, usize)>
    requires { at ≤ 65536 }
    ensures { result ≡ pick (field_ok text.now at separator) (Some (field_value text.now at, field_end text.now at)) None }
{
    let count = digits_at(text, at);
    if count >= 1
        && no_leading_zero(text, at, count)
        && lists::octet_at(text, at + count) == separator
    {
        let number = numerals::value(10, text, at, count) as u16;
        Some((number, at + count + 1))
    } else {
        None
    }
}

fn read_line(text: &[u8], at: usize) -> Option<Line>
    requires { at ≤ 128 }
    ensures { result ≡ pick (line_ok text.now at) (Some (line_of text.now at)) None }
{
    let (modulation, rate_at) = read_field(text, at, b' ')?;
    let (rate, slots_at) = read_field(text, rate_at, b' ')?;
    let (slots, next) = read_field(text, slots_at, b'\n')?;
    Some(Line {
        modulation,
        rate,
        slots,
        next,
    })
}

// The lines of a text, one for each group.
fn read_lines(text: &[u8]) -> Result<Plan, Refusal>
    ensures { as_read result ≡ read_as (text_number text.now) text.now }
{
    if 128 < text.len() {
        return Err(Refusal::Plan);
    }
    let mut modulation = [0; 8];
    let mut rate = [0; 8];
    let mut slots = [0; 8];
    let mut at: usize = 0;
    let mut count: u16 = 0;
    // Each line says where the next begins, which no iterator gives.
    while at < text.len() {
        if count == 8 {
            return Err(Refusal::Plan);
        }
        let Some(line) = read_line(text, at) else {
            return Err(Refusal::Plan);
        };
        let g = usize::from(count);
        modulation[g] = line.modulation;
        rate[g] = line.rate;
        slots[g] = line.slots;
        at = line.next;
        count += 1;
    }
    Ok(plan::of_columns(count, modulation, rate, slots))
}

// Reads a plan, or answers the refusal of the text or of the plan.
#[tactic(auto, using(refusal::specs::AnswerLaws::refused_not_0), unfolding(crate::specs::Reading::plan_read, crate::specs::Reading::read_number))]
pub fn read_plan(text: &[u8]) -> Result<Plan, Refusal>
    ensures { as_read result ≡ plan_read text.now }
{
    let plan = read_lines(text)?;
    plan::check_plan(plan)?;
    Ok(plan)
}
