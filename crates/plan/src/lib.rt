// Rates and modulations, the slot plan, the place of a slot, and the frame state: opening a frame, and passing a dummy.
#![tactic(auto)]

ghost use Rattle.std.specs.Prelude.{◌≡◌};
ghost use Rattle.plan.specs.Records.{of_columns, no_plan, state_at, plan_in};
ghost use Rattle.plan.specs.States.{as_answer, zeros};

mod groups;
mod places;
mod rates;
mod state;

pub use groups::{check_plan, data_slots};
pub use places::place_of;
pub use rates::{MODULATIONS, RATES, data_octets, known, packets, rows};
use refusal::Refusal;
pub use state::{advanced, check_opening, check_state, next_place, open, pass};

// A slot: its bits, its octets, the width of its register, and the most parity bits, and the most header and data octets,
// that one has.
pub const SLOT_BITS: usize = 44880;

pub const SLOT_OCTETS: usize = 5610;

pub const SLOT_WIDTH: u32 = 25;

pub const MOST_PARITY: usize = 29546;

pub const MOST_SOURCE: usize = 5071;

// A whole frame, 120 slots.
pub const FRAME_OCTETS: usize = 673200;

// A TMCC block: its bits, its octets and the width of its register.
pub const BLOCK_BITS: usize = 31680;

pub const BLOCK_OCTETS: usize = 3960;

pub const BLOCK_WIDTH: u32 = 15;

// A slot plan: of the groups 0, 1, .. the first `count` are in use. C hands it over in this layout, a column for each number.
#[repr(C)]
#[derive(Clone, Copy)]
pub struct Plan {
    pub count: u16,
    pub modulation: [u16; 8],
    pub rate: [u16; 8],
    pub slots: [u16; 8],
}

// Where a slot lies: its group, with the group's modulation and rate, and whether the slot carries data or is a dummy.
#[repr(C)]
#[derive(Clone, Copy)]
pub struct Place {
    pub group: usize,
    pub modulation: u32,
    pub rate: u32,
    pub carries: bool,
}

// The frame state: the plan's groups, the register's settings, the next slot number from 1, and the register.
#[repr(C)]
#[derive(Clone, Copy)]
pub struct FrameState {
    pub count: u16,
    pub modulation: [u16; 8],
    pub rate: [u16; 8],
    pub slots: [u16; 8],
    pub mask: u32,
    pub start: u32,
    pub slot: u16,
    pub register: u32,
}

// What a call answers C, where a Result does not cross: its number, 0 or the refusal's, and the state after it.
#[repr(C)]
#[derive(Clone, Copy)]
pub struct Answer {
    pub number: u8,
    pub state: FrameState,
}

impl Answer {
    // The state that a call answers, or the refusal's number and the state that goes with it.
    pub fn new(answer: Result<FrameState, Refusal>, refused: FrameState) -> Answer
        ensures { result ≡ as_answer refused answer }
    {
        match answer {
            Ok(state) => Answer { number: 0, state },
            Err(refusal) => Answer {
                number: refusal.number(),
                state: refused,
            },
        }
    }
}

// A plan of count groups, from its columns.
pub fn of_columns(count: u16, modulation: [u16; 8], rate: [u16; 8], slots: [u16; 8]) -> Plan
    ensures { result ≡ of_columns count modulation rate slots }
{
    Plan {
        count,
        modulation,
        rate,
        slots,
    }
}

// The plan of no groups.
pub fn no_plan() -> Plan
    ensures { result ≡ no_plan }
{
    let none = [0u16; 8];
    of_columns(0, none, none, none)
}

// The state of zeros, which goes with a refused opening.
pub fn no_state() -> FrameState
    ensures { result ≡ zeros }
{
    state_at(no_plan(), 0, 0, 0, 0)
}

// The state of a plan and its settings at a slot, with a register.
pub fn state_at(plan: Plan, mask: u32, start: u32, slot: u16, register: u32) -> FrameState
    ensures { result ≡ state_at plan mask start slot register }
{
    let modulation = plan.modulation;
    let rate = plan.rate;
    let slots = plan.slots;
    FrameState {
        count: plan.count,
        modulation,
        rate,
        slots,
        mask,
        start,
        slot,
        register,
    }
}

// The plan that a state holds.
pub fn plan_in(state: FrameState) -> Plan
    ensures { result ≡ plan_in state }
{
    let modulation = state.modulation;
    let rate = state.rate;
    let slots = state.slots;
    of_columns(state.count, modulation, rate, slots)
}
