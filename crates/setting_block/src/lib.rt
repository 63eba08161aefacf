// The block of a setting: plan and registers, read and written.
#![tactic(auto)]

ghost use Rattle.std.specs.Prelude.{◌≡◌};
ghost use Rattle.setting_block.specs.Blocks.{as_settings};

use plan::Plan;
use refusal::Refusal;

mod blocks;

pub use blocks::{check_setting, put_block, read_block};

// The settings of a dispersal register.
#[repr(C)]
#[derive(Clone, Copy)]
pub struct Register {
    pub mask: u32,
    pub start: u32,
}

// Those of both: of slots and of TMCC blocks.
#[repr(C)]
#[derive(Clone, Copy)]
pub struct Registers {
    pub slots: Register,
    pub tmcc: Register,
}

// What a block holds.
#[derive(Clone, Copy)]
pub struct Settings {
    pub plan: Plan,
    pub registers: Registers,
}

// What reading a block answers, for C: its number, 0 or the refusal, and plan and registers, zeros by a refusal.
#[repr(C)]
#[derive(Clone, Copy)]
pub struct SettingsAnswer {
    pub number: u8,
    pub plan: Plan,
    pub registers: Registers,
}

impl From<Result<Settings, Refusal>> for SettingsAnswer {
    ghost from_gives = { λ answer told. told ≡ as_settings answer };

    fn from(answer: Result<Settings, Refusal>) -> SettingsAnswer {
        match answer {
            Ok(Settings { plan, registers }) => SettingsAnswer {
                number: 0,
                plan,
                registers,
            },
            Err(refused) => {
                let none = Register { mask: 0, start: 0 };
                SettingsAnswer {
                    number: refused.number(),
                    plan: plan::no_plan(),
                    registers: Registers {
                        slots: none,
                        tmcc: none,
                    },
                }
            }
        }
    }
}

// The octets of a block.
pub const SETTING_OCTETS: usize = 512;
