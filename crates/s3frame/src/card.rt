// Settings that a card keeps in blocks.
ghost use Rattle.std.specs.Prelude.{◌≡◌, length};
ghost use Rattle.refusal.specs.Answers.{Answered};
ghost use Rattle.settings.specs.Cards.{read_answer, replace_number, replaced};

use plan::Plan;
use setting_block::{Registers, SettingsAnswer};

#[unsafe(no_mangle)]
pub extern "C" fn s3_read_settings(card: &[u8], number: usize) -> SettingsAnswer
    ensures { result ≡ read_answer card.now number }
{
    SettingsAnswer::from(settings::read_settings(card, number))
}

#[unsafe(no_mangle)]
pub extern "C" fn s3_replace_settings(
    card: &mut [u8],
    number: usize,
    plan: Plan,
    registers: Registers,
) -> u8
    ensures { Answered (replace_number (length card.old) number plan registers) (replaced card.old number plan registers) card.old result card.new }
{
    refusal::number(settings::replace_settings(card, number, plan, registers))
}
