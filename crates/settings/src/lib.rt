// Settings that a card keeps in blocks: plan and registers, read or replaced by the number of their block.
#![tactic(auto)]

ghost use Rattle.std.specs.Prelude.{◌≡◌, length};
ghost use Rattle.refusal.specs.Answers.{Answered, number as refusal_number};
ghost use Rattle.setting_block.specs.Blocks.{as_settings};
ghost use Rattle.settings.specs.Cards.{card_ok, card_number, read_answer, replace_number, replaced};

use plan::Plan;
use refusal::Refusal;
use setting_block::{Registers, SETTING_OCTETS, Settings};

// The most blocks of a card.
pub const MOST_SETTINGS: usize = 64;

// Whether so many octets are a card's.
#[tactic(auto, using(std::proofs::lemmas::Bool::Decides::nat_tests), unfolding(crate::specs::Cards::card_ok))]
fn card_ok(octets: usize) -> bool
    ensures { result ≡ card_ok octets }
{
    octets % SETTING_OCTETS == 0 && octets / SETTING_OCTETS <= MOST_SETTINGS
}

// The refusal of a card's length, or of a block's number.
#[tactic(auto, using(std::proofs::lemmas::Bool::Decides::nat_tests), unfolding(crate::specs::Cards::card_number))]
fn check_card(octets: usize, number: usize) -> Result<(), Refusal>
    ensures { refusal_number result ≡ card_number octets number }
{
    if !card_ok(octets) {
        return Err(Refusal::Length);
    }
    if octets / SETTING_OCTETS <= number {
        return Err(Refusal::Block);
    }
    Ok(())
}

// Reads a block.
#[tactic(auto, using(refusal::specs::AnswerLaws::refused_not_0, crate::proofs::CardLaws::there), unfolding(crate::specs::Cards::read_answer, crate::specs::Cards::read_number))]
pub fn read_settings(card: &[u8], number: usize) -> Result<Settings, Refusal>
    ensures { as_settings result ≡ read_answer card.now number }
{
    check_card(card.len(), number)?;
    let at = SETTING_OCTETS * number;
    setting_block::read_block(&card[at..at + SETTING_OCTETS])
}

#[tactic(auto, using(refusal::specs::AnswerLaws::refused_not_0), unfolding(crate::specs::Cards::replace_number))]
fn check_replacement(
    octets: usize,
    number: usize,
    plan: Plan,
    registers: Registers,
) -> Result<(), Refusal>
    ensures { refusal_number result ≡ replace_number octets number plan registers }
{
    check_card(octets, number)?;
    setting_block::check_setting(plan, registers)
}

// Replaces a block, whatever it holds.
pub fn replace_settings(
    card: &mut [u8],
    number: usize,
    plan: Plan,
    registers: Registers,
) -> Result<(), Refusal>
    ensures { Answered (replace_number (length card.old) number plan registers) (replaced card.old number plan registers) card.old (refusal_number result) card.new }
{
    check_replacement(card.len(), number, plan, registers)?;
    let at = SETTING_OCTETS * number;
    setting_block::put_block(plan, registers, &mut card[at..at + SETTING_OCTETS]);
    Ok(())
}
