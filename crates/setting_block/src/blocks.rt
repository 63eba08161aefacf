// A block: its tests, what it holds, and how it is made. Blocks are cut from a card as slices, so that their length is asked for;
// a plan is taken as callers have it, so that what writes it asks that its numbers fit their octets.
ghost use Rattle.std.specs.Prelude.{◌++◌, ◌≡◌, ◌&&◌, eqb, length};
ghost use Rattle.lists.specs.Choice.{pick};
ghost use Rattle.refusal.specs.Answers.{number};
ghost use Rattle.refusal.specs.Numbers.{REGISTER};
ghost use Rattle.bits.specs.Same.{same};
ghost use Rattle.setting_block.specs.Layout.{layout, mark, setting_octets, edition};
ghost use Rattle.setting_block.specs.Blocks.{plan_octets, head_octets, register_octets, body, block_of, field_in, number_in, plan_in, registers_in, unused_in, block_ok, registers_ok, setting_number, block_number, as_settings, answer};
ghost use Rattle.octet_numbers.specs.Numbers.{big_endian, all_zero};
ghost use Rattle.setting_block.specs.Needs.{Block, Room};

use crate::{Register, Registers, SETTING_OCTETS, Settings};
use octet_numbers::{all_zero, number_of, put_number, sum_of};
use plan::{BLOCK_WIDTH, Plan, SLOT_WIDTH};
use refusal::Refusal;

// The mark, and the edition that is written.
const MARK: [u8; 4] = *b"S3PL";

const EDITION: u32 = 1;

// Where the fields of a block begin; each ends where the next begins, the first begins at 0, and the last ends the block.
const EDITION_AT: usize = 4;

const COUNT: usize = 5;

const GROUPS: usize = 6;

const SLOT_MASK: usize = 30;

const SLOT_START: usize = 34;

const TMCC_MASK: usize = 38;

const TMCC_START: usize = 42;

const ZEROS: usize = 46;

const SUM: usize = 510;

// Whether the groups behind the count are zeros.
fn unused_zero(block: &[u8; SETTING_OCTETS]) -> bool
    ensures { result ≡ all_zero (unused_in edition block.now) }
{
    let groups = &block[GROUPS..SLOT_MASK];
    let count = number_of(&block[COUNT..GROUPS]) as usize;
    let used = 3 * count;
    used >= 24 || all_zero(&groups[used..24])
}

// Whether mark and edition are right.
fn head_ok(block: &[u8; SETTING_OCTETS]) -> bool
    ensures { result ≡ (same (field_in (layout edition).mark block.now) mark && eqb (number_in (layout edition).edition block.now) edition) }
{
    block[0..EDITION_AT] == MARK[..] && number_of(&block[EDITION_AT..COUNT]) == EDITION
}

// Whether the fillers are zeros.
fn fillers_zero(block: &[u8; SETTING_OCTETS]) -> bool
    ensures { result ≡ (all_zero (unused_in edition block.now) && all_zero (field_in (layout edition).zeros block.now)) }
{
    unused_zero(block) && all_zero(&block[ZEROS..SUM])
}

// Whether mark, edition, fillers and sum are right.
fn block_ok(block: &[u8; SETTING_OCTETS]) -> bool
    ensures { result ≡ block_ok edition block.now }
{
    head_ok(block)
        && fillers_zero(block)
        && number_of(&block[SUM..SETTING_OCTETS]) == sum_of(&block[0..SUM])
}

fn plan_in(block: &[u8; SETTING_OCTETS]) -> Plan
    ensures { result ≡ plan_in edition block.now }
{
    let count = number_of(&block[COUNT..GROUPS]) as u16;
    plan_octets::of_octets(count, &block[GROUPS..SLOT_MASK])
}

fn registers_in(block: &[u8; SETTING_OCTETS]) -> Registers
    ensures { result ≡ registers_in edition block.now }
{
    let slots = Register {
        mask: number_of(&block[SLOT_MASK..SLOT_START]),
        start: number_of(&block[SLOT_START..TMCC_MASK]),
    };
    let tmcc = Register {
        mask: number_of(&block[TMCC_MASK..TMCC_START]),
        start: number_of(&block[TMCC_START..ZEROS]),
    };
    Registers { slots, tmcc }
}

#[tactic(auto, unfolding(crate::specs::Blocks::registers_ok))]
fn registers_ok(registers: Registers) -> bool
    ensures { result ≡ registers_ok registers }
{
    let slots = registers.slots;
    let tmcc = registers.tmcc;
    dispersal::settings_ok(SLOT_WIDTH, slots.mask, slots.start)
        && dispersal::settings_ok(BLOCK_WIDTH, tmcc.mask, tmcc.start)
}

fn check_registers(registers: Registers) -> Result<(), Refusal>
    ensures { number result ≡ pick (registers_ok registers) 0 REGISTER }
{
    if !registers_ok(registers) {
        return Err(Refusal::Register);
    }
    Ok(())
}

// The refusal of plan or registers.
#[tactic(auto, using(refusal::specs::AnswerLaws::refused_not_0), unfolding(crate::specs::Blocks::setting_number))]
pub fn check_setting(plan: Plan, registers: Registers) -> Result<(), Refusal>
    ensures { number result ≡ setting_number plan registers }
{
    plan::check_plan(plan)?;
    check_registers(registers)
}

// Reads a block.
#[tactic(auto, using(refusal::specs::AnswerLaws::refused_not_0), unfolding(crate::specs::Blocks::block_number))]
pub fn read_block(block: &[u8]) -> Result<Settings, Refusal>
    requires { Block block.now }
    ensures { as_settings result ≡ answer (block_number edition block.now) (plan_in edition block.now) (registers_in edition block.now) }
{
    let block: &[u8; SETTING_OCTETS] = block.as_array().unwrap();
    if !block_ok(block) {
        return Err(Refusal::Block);
    }
    let plan = plan_in(block);
    let registers = registers_in(block);
    check_setting(plan, registers)?;
    Ok(Settings { plan, registers })
}

// Puts count and groups.
fn put_plan(plan: Plan, octets: &mut [u8])
    requires { Room plan 25 octets.old }
    ensures { octets.new ≡ plan_octets edition plan }
{
    put_number(u32::from(plan.count), &mut octets[0..1]);
    plan_octets::put_groups(plan, &mut octets[1..25]);
}

// Puts mark, edition and plan.
fn put_head(plan: Plan, octets: &mut [u8])
    requires { Room plan 30 octets.old }
    ensures { octets.new ≡ head_octets edition plan }
{
    octets[0..EDITION_AT].copy_from_slice(&MARK);
    put_number(EDITION, &mut octets[EDITION_AT..COUNT]);
    put_plan(plan, &mut octets[COUNT..SLOT_MASK]);
}

// Puts a register's mask and start.
fn put_register(register: Register, octets: &mut [u8])
    requires { length octets.old ≡ 8 }
    ensures { octets.new ≡ big_endian 4 register.mask ++ big_endian 4 register.start }
{
    put_number(register.mask, &mut octets[0..4]);
    put_number(register.start, &mut octets[4..8]);
}

fn put_registers(registers: Registers, octets: &mut [u8])
    requires { length octets.old ≡ 16 }
    ensures { octets.new ≡ register_octets edition registers }
{
    put_register(registers.slots, &mut octets[0..8]);
    put_register(registers.tmcc, &mut octets[8..16]);
}

// Puts all that stands before the sum.
fn put_body(plan: Plan, registers: Registers, octets: &mut [u8])
    requires { Room plan 510 octets.old }
    ensures { octets.new ≡ body edition plan registers }
{
    put_head(plan, &mut octets[0..SLOT_MASK]);
    put_registers(registers, &mut octets[SLOT_MASK..ZEROS]);
    octets[ZEROS..SUM].fill(0);
}

// Puts the block of plan and registers.
pub fn put_block(plan: Plan, registers: Registers, block: &mut [u8])
    requires { Room plan setting_octets block.old }
    ensures { block.new ≡ block_of edition plan registers }
{
    put_body(plan, registers, &mut block[0..SUM]);
    let sum = sum_of(&block[0..SUM]);
    put_number(sum, &mut block[SUM..SETTING_OCTETS]);
}
