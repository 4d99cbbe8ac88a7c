//! The word of an instruction, field by field (RP2040 Datasheet, section 3.4).
ghost use Rattle.std.specs.Prelude.{◌≡◌, ◌+◌, ◌*◌, ◌<◌, ◌≤◌, ◌^◌, ◌↔◌, IsTrue};
ghost use Rattle.pio_encode.specs.Ranges.{OpFits, IsInRange, IsInstruction, SideFits, delay_bits};
ghost use Rattle.pio_encode.specs.Word as spec;

use crate::act::Act;
use crate::op::Op;
use crate::rule::SideRule;

/// Whether an instruction has a word under a side-set rule.
pub fn op_fits(op: &Op, rule: &SideRule) -> bool
    ensures { IsTrue result ↔ OpFits op.now rule.now }
{
    is_in_range(op.act) && side_fits(rule, op.side) && op.delay < (1 << rule.delay_bits())
}

/// The word of an instruction under a side-set rule.
#[tactic(auto, unfolding(crate::specs::Word::word_of))]
pub fn encode(op: &Op, rule: &SideRule) -> u16
    requires { OpFits op.now rule.now }
    ensures { result ≡ spec.word_of op.now rule.now }
{
    let shared = side_and_delay(rule, op.side, op.delay);
    (kind_of(op.act) << 13) + (u16::from(shared) << 8) + u16::from(operands_of(op.act))
}

/// Whether it is an instruction, each of whose operands has a field's value.
fn is_in_range(act: Act) -> bool
    ensures { IsTrue result ↔ (IsInstruction act × IsInRange act) }
{
    match act {
        Act::Jmp { address, .. } => address < 32,
        Act::Wait { index, .. } | Act::Irq { index, .. } => index < 32,
        Act::In { count, .. } | Act::Out { count, .. } => 1 <= count && count <= 32,
        Act::Push { .. } | Act::Pull { .. } | Act::Mov { .. } => true,
        Act::Set { value, .. } => value < 32,
        Act::Nothing => false,
    }
}

/// Whether the rule asks for this side-set value, or for none.
fn side_fits(rule: &SideRule, side: Option<u8>) -> bool
    ensures { IsTrue result ↔ SideFits rule.now side }
{
    match side {
        Some(value) => value < (1 << rule.bits) && (rule.opt || rule.bits > 0),
        None => rule.opt || rule.bits == 0,
    }
}

/// Bits 15 to 13 as a number.
#[tactic(auto, unfolding(crate::specs::Word::kind_of))]
fn kind_of(act: Act) -> u16
    ensures value { result ≡ spec.kind_of act }
    ensures range { result < 8 }
{
    match act {
        Act::Jmp { .. } | Act::Nothing => 0,
        Act::Wait { .. } => 1,
        Act::In { .. } => 2,
        Act::Out { .. } => 3,
        Act::Push { .. } | Act::Pull { .. } => 4,
        Act::Mov { .. } => 5,
        Act::Irq { .. } => 6,
        Act::Set { .. } => 7,
    }
}

/// Bits 7 to 0.
#[tactic(auto, unfolding(crate::specs::Word::operands_of))]
fn operands_of(act: Act) -> u8
    requires { IsInRange act }
    ensures { result ≡ spec.operands_of act }
{
    match act {
        Act::Jmp { condition, address } => (condition.number() << 5) + address,
        Act::Wait {
            polarity,
            source,
            index,
        } => { (u8::from(polarity) << 7) + (source.number() << 5) + index }
        Act::In { source, count } => (source.number() << 5) + count % 32,
        Act::Out { destination, count } => (destination.number() << 5) + count % 32,
        Act::Push { if_full, block } => (u8::from(if_full) << 6) + (u8::from(block) << 5),
        Act::Pull { if_empty, block } => {
            (1 << 7) + (u8::from(if_empty) << 6) + (u8::from(block) << 5)
        }
        Act::Mov {
            destination,
            operation,
            source,
        } => { (destination.number() << 5) + (operation.number() << 3) + source.number() }
        Act::Irq { clear, wait, index } => {
            (u8::from(clear) << 6) + (u8::from(wait) << 5) + index
        }
        Act::Set { destination, value } => (destination.number() << 5) + value,
        Act::Nothing => 0,
    }
}

/// Bits 12 to 8 as a number.
#[tactic(auto, unfolding(crate::specs::Word::side_and_delay))]
fn side_and_delay(rule: &SideRule, side: Option<u8>, delay: u8) -> u8
    requires side { SideFits rule.now side }
    requires delay { delay < 2 ^ delay_bits rule.now }
    ensures value { result ≡ spec.side_and_delay rule.now side delay }
    ensures range { result < 32 }
{
    match side {
        None => delay,
        Some(value) => side_field(rule, value) + delay,
    }
}

/// The side-set value above the delay's bits, with its enable bit under `opt`.
fn side_field(rule: &SideRule, value: u8) -> u8
    requires { value < 2 ^ rule.now.bits }
    ensures value { result ≡ spec.enable_bit rule.now + value * 2 ^ delay_bits rule.now }
    ensures room { result + 2 ^ delay_bits rule.now ≤ 32 }
{
    enable_bit(rule) + (value << rule.delay_bits())
}

/// The topmost of bits 12 to 8 where the rule takes it for a side-set.
fn enable_bit(rule: &SideRule) -> u8
    ensures { result ≡ spec.enable_bit rule.now }
{
    if rule.opt { 1 << 4 } else { 0 }
}
