//! The meaning of a word, field by field (RP2040 Datasheet, section 3.4).
ghost use Rattle.std.specs.Prelude.{◌≡◌, ◌<◌, ◌^◌, IfSome};
ghost use Rattle.pio_encode.specs.Ranges.{OpFits, IsInRange, IsInstruction, SideFits, delay_bits};
ghost use Rattle.pio_encode.specs.Word as spec;

use crate::act::{Act, InSource, SetDestination, WaitSource};
use crate::fields::{
    bit, bits, condition_at, count_at, mov_destination_at, mov_operation_at, mov_source_at,
    out_destination_at,
};
use crate::op::Op;
use crate::rule::SideRule;

/// What a word means under a side-set rule. A reserved word is `Act::Nothing` with its side-set and its delay.
#[tactic(auto, unfolding(crate::specs::Word::reading_of))]
pub fn decode(word: u16, rule: &SideRule) -> Op
    ensures value { result ≡ spec.reading_of word rule.now }
    ensures act { IsInRange result.act }
    ensures fits { IsInstruction result.act → OpFits result rule.now }
    ensures delay { result.delay < 32 }
    ensures delay_in_bits { result.delay < 2 ^ delay_bits rule.now }
    ensures side { IfSome result.side (λ v. v < 32) }
    ensures side_in_bits { IfSome result.side (λ v. v < 2 ^ rule.now.bits) }
{
    let shared = bits(word, 8, 5);
    Op {
        side: side_of(rule, shared),
        delay: delay_of(rule, shared),
        act: act_of(word),
    }
}

/// What a word does, by its kind in bits 15 to 13.
#[tactic(auto, unfolding(crate::specs::Word::act_of))]
fn act_of(word: u16) -> Act
    ensures value { result ≡ spec.act_of word }
    ensures range { IsInRange result }
{
    match bits(word, 13, 3) {
        0 => Act::Jmp {
            condition: condition_at(bits(word, 5, 3)),
            address: bits(word, 0, 5),
        },
        1 => wait_at(word),
        2 => in_at(word),
        3 => Act::Out {
            destination: out_destination_at(bits(word, 5, 3)),
            count: count_at(bits(word, 0, 5)),
        },
        4 => push_or_pull_at(word),
        5 => mov_at(word),
        6 => irq_at(word),
        _ => set_at(word),
    }
}

/// A WAIT, or a reserved word.
#[tactic(auto, unfolding(crate::specs::Word::wait_at))]
fn wait_at(word: u16) -> Act
    ensures value { result ≡ spec.wait_at word }
    ensures range { IsInRange result }
{
    let source = match bits(word, 5, 2) {
        0 => WaitSource::Gpio,
        1 => WaitSource::Pin,
        2 => WaitSource::Irq,
        _ => return Act::Nothing,
    };
    Act::Wait {
        polarity: bit(word, 7),
        source,
        index: bits(word, 0, 5),
    }
}

/// An IN, or a reserved word.
#[tactic(auto, unfolding(crate::specs::Word::in_at))]
fn in_at(word: u16) -> Act
    ensures value { result ≡ spec.in_at word }
    ensures range { IsInRange result }
{
    let source = match bits(word, 5, 3) {
        0 => InSource::Pins,
        1 => InSource::X,
        2 => InSource::Y,
        3 => InSource::Null,
        6 => InSource::Isr,
        7 => InSource::Osr,
        _ => return Act::Nothing,
    };
    Act::In {
        source,
        count: count_at(bits(word, 0, 5)),
    }
}

/// A PUSH, a PULL or a reserved word.
#[tactic(auto, unfolding(crate::specs::Word::push_or_pull_at))]
fn push_or_pull_at(word: u16) -> Act
    ensures value { result ≡ spec.push_or_pull_at word }
    ensures range { IsInRange result }
{
    if bits(word, 0, 5) != 0 {
        return Act::Nothing;
    }
    if bit(word, 7) {
        Act::Pull {
            if_empty: bit(word, 6),
            block: bit(word, 5),
        }
    } else {
        Act::Push {
            if_full: bit(word, 6),
            block: bit(word, 5),
        }
    }
}

/// A MOV, or a reserved word.
#[tactic(auto, unfolding(crate::specs::Word::mov_at))]
fn mov_at(word: u16) -> Act
    ensures value { result ≡ spec.mov_at word }
    ensures range { IsInRange result }
{
    match (
        mov_destination_at(bits(word, 5, 3)),
        mov_operation_at(bits(word, 3, 2)),
        mov_source_at(bits(word, 0, 3)),
    ) {
        (Some(destination), Some(operation), Some(source)) => {
            Act::Mov {
                destination,
                operation,
                source,
            }
        }
        _ => Act::Nothing,
    }
}

/// An IRQ, or a reserved word.
#[tactic(auto, unfolding(crate::specs::Word::irq_at))]
fn irq_at(word: u16) -> Act
    ensures value { result ≡ spec.irq_at word }
    ensures range { IsInRange result }
{
    if bit(word, 7) {
        return Act::Nothing;
    }
    Act::Irq {
        clear: bit(word, 6),
        wait: bit(word, 5),
        index: bits(word, 0, 5),
    }
}

/// A SET, or a reserved word.
#[tactic(auto, unfolding(crate::specs::Word::set_at))]
fn set_at(word: u16) -> Act
    ensures value { result ≡ spec.set_at word }
    ensures range { IsInRange result }
{
    let destination = match bits(word, 5, 3) {
        0 => SetDestination::Pins,
        1 => SetDestination::X,
        2 => SetDestination::Y,
        4 => SetDestination::Pindirs,
        _ => return Act::Nothing,
    };
    Act::Set {
        destination,
        value: bits(word, 0, 5),
    }
}

/// The side-set value in bits 12 to 8, where there is one.
#[tactic(auto, unfolding(crate::specs::Word::side_of))]
fn side_of(rule: &SideRule, shared: u8) -> Option<u8>
    requires { shared < 32 }
    ensures value { result ≡ spec.side_of rule.now shared }
    ensures fits { SideFits rule.now result }
    ensures range { IfSome result (λ v. v < 32) }
    ensures range_in_bits { IfSome result (λ v. v < 2 ^ rule.now.bits) }
{
    let is_there = if rule.opt {
        shared >> 4 == 1
    } else {
        rule.bits > 0
    };
    if is_there {
        Some((shared >> rule.delay_bits()) % (1 << rule.bits))
    } else {
        None
    }
}

/// The delay in bits 12 to 8.
#[tactic(auto, unfolding(crate::specs::Word::delay_of))]
fn delay_of(rule: &SideRule, shared: u8) -> u8
    requires { shared < 32 }
    ensures value { result ≡ spec.delay_of rule.now shared }
    ensures range { result < 32 }
    ensures range_in_bits { result < 2 ^ delay_bits rule.now }
{
    shared % (1 << rule.delay_bits())
}
