//! The text of a word: an instruction in pioasm's spelling, or the word's number.
ghost use Rattle.std.specs.Prelude.{◌≡◌, ◌+◌, ◌<◌, ◌≤◌, ◌++◌, IfSome};
ghost use Rattle.arrayvec.specs.ArrayString.{array_string_len};
ghost use Rattle.pio_encode.specs.Ranges.{IsInRange};
ghost use Rattle.pio_encode.specs.Spelling as spec;
ghost use Rattle.pio_encode.specs.Text as text_spec;

use crate::act::{Act, WaitSource};
use crate::decoding::decode;
use crate::fields::bits;
use crate::instruction_text::act_text;
use crate::numerals::{push_digit, push_number};
use crate::op::Op;
use crate::rule::SideRule;
use crate::word::encode;
use arrayvec::ArrayString;

/// The text of a word under a side-set rule: the instruction that pioasm assembles to exactly this word, or
/// `.word 0xhhhh` where there is none. At most 32 bytes.
#[tactic(auto, unfolding(crate::specs::Spelling::spelled))]
pub fn spell(word: u16, rule: &SideRule) -> ArrayString<48>
    ensures value { result.bytes ≡ spec.spelled word rule.now }
    ensures meaning { spec.IsTextOf word rule.now result.bytes }
{
    let op = decode(word, rule);
    if has_text(op.act) && encode(&op, rule) == word {
        op_text(&op)
    } else {
        word_text(word)
    }
}

/// Whether pioasm can write it.
fn has_text(act: Act) -> bool
    ensures { result ≡ spec.has_text act }
{
    match act {
        Act::Wait {
            source: WaitSource::Irq,
            index,
            ..
        } => is_flag(index),
        Act::Irq { clear, wait, index } => !(clear && wait) && is_flag(index),
        Act::Nothing => false,
        _ => true,
    }
}

/// Whether an index names one of the flags 0 to 7, with `rel` or without.
fn is_flag(index: u8) -> bool
    ensures { result ≡ spec.is_flag index }
{
    (index >> 3) % 2 == 0
}

/// An instruction's text.
#[tactic(auto, unfolding(crate::specs::Text::op_text))]
fn op_text(op: &Op) -> ArrayString<48>
    requires act { IsInRange op.now.act }
    requires side { IfSome op.now.side (λ v. v < 32) }
    requires delay { op.now.delay < 32 }
    ensures { result.bytes ≡ text_spec.op_text op.now }
{
    let mut text = act_text(op.act);
    push_side(&mut text, op.side);
    push_delay(&mut text, op.delay);
    text
}

/// Appends the side-set value, where there is one.
fn push_side(text: &mut ArrayString<48>, side: Option<u8>)
    requires side { IfSome side (λ v. v < 32) }
    requires room { array_string_len text.old ≤ 20 }
    ensures bytes { text.new.bytes ≡ text.old.bytes ++ text_spec.side_text side }
    ensures len { array_string_len text.new ≤ array_string_len text.old + 8 }
{
    if let Some(value) = side {
        text.push_str(" side ");
        push_number(text, value);
    }
}

/// Appends the delay, where it is not 0.
fn push_delay(text: &mut ArrayString<48>, delay: u8)
    requires delay { delay < 32 }
    requires room { array_string_len text.old ≤ 28 }
    ensures { text.new.bytes ≡ text.old.bytes ++ text_spec.delay_text delay }
{
    if delay != 0 {
        text.push_str(" [");
        push_number(text, delay);
        text.push_str("]");
    }
}

/// A word as a number: four lower-case hexadecimal digits.
#[tactic(auto, unfolding(crate::specs::Spelling::word_text))]
fn word_text(word: u16) -> ArrayString<48>
    ensures { result.bytes ≡ spec.word_text word }
{
    let mut text = ArrayString::new();
    text.push_str(".word 0x");
    push_digit(&mut text, bits(word, 12, 4));
    push_digit(&mut text, bits(word, 8, 4));
    push_digit(&mut text, bits(word, 4, 4));
    push_digit(&mut text, bits(word, 0, 4));
    text
}
