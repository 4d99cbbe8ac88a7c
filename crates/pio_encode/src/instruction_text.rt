//! How pioasm spells an instruction, without its side-set and its delay.
ghost use Rattle.std.specs.Prelude.{◌≡◌, ◌+◌, ◌<◌, ◌≤◌, ◌++◌, length, decimal, codes};
ghost use Rattle.arrayvec.specs.ArrayString.{array_string_len};
ghost use Rattle.pio_encode.specs.Ranges.{IsInRange};
ghost use Rattle.pio_encode.specs.Text as spec;
ghost use Rattle.pio_encode.specs.declared.act.Act.TheVariants.{Irq, Jmp, Mov, Pull, Push, Wait};

use crate::act::{Act, Condition, MovDestination, MovOperation, MovSource, WaitSource};
use crate::numerals::push_number;
use arrayvec::ArrayString;

/// The text of an instruction; none for a reserved word.
#[tactic(auto, unfolding(crate::specs::Text::act_text))]
pub(crate) fn act_text(act: Act) -> ArrayString<48>
    requires { IsInRange act }
    ensures bytes { result.bytes ≡ spec.act_text act }
    ensures len { array_string_len result ≤ 20 }
{
    match act {
        Act::Jmp { condition, address } => jmp_text(condition, address),
        Act::Wait {
            polarity,
            source,
            index,
        } => wait_text(polarity, source, index),
        Act::In { source, count } => operands_text("in ", source.text(), count),
        Act::Out { destination, count } => operands_text("out ", destination.text(), count),
        Act::Push { if_full, block } => push_text(if_full, block),
        Act::Pull { if_empty, block } => pull_text(if_empty, block),
        Act::Mov {
            destination,
            operation,
            source,
        } => mov_text(destination, operation, source),
        Act::Irq { clear, wait, index } => irq_text(clear, wait, index),
        Act::Set { destination, value } => operands_text("set ", destination.text(), value),
        Act::Nothing => ArrayString::new(),
    }
}

/// IN, OUT and SET: an operand and a number.
fn operands_text(keyword: &str, operand: &str, number: u8) -> ArrayString<48>
    requires keyword { length keyword.now ≤ 4 }
    requires operand { length operand.now ≤ 7 }
    requires number { number < 100 }
    ensures bytes { result.bytes ≡ keyword.now ++ operand.now ++ codes ", " ++ decimal number }
    ensures len { array_string_len result ≤ 20 }
{
    let mut text = ArrayString::new();
    text.push_str(keyword);
    text.push_str(operand);
    text.push_str(", ");
    push_number(&mut text, number);
    text
}

#[tactic(auto, unfolding(crate::specs::Text::act_text))]
fn jmp_text(condition: Condition, address: u8) -> ArrayString<48>
    requires { address < 32 }
    ensures bytes { result.bytes ≡ spec.act_text (Jmp condition address) }
    ensures len { array_string_len result ≤ 20 }
{
    let mut text = ArrayString::new();
    text.push_str("jmp ");
    text.push_str(condition.text());
    push_number(&mut text, address);
    text
}

#[tactic(auto, unfolding(crate::specs::Text::act_text))]
fn wait_text(polarity: bool, source: WaitSource, index: u8) -> ArrayString<48>
    requires { index < 32 }
    ensures bytes { result.bytes ≡ spec.act_text (Wait polarity source index) }
    ensures len { array_string_len result ≤ 20 }
{
    let mut text = ArrayString::new();
    text.push_str("wait ");
    push_number(&mut text, u8::from(polarity));
    text.push_str(" ");
    text.push_str(source.text());
    text.push_str(" ");
    match source {
        WaitSource::Gpio | WaitSource::Pin => push_number(&mut text, index),
        WaitSource::Irq => push_flag(&mut text, index),
    }
    text
}

#[tactic(auto, unfolding(crate::specs::Text::act_text))]
fn push_text(if_full: bool, block: bool) -> ArrayString<48>
    ensures bytes { result.bytes ≡ spec.act_text (Push if_full block) }
    ensures len { array_string_len result ≤ 20 }
{
    let mut text = ArrayString::new();
    text.push_str("push");
    text.push_str(if if_full { " iffull" } else { "" });
    text.push_str(block_text(block));
    text
}

#[tactic(auto, unfolding(crate::specs::Text::act_text))]
fn pull_text(if_empty: bool, block: bool) -> ArrayString<48>
    ensures bytes { result.bytes ≡ spec.act_text (Pull if_empty block) }
    ensures len { array_string_len result ≤ 20 }
{
    let mut text = ArrayString::new();
    text.push_str("pull");
    text.push_str(if if_empty { " ifempty" } else { "" });
    text.push_str(block_text(block));
    text
}

/// Whether a PUSH or a PULL waits.
fn block_text(block: bool) -> &'static str
    ensures value { result.now ≡ spec.block_text block }
    ensures len { length result.now ≤ 8 }
{
    if block { " block" } else { " noblock" }
}

#[tactic(auto, unfolding(crate::specs::Text::act_text))]
fn mov_text(
    destination: MovDestination,
    operation: MovOperation,
    source: MovSource,
) -> ArrayString<48>
    ensures bytes { result.bytes ≡ spec.act_text (Mov destination operation source) }
    ensures len { array_string_len result ≤ 20 }
{
    let mut text = ArrayString::new();
    if is_nop(destination, operation, source) {
        text.push_str("nop");
        return text;
    }
    text.push_str("mov ");
    text.push_str(destination.text());
    text.push_str(", ");
    text.push_str(operation.text());
    text.push_str(source.text());
    text
}

/// Whether it moves Y to itself, which is pioasm's `nop`.
fn is_nop(destination: MovDestination, operation: MovOperation, source: MovSource) -> bool
    ensures { result ≡ spec.is_nop destination operation source }
{
    matches!(
        (destination, operation, source),
        (MovDestination::Y, MovOperation::Plain, MovSource::Y)
    )
}

#[tactic(auto, unfolding(crate::specs::Text::act_text))]
fn irq_text(clear: bool, wait: bool, index: u8) -> ArrayString<48>
    requires { index < 32 }
    ensures bytes { result.bytes ≡ spec.act_text (Irq clear wait index) }
    ensures len { array_string_len result ≤ 20 }
{
    let mut text = ArrayString::new();
    text.push_str("irq ");
    text.push_str(irq_mode_text(clear, wait));
    text.push_str(" ");
    push_flag(&mut text, index);
    text
}

/// What an IRQ does to its flag.
fn irq_mode_text(clear: bool, wait: bool) -> &'static str
    ensures value { result.now ≡ spec.irq_mode_text clear wait }
    ensures len { length result.now ≤ 6 }
{
    match (clear, wait) {
        (true, _) => "clear",
        (false, true) => "wait",
        (false, false) => "nowait",
    }
}

/// Appends an IRQ flag's number, and `rel` where bit 4 of the index is set.
fn push_flag(text: &mut ArrayString<48>, index: u8)
    requires index { index < 32 }
    requires room { array_string_len text.old ≤ 14 }
    ensures bytes { text.new.bytes ≡ text.old.bytes ++ spec.flag_text index }
    ensures len { array_string_len text.new ≤ array_string_len text.old + 6 }
{
    push_number(text, index % 8);
    if index >> 4 == 1 {
        text.push_str(" rel");
    }
}
