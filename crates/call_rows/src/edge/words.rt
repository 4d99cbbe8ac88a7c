//! Words with their texts, words under every rule, loaded words, and names.
use pio_encode::{Act, Name, SideRule, WaitSource, decode, encode, op_fits, relocate, spell};
use row_tables::side_rule_of;
use std::alloc::Global;

/// Adds the text of a word. A row asks for the rule of side-set on a line, as `side_set 1 opt`, and the word.
pub fn tell_text(asked: &str, text: &mut String) -> Option<()> {
    let (rule, word) = ruled_word(asked)?;
    text.push_str(spell(word, &rule).as_str()).ok()
}

/// Adds whether a word does nothing, and its text. A row asks as for a text.
pub fn tell_act(asked: &str, text: &mut String) -> Option<()> {
    let (rule, word) = ruled_word(asked)?;
    let does = match decode(word, &rule).act {
        Act::Nothing => "nothing",
        _ => "something",
    };
    write!(text, "{does}, {}", spell(word, &rule).as_str()).ok()
}

fn ruled_word(asked: &str) -> Option<(SideRule, u16)> {
    let (rule, word) = asked.split_once('\n')?;
    Some((rule_of(rule)?, word_of(word)?))
}

fn rule_of(line: &str) -> Option<SideRule> {
    side_rule_of(line.strip_prefix("side_set ")?)
}

fn word_of(digits: &str) -> Option<u16> {
    u16::from_str_radix(digits, 16).ok()
}

/// Adds the first word under a rule whose text is a number though an instruction that can be written has the word, or
/// the other way round; `none` where there is none of all 65,536.
pub fn tell_first_wrong(asked: &str, text: &mut String) -> Option<()> {
    match first_wrong(&rule_of(asked)?) {
        Some(word) => write!(text, "{word:04x}").ok(),
        None => text.push_str("none").ok(),
    }
}

fn first_wrong(rule: &SideRule) -> Option<u16> {
    for word in 0..=u16::MAX {
        let is_number = spell(word, rule).as_str().starts_with(".word 0x");
        if is_number == is_written(word, rule) {
            return Some(word);
        }
    }
    None
}

/// An instruction that can be written has the word.
fn is_written(word: u16, rule: &SideRule) -> bool {
    let op = decode(word, rule);
    op_fits(&op, rule) && encode(&op, rule) == word && !is_unwritable(op.act)
}

/// A flag above 7, or both clear and wait.
fn is_unwritable(act: Act) -> bool {
    match act {
        Act::Wait {
            source: WaitSource::Irq,
            index,
            ..
        } => index & 8 != 0,
        Act::Irq { clear, wait, index } => clear && wait || index & 8 != 0,
        _ => false,
    }
}

/// Adds a word as it is loaded at an address, or `no target`. A row asks for `0001 at 5`.
pub fn tell_loaded(asked: &str, text: &mut String) -> Option<()> {
    let (word, address) = asked.split_once(" at ")?;
    let word = word_of(word)?;
    let address: u8 = address.parse().ok()?;
    if address > 31 {
        return None;
    }
    match relocate(word, address) {
        Some(loaded) => write!(text, "{loaded:04x}").ok(),
        None => text.push_str("no target").ok(),
    }
}

/// Adds whether two names are the same, and the first one as it is shown. A row asks for a name on each of two lines.
pub fn tell_names(alloc: Global, asked: &str, text: &mut String) -> Option<()> {
    let (first, second) = asked.split_once('\n')?;
    let first = Name::new(String::from_str(alloc, first).ok()?);
    let second = Name::new(String::from_str(alloc, second).ok()?);
    let is_same = if first == second { "same" } else { "other" };
    write!(text, "{is_same} <{first}>").ok()
}
