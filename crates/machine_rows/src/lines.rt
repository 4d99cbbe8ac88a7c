//! The lines of a row of several, and the numbers in them.
use std::alloc::Global;

/// What comes after this head and a blank in the one line that has them; none where no line has, or two.
pub fn only<'a>(lines: &'a str, head: &str) -> Option<&'a str> {
    let mut found = None;
    for line in lines.lines() {
        if let Some(rest) = after_head(line, head) {
            if found.is_some() {
                return None;
            }
            found = Some(rest);
        }
    }
    found
}

/// What comes after this head and a blank, where the line has them.
fn after_head<'a>(line: &'a str, head: &str) -> Option<&'a str> {
    line.strip_prefix(head)?.strip_prefix(' ')
}

/// Whether a line is there.
pub fn has(lines: &str, wanted: &str) -> bool {
    for line in lines.lines() {
        if line == wanted {
            return true;
        }
    }
    false
}

/// A word and its mnemonic: two blanks are between them, as in no other line.
pub fn word_line(line: &str) -> Option<(&str, &str)> {
    line.split_once("  ")
}

/// Whether a line is one of a stimulus: it begins with a clock, or with `version`.
pub fn is_stimulus(line: &str) -> bool {
    let begins = line.starts_with(['0', '1', '2', '3', '4', '5', '6', '7', '8', '9', 'v']);
    begins && word_line(line).is_none()
}

/// The lines of the stimulus.
pub fn stimulus(alloc: Global, lines: &str) -> Option<String> {
    let mut text = String::new(alloc);
    for line in lines.lines() {
        if is_stimulus(line) {
            text.push_str(line).ok()?;
            text.push('\n').ok()?;
        }
    }
    Some(text)
}

/// A number in decimal, or in hexadecimal after `0x`, or in binary after `0b`.
pub fn number(text: &str) -> Option<u32> {
    if let Some(digits) = text.strip_prefix("0x") {
        return u32::from_str_radix(digits, 16).ok();
    }
    match text.strip_prefix("0b") {
        Some(digits) => u32::from_str_radix(digits, 2).ok(),
        None => text.parse().ok(),
    }
}

/// A number up to this one.
pub fn up_to(most: u8, text: &str) -> Option<u8> {
    let value: u8 = text.parse().ok()?;
    if value > most {
        return None;
    }
    Some(value)
}

/// The pins of a list with a blank between. Bit i is that of pin i.
pub fn pins(list: &str) -> Option<u32> {
    let mut pins = 0_u32;
    for pin in list.split(' ') {
        let pin: u32 = pin.parse().ok()?;
        if pin > 31 {
            return None;
        }
        pins |= 1 << pin;
    }
    Some(pins)
}

/// The numbers of a list with a blank between.
pub fn numbers(alloc: Global, list: &str) -> Option<Vec<u32>> {
    let mut numbers = Vec::new(alloc);
    for each in list.split(' ') {
        if !each.is_empty() {
            numbers.push(number(each)?).ok()?;
        }
    }
    Some(numbers)
}

/// The clocks of a list with a blank between.
pub fn clocks(alloc: Global, list: &str) -> Option<Vec<u64>> {
    let mut clocks = Vec::new(alloc);
    for clock in list.split(' ') {
        if !clock.is_empty() {
            clocks.push(clock.parse().ok()?).ok()?;
        }
    }
    Some(clocks)
}

/// True of `true`, false of `false`.
pub fn truth(text: &str) -> Option<bool> {
    match text {
        "true" => Some(true),
        "false" => Some(false),
        _ => None,
    }
}
