//! The bytes that a spelled text gives.
use std::alloc::AllocError;

/// Adds the bytes of a spelled text: a `|` is a newline, `^ff` the byte 0xff, and `` `3 nop|` `` three times `nop|`,
/// with the number from 0 on in the place of `#`, and the next number in that of `@`. In a repeated text `~32 nop|~`
/// is 32 times `nop|`. None where memory runs out, or the text isn't well written.
pub fn spell(text: &str, bytes: &mut Vec<u8>) -> Option<()> {
    let mut is_repeated = false;
    for part in text.split('`') {
        if is_repeated {
            repeat(part, bytes)?;
        } else {
            add(part, None, bytes)?;
        }
        is_repeated = !is_repeated;
    }
    Some(())
}

fn repeat(part: &str, bytes: &mut Vec<u8>) -> Option<()> {
    let (times, each) = counted(part)?;
    for number in 0..times {
        add_parts(each, number, bytes)?;
    }
    Some(())
}

/// How often a text is repeated, and the text.
fn counted(part: &str) -> Option<(u32, &str)> {
    let (times, each) = part.split_once(' ')?;
    Some((times.parse().ok()?, each))
}

/// Adds a repeated text, the parts between tildes as often as they say.
fn add_parts(text: &str, number: u32, bytes: &mut Vec<u8>) -> Option<()> {
    let mut is_repeated = false;
    for part in text.split('~') {
        let (times, each) = if is_repeated {
            counted(part)?
        } else {
            (1, part)
        };
        for _ in 0..times {
            add(each, Some(number), bytes)?;
        }
        is_repeated = !is_repeated;
    }
    Some(())
}

/// Adds a text that isn't repeated, or one that is with its number.
fn add(text: &str, number: Option<u32>, bytes: &mut Vec<u8>) -> Option<()> {
    let mut parts = text.split('^');
    add_letters(parts.next()?, number, bytes).ok()?;
    for part in parts {
        let (digits, letters) = part.split_at_checked(2)?;
        bytes.push(u8::from_str_radix(digits, 16).ok()?).ok()?;
        add_letters(letters, number, bytes).ok()?;
    }
    Some(())
}

fn add_letters(text: &str, number: Option<u32>, bytes: &mut Vec<u8>) -> Result<(), AllocError> {
    for byte in text.bytes() {
        match (byte, number) {
            (b'|', _) => bytes.push(b'\n')?,
            (b'#', Some(number)) => add_number(number, bytes)?,
            (b'@', Some(number)) => add_number(number.saturating_add(1), bytes)?,
            _ => bytes.push(byte)?,
        }
    }
    Ok(())
}

/// Adds a number below 10,000 in decimal digits.
fn add_number(number: u32, bytes: &mut Vec<u8>) -> Result<(), AllocError> {
    let mut is_begun = false;
    for digit in [number / 1000, number / 100, number / 10] {
        is_begun = is_begun || digit > 0;
        if is_begun {
            add_digit(digit, bytes)?;
        }
    }
    add_digit(number, bytes)
}

/// Adds the last digit of a number.
fn add_digit(number: u32, bytes: &mut Vec<u8>) -> Result<(), AllocError> {
    bytes.push(b'0' + (number % 10) as u8)?;
    Ok(())
}
