//! Words as lines: address, digits, text.
ghost use Rattle.std.specs.Prelude.{◌≡◌, ◌+◌, ◌<◌, ◌≤◌, [], ◌∷◌, ◌++◌, length, false, if◌then◌else◌};
ghost use Rattle.std.specs.Fmt.{digit_glyph};
ghost use Rattle.arrayvec.specs.ArrayString.{array_string_len};
ghost use Rattle.pio_edge.specs.Edge.{Takes, PutCounts};
ghost use Rattle.word_file.specs.Listing as spec;

use arrayvec::ArrayString;
use pio_edge::{Sink, SinkFailed};
use pio_encode::{SideRule, spell};

/// Puts the lines of at most 32 words that are from address 0 on, each as one piece. It takes no memory.
pub fn put_words<S: Sink>(sink: &mut S, words: &[u16], rule: &SideRule) -> Result<(), SinkFailed>
    requires { length words.now ≤ 32 }
    ensures bytes { Takes (S.taken sink.old) (spec.word_lines rule.now words.now) (S.taken sink.new) result }
    ensures cause { PutCounts (S.faults sink.old) (S.faults sink.new) result }
{
    for (place, word) in words.iter().enumerate() {
        sink.put(word_line(rule, place as u8, *word).as_str().as_bytes())?;
    }
    Ok(())
}

/// The line of a word at an address below 100.
#[tactic(auto, unfolding(crate::specs::Listing::word_line))]
fn word_line(rule: &SideRule, place: u8, word: u16) -> ArrayString<64>
    requires { place < 100 }
    ensures { result.bytes ≡ spec.word_line rule.now place word }
{
    let mut line = ArrayString::new();
    push_place(&mut line, place);
    line.push_str(" ");
    push_hexadecimal(&mut line, word);
    line.push_str(" ");
    line.push_str(spell(word, rule).as_str());
    line.push_str("\n");
    line
}

/// Appends an address in two decimal digits.
fn push_place(line: &mut ArrayString<64>, place: u8)
    requires place { place < 100 }
    requires room { array_string_len line.old ≤ 50 }
    ensures bytes { line.new.bytes ≡ line.old.bytes ++ spec.place_text place }
    ensures len { array_string_len line.new ≡ array_string_len line.old + 2 }
{
    push_ascii(line, b'0' + place / 10);
    push_ascii(line, b'0' + place % 10);
}

/// Appends a word in four lower-case hexadecimal digits.
fn push_hexadecimal(line: &mut ArrayString<64>, word: u16)
    requires room { array_string_len line.old ≤ 50 }
    ensures bytes { line.new.bytes ≡ line.old.bytes ++ spec.hexadecimal word }
    ensures len { array_string_len line.new ≡ array_string_len line.old + 4 }
{
    push_digit(line, (word >> 12) as u8);
    push_digit(line, ((word >> 8) % 16) as u8);
    push_digit(line, ((word >> 4) % 16) as u8);
    push_digit(line, (word % 16) as u8);
}

fn push_digit(line: &mut ArrayString<64>, digit: u8)
    requires size { digit < 16 }
    requires room { array_string_len line.old ≤ 60 }
    ensures bytes { line.new.bytes ≡ line.old.bytes ++ digit_glyph false digit ∷ [] }
    ensures len { array_string_len line.new ≡ array_string_len line.old + 1 }
{
    if digit < 10 {
        push_ascii(line, b'0' + digit);
    } else {
        push_ascii(line, b'a' - 10 + digit);
    }
}

fn push_ascii(line: &mut ArrayString<64>, glyph: u8)
    requires ascii { glyph < 128 }
    requires room { array_string_len line.old ≤ 62 }
    ensures bytes { line.new.bytes ≡ line.old.bytes ++ glyph ∷ [] }
    ensures len { array_string_len line.new ≡ array_string_len line.old + 1 }
{
    line.push(char::from(glyph));
}

/// The rule of so many side-set bits (0 to 5, and 0 to 4 under `opt`), which write levels.
#[tactic(auto, unfolding(crate::specs::Listing::rule_for))]
pub fn make_rule(bits: u8, opt: bool) -> SideRule
    requires { bits + (if opt then 1 else 0) ≤ 5 }
    ensures { result ≡ spec.rule_for bits opt }
{
    SideRule {
        bits,
        opt,
        pindirs: false,
    }
}
