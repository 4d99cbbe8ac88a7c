//! The words of a file, line by line.
ghost use Rattle.std.specs.Prelude.{◌≡◌, ◌≤◌, length, MatchResult, Ok, Err};
ghost use Rattle.word_file.specs.Reading.{word_file};

use crate::fault::{WordFault, WordKind};
use crate::line::{WordLine, read_line};
use arrayvec::ArrayVec;
use byte_lines::first_line;

/// The words of a file of at most 262,144 bytes, or its first fault. It takes no memory.
pub fn read_words(bytes: &[u8]) -> Result<ArrayVec<u16, 32>, WordFault>
    requires { length bytes.now ≤ 262144 }
    ensures { MatchResult result (λ words. word_file bytes.now ≡ Ok words.items)
        (λ fault. word_file bytes.now ≡ Err fault) }
{
    let mut words = ArrayVec::new();
    let mut rest = Some(bytes);
    let mut number = 1;
    while let Some(text) = rest {
        let (line, after) = first_line(text);
        match read_line(line) {
            WordLine::Blank => {}
            WordLine::Bad => return Err(fault(number, WordKind::BadWord)),
            WordLine::Word(word) => {
                if words.is_full() {
                    return Err(fault(number, WordKind::TooMany));
                }
                words.push(word);
            }
        }
        rest = after;
        number += 1;
    }
    Ok(words)
}

fn fault(line: usize, kind: WordKind) -> WordFault
    ensures { result ≡ record { line = line; kind = kind } }
{
    WordFault { line, kind }
}
