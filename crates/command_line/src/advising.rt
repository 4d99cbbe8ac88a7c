//! What a person is told whose words ask for nothing.
ghost use Rattle.std.specs.Prelude.{◌≡◌, IfOk, None, [], is_some, map, string_bytes, true};
ghost use Rattle.clap.specs.Faults.{fault_of};
ghost use Rattle.command_line.specs.Tool.{tool as tool_app};
ghost use Rattle.command_line.specs.Words.{WordsAreRefused, WordsAreTaken};

use crate::command::tool;
use crate::order::WordsFault;
use crate::orders::read;
use clap::Error;
use clap::error::ErrorKind;
use std::alloc::{AllocError, Global};

/// Why `dis` with `--opt` beside `--side 5` is refused, though clap takes it (RP2040 Datasheet, section 3.5.1).
const NO_ROOM: &str =
    "error: '--opt' takes one of the five side-set bits, so it can't be used with '--side 5'\n";

/// What there is to say of the words of a call, the first of which is the program's name: the help where they ask for it,
/// else clap's account of the mistake, with the usage and the nearest spelling. None where the words are an order. The error
/// is want of memory.
pub fn advice(alloc: Global, words: &[String]) -> Result<Option<String>, AllocError>
    ensures refused { IfOk result (λ told. is_some told ≡ true → WordsAreRefused (map string_bytes words.now)) }
    ensures taken { IfOk result (λ told. WordsAreTaken (map string_bytes words.now) → told ≡ None) }
    ensures none { IfOk result (λ told. told ≡ None → fault_of tool_app (map string_bytes words.now) ≡ []) }
{
    match read(alloc, words) {
        Ok(_) => Ok(None),
        Err(WordsFault::Usage) => Ok(Some(account(alloc, words)?)),
        Err(WordsFault::Memory) => Err(AllocError),
    }
}

/// What clap says of words that are refused.
fn account(alloc: Global, words: &[String]) -> Result<String, AllocError> {
    match tool(alloc)?.try_get_matches_from(words) {
        Ok(_) => String::from_str(alloc, NO_ROOM),
        Err(error) => text_of(alloc, &error),
    }
}

/// clap's text of an error or of the help.
fn text_of(alloc: Global, error: &Error) -> Result<String, AllocError> {
    match error.kind() {
        ErrorKind::OutOfMemory => Err(AllocError),
        _ => format!(in alloc; "{error}"),
    }
}
