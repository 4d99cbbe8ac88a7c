//! What clap makes of the words by the command `piotool`, and which fault it is where it gives no matches.
ghost use Rattle.std.specs.Prelude.{◌≡◌, ◌≢◌, ◌↔◌, [], Err, IfErr, IfOk, map, string_bytes, true};
ghost use Rattle.clap.specs.Faults.{fault_of};
ghost use Rattle.clap.specs.Matches.{has_subcommand};
ghost use Rattle.clap.specs.Simple.{subcommand_of, subcommand_rows_of};
ghost use Rattle.clap.specs.Takes.{takes};
ghost use Rattle.clap.specs.Values.{kind_of};
ghost use Rattle.command_line.specs.Tool.{tool as tool_app};
ghost use Rattle.command_line.specs.Words.{IsFaultOfWords};

use crate::command::tool;
use crate::order::WordsFault;
use clap::error::ErrorKind;
use clap::{ArgMatches, Error};
use std::alloc::Global;

/// The matches that clap gives for the words. Without any, Memory means want of memory, and Usage any other error of
/// clap.
pub fn matched<'a>(alloc: Global, words: &'a [String]) -> Result<ArgMatches<'a>, WordsFault>
    ensures passed { IfOk result (λ _. fault_of tool_app (map string_bytes words.entry.now) ≡ []) }
    ensures rows { IfOk result (λ m. subcommand_rows_of m
        ≡ subcommand_of tool_app (map string_bytes words.entry.now)) }
    ensures subcommand { IfOk result (λ m. has_subcommand m ≡ true) }
    ensures cause { IfErr result (IsFaultOfWords (map string_bytes words.entry.now)) }
    ensures taken { takes tool_app (map string_bytes words.entry.now) ≡ true
        → result ≢ Err WordsFault.Usage }
{
    let Ok(command) = tool(alloc) else {
        return Err(WordsFault::Memory);
    };
    match command.try_get_matches_from(words) {
        Ok(matches) => Ok(matches),
        Err(error) => Err(fault_by(&error)),
    }
}

/// Each of clap's errors is Usage, help among them, but for want of memory.
fn fault_by(error: &Error) -> WordsFault
    ensures { (result ≡ WordsFault.Usage) ↔ (kind_of error.now ≢ ErrorKind.OutOfMemory) }
{
    match error.kind() {
        ErrorKind::OutOfMemory => WordsFault::Memory,
        _ => WordsFault::Usage,
    }
}
