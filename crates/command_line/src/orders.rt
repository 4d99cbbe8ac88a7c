//! From the words of a call to an order, by clap's matches: one function for each subcommand.
ghost use Rattle.std.specs.Prelude.{◌≡◌, ◌≢◌, Err, IfErr, IfOk, Some, codes, map, string_bytes, true};
ghost use Rattle.clap.specs.Matches.{found_of, has_subcommand};
ghost use Rattle.clap.specs.Simple.{subcommand_rows_of};
ghost use Rattle.clap.specs.Walk.{first_of, rows_of};
ghost use Rattle.std.specs.Option.{option_map};
ghost use Rattle.command_line.specs.Asking.{checker_asked, observer_asked};
ghost use Rattle.command_line.specs.Words.{Asks, IsFaultOfWords, WordsAreTaken, IsWithinRange, asked_by, asm_asked, check_asked, dis_asked, gen_asked, inspect_asked, measure_asked, pair_asked};
ghost use Rattle.command_line.specs.Words.{has_no_room as has_no_room_of, receive_asked, recheck_asked, run_asked, shares_asked, subcommand_asked, table_asked, text_at, uart_asked};

use crate::getters::{flag, number, option_text, text};
use crate::matching::matched;
use crate::order::{
    LAST_PIN, LEAST_BIT, LEAST_DIVIDER, MOST_BIT, MOST_CLOCKS, MOST_DIVIDER, MOST_SEED,
    MOST_SIDE_BITS, Order, PairFiles, RunFiles, SerialLine, WordsFault,
};
use clap::ArgMatches;
use std::alloc::Global;

/// What the words of a call ask for; the first is the program's name.
pub fn read<'a>(alloc: Global, words: &'a [String]) -> Result<Order<'a>, WordsFault>
    ensures ok { IfOk result (λ o. Asks (map string_bytes words.entry.now) (asked_by o)) }
    ensures range { IfOk result (λ o. IsWithinRange (asked_by o)) }
    ensures cause { IfErr result (IsFaultOfWords (map string_bytes words.entry.now)) }
    ensures taken { WordsAreTaken (map string_bytes words.entry.now) → result ≢ Err WordsFault.Usage }
{
    let matches = matched(alloc, words)?;
    let order = order_of(&matches);
    if has_no_room(order) {
        return Err(WordsFault::Usage);
    }
    Ok(order)
}

/// `--opt` beside `--side 5`.
fn has_no_room(order: Order<'_>) -> bool
    ensures { result ≡ has_no_room_of (asked_by order.entry) }
{
    match order {
        Order::Asm { .. }
        | Order::Run { .. }
        | Order::Check { .. }
        | Order::Table { .. }
        | Order::Recheck { .. }
        | Order::Shares { .. }
        | Order::Gen { .. }
        | Order::Measure { .. }
        | Order::Receive { .. }
        | Order::Uart { .. }
        | Order::Pair { .. }
        | Order::Inspect { .. } => false,
        Order::Dis { side, opt, .. } => u64::from(side) == MOST_SIDE_BITS && opt,
    }
}

/// What the subcommand of the matches asks for.
fn order_of<'a>(matches: &ArgMatches<'a>) -> Order<'a>
    requires { has_subcommand matches.now ≡ true }
    ensures { option_map (λ met. subcommand_asked met.0 met.1) (subcommand_rows_of matches.now)
        ≡ Some (asked_by result) }
{
    let Some((name, found)) = matches.subcommand() else {
        unreachable!()
    };
    program_order(name, found)
}

/// What the subcommand of this name asks for.
fn program_order<'a>(name: &str, matches: &ArgMatches<'a>) -> Order<'a>
    ensures { asked_by result ≡ subcommand_asked name.now (rows_of (found_of matches.now)) }
{
    if name == "asm" {
        asm_order(matches)
    } else if name == "run" {
        run_order(matches)
    } else if name == "check" {
        check_order(matches)
    } else if name == "table" {
        table_order(matches)
    } else {
        checker_order(name, matches)
    }
}

/// What the subcommand of this name asks for, which is none of those before it.
fn checker_order<'a>(name: &str, matches: &ArgMatches<'a>) -> Order<'a>
    ensures { asked_by result ≡ checker_asked name.now (rows_of (found_of matches.now)) }
{
    if name == "recheck" {
        recheck_order(matches)
    } else if name == "shares" {
        shares_order(matches)
    } else if name == "gen" {
        gen_order(matches)
    } else if name == "measure" {
        measure_order(matches)
    } else {
        observer_order(name, matches)
    }
}

/// What the subcommand of this name asks for, which is none of those before it.
fn observer_order<'a>(name: &str, matches: &ArgMatches<'a>) -> Order<'a>
    ensures { asked_by result ≡ observer_asked name.now (rows_of (found_of matches.now)) }
{
    if name == "receive" {
        receive_order(matches)
    } else if name == "uart" {
        uart_order(matches)
    } else if name == "pair" {
        pair_order(matches)
    } else if name == "inspect" {
        inspect_order(matches)
    } else {
        dis_order(matches)
    }
}

fn asm_order<'a>(matches: &ArgMatches<'a>) -> Order<'a>
    ensures { asked_by result ≡ asm_asked (rows_of (found_of matches.now)) }
{
    Order::Asm {
        file: text(matches, "file"),
    }
}

fn run_order<'a>(matches: &ArgMatches<'a>) -> Order<'a>
    ensures { asked_by result ≡ run_asked (rows_of (found_of matches.now)) }
{
    Order::Run {
        files: run_files(matches),
        clocks: number(matches, "clocks", MOST_CLOCKS),
    }
}

/// The names of the files of a run.
fn run_files<'a>(matches: &ArgMatches<'a>) -> RunFiles<'a>
    ensures source { result.source.now ≡ text_at (codes "source") (rows_of (found_of matches.now)) }
    ensures config { option_map (λ t. t.now) result.config ≡ first_of (codes "config") (rows_of (found_of matches.now)) }
    ensures stimulus { option_map (λ t. t.now) result.stimulus ≡ first_of (codes "stimulus") (rows_of (found_of matches.now)) }
{
    RunFiles {
        source: text(matches, "source"),
        config: option_text(matches, "config"),
        stimulus: option_text(matches, "stimulus"),
    }
}

fn check_order<'a>(matches: &ArgMatches<'a>) -> Order<'a>
    ensures { asked_by result ≡ check_asked (rows_of (found_of matches.now)) }
{
    Order::Check {
        source: text(matches, "source"),
        config: option_text(matches, "config"),
    }
}

fn table_order<'a>(matches: &ArgMatches<'a>) -> Order<'a>
    ensures { asked_by result ≡ table_asked (rows_of (found_of matches.now)) }
{
    Order::Table {
        source: text(matches, "source"),
        config: option_text(matches, "config"),
        span: text(matches, "span"),
    }
}

fn recheck_order<'a>(matches: &ArgMatches<'a>) -> Order<'a>
    ensures { asked_by result ≡ recheck_asked (rows_of (found_of matches.now)) }
{
    Order::Recheck {
        source: text(matches, "source"),
        config: option_text(matches, "config"),
        span: text(matches, "span"),
        table: text(matches, "table"),
    }
}

fn shares_order<'a>(matches: &ArgMatches<'a>) -> Order<'a>
    ensures { asked_by result ≡ shares_asked (rows_of (found_of matches.now)) }
{
    Order::Shares {
        source: text(matches, "source"),
        config: option_text(matches, "config"),
    }
}

fn gen_order<'a>(matches: &ArgMatches<'a>) -> Order<'a>
    ensures { asked_by result ≡ gen_asked (rows_of (found_of matches.now)) }
{
    Order::Gen {
        seed: number(matches, "seed", MOST_SEED),
        clocks: number(matches, "clocks", MOST_CLOCKS),
    }
}

fn dis_order<'a>(matches: &ArgMatches<'a>) -> Order<'a>
    ensures { asked_by result ≡ dis_asked (rows_of (found_of matches.now)) }
{
    let side = number(matches, "side", MOST_SIDE_BITS);
    Order::Dis {
        file: text(matches, "file"),
        side: side as u8,
        opt: flag(matches, "opt"),
    }
}

fn measure_order<'a>(matches: &ArgMatches<'a>) -> Order<'a>
    ensures { asked_by result ≡ measure_asked (rows_of (found_of matches.now)) }
{
    Order::Measure {
        files: run_files(matches),
        clocks: number(matches, "clocks", MOST_CLOCKS),
    }
}

fn receive_order<'a>(matches: &ArgMatches<'a>) -> Order<'a>
    ensures { asked_by result ≡ receive_asked (rows_of (found_of matches.now)) }
{
    let pin = number(matches, "pin", LAST_PIN);
    let bit = number(matches, "bit", MOST_BIT).max(LEAST_BIT);
    Order::Receive {
        files: run_files(matches),
        clocks: number(matches, "clocks", MOST_CLOCKS),
        line: SerialLine {
            pin: pin as u8,
            bit: bit as u16,
        },
    }
}

fn uart_order<'a>(matches: &ArgMatches<'a>) -> Order<'a>
    ensures { asked_by result ≡ uart_asked (rows_of (found_of matches.now)) }
{
    let divider = number(matches, "divider", MOST_DIVIDER).max(LEAST_DIVIDER);
    Order::Uart {
        send: text(matches, "send"),
        divider: divider as u16,
        clocks: number(matches, "clocks", MOST_CLOCKS),
    }
}

fn pair_order<'a>(matches: &ArgMatches<'a>) -> Order<'a>
    ensures { asked_by result ≡ pair_asked (rows_of (found_of matches.now)) }
{
    Order::Pair {
        files: PairFiles {
            source: text(matches, "source"),
            config: text(matches, "config"),
            second: text(matches, "second"),
            stimulus: option_text(matches, "stimulus"),
        },
        clocks: number(matches, "clocks", MOST_CLOCKS),
    }
}

fn inspect_order<'a>(matches: &ArgMatches<'a>) -> Order<'a>
    ensures { asked_by result ≡ inspect_asked (rows_of (found_of matches.now)) }
{
    Order::Inspect {
        files: run_files(matches),
        clocks: number(matches, "clocks", MOST_CLOCKS),
    }
}
