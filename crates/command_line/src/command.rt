//! The command `piotool` for clap, one function for each subcommand. Where memory is wanted nothing is made.
ghost use Rattle.std.specs.Prelude.{◌≡◌, IfOk, Ok};
ghost use Rattle.clap.specs.Simple.{App, new_app};
ghost use Rattle.command_line.specs.Making.{Gains, IsApp, Offers, TakesArgument};
ghost use Rattle.command_line.specs.Making.{number_rule, text_rule};
ghost use Rattle.command_line.specs.Making.{paired_app, sourced_app, spanned_app, timed, traced_app};
ghost use Rattle.command_line.specs.Tool.{asm_app, bare_app, check_app, clocks_rule, dis_app};
ghost use Rattle.command_line.specs.Tool.{gen_app, inspect_app, measure_app, pair_app, receive_app, recheck_app};
ghost use Rattle.command_line.specs.Tool.{run_app, shares_app, table_app, uart_app};
ghost use Rattle.command_line.specs.Tool.{tool as tool_app};

use crate::arguments;
use crate::order::{
    LAST_PIN, LEAST_BIT, LEAST_DIVIDER, MOST_BIT, MOST_CLOCKS, MOST_DIVIDER, MOST_SEED,
};
use clap::{Arg, Command};
use std::alloc::{AllocError, Global};

/// Where a newcomer begins.
const FIRST_RUN: &str = "A first trace: piotool run --source blink.pio --clocks 1000 > blink.vcd\n\
    README.md leads from there to a wave viewer, and docs/FAULTS.md says what each refusal means.";

/// `--source S`: the source's name.
const SOURCE: &str = "The program, in pioasm";

/// `--config C`: the configuration's name.
const CONFIG: &str = "What the block starts from, in TOML";

/// `--second B`: the name of the second block's configuration.
const SECOND: &str =
    "The configuration of the second block, in TOML; its key pins.own lists the pins that it drives";

/// `--span NAME`: the name of a span.
const SPAN: &str = "The name of a span of the configuration";

/// `--table F`: the name of a file with a table.
const TABLE: &str = "The table, in the form in which the command table writes it";

/// `--stimulus T`: the stimulus's name.
const STIMULUS: &str = "What the system and the outside do, clock by clock";

/// `--clocks N`: 0 to 10^12 clocks.
const CLOCKS: &str = "How many clocks to work out, up to 10^12";

/// `--seed K`: 0 to 2^64 - 1, which load is drawn.
const SEED: &str = "Which load is drawn: any number below 2^64";

/// `--pin P`: 0 to 31, the number of a pin.
const PIN: &str = "The pin of the line, 0 to 31";

/// `--bit B`: 2 to 65,535, how many clocks a bit takes.
const BIT: &str = "How many clocks a bit takes, 2 to 65535";

/// `--send F`: the name of a file of bytes.
const SEND: &str = "The bytes to send, as they are";

/// `--divider I`: 1 to 8,191, how many clocks a tick takes.
const DIVIDER: &str = "How many clocks a tick takes, 1 to 8191; a bit takes eight ticks";

/// The command with all its subcommands.
pub fn tool<'a>(alloc: Global) -> Result<Command<'a>, AllocError>
    ensures { IfOk result (IsApp tool_app) }
{
    let command = add(bare(alloc), asm(alloc));
    let command = add(command, run(alloc));
    let command = add(command, dis(alloc));
    let command = add(command, check(alloc));
    let command = add(command, generate(alloc));
    let command = add(command, table(alloc));
    let command = add(command, recheck(alloc));
    let command = add(command, shares(alloc));
    let command = add(command, measure(alloc));
    let command = add(command, receive(alloc));
    let command = add(command, uart(alloc));
    let command = add(command, pair(alloc));
    add(command, inspect(alloc))
}

#[tactic(auto, unfolding(crate::specs::Tool::bare_app))]
fn bare<'a>(alloc: Global) -> Result<Command<'a>, AllocError>
    ensures { IfOk result (IsApp bare_app) }
{
    Ok(
        Command::new(alloc, "piotool")
            .about("Assembles, simulates and checks programs of the RP2040's PIO")
            .after_help(FIRST_RUN)
            .subcommand_required(true),
    )
}

#[tactic(auto, unfolding(crate::specs::Tool::asm_app))]
fn asm<'a>(alloc: Global) -> Result<Command<'a>, AllocError>
    ensures { IfOk result (IsApp asm_app) }
{
    let command = named(
        alloc,
        "asm",
        "Writes the words of each program, with what they mean",
        "Example: piotool asm blink.pio",
    );
    with_argument(command, arguments::file(alloc, "The programs, in pioasm"))
}

#[tactic(auto, unfolding(crate::specs::Tool::run_app))]
fn run<'a>(alloc: Global) -> Result<Command<'a>, AllocError>
    ensures { IfOk result (IsApp run_app) }
{
    traced(
        alloc,
        "run",
        "Traces the pins of a program clock by clock, as a value-change dump",
        "Example: piotool run --source uart.pio --config uart.toml --stimulus uart.stim --clocks 100000 > uart.vcd",
    )
}

#[tactic(auto, unfolding(crate::specs::Tool::dis_app))]
fn dis<'a>(alloc: Global) -> Result<Command<'a>, AllocError>
    ensures { IfOk result (IsApp dis_app) }
{
    let command = named(
        alloc,
        "dis",
        "Writes the instruction that each word means",
        "Example: piotool dis words.hex --side 2 --opt",
    );
    let command = with_argument(
        command,
        arguments::file(alloc, "The words, four hexadecimal digits a line"),
    );
    let command = with_argument(command, arguments::side(alloc));
    with_argument(command, arguments::opt(alloc))
}

#[tactic(auto, unfolding(crate::specs::Tool::check_app))]
fn check<'a>(alloc: Global) -> Result<Command<'a>, AllocError>
    ensures { IfOk result (IsApp check_app) }
{
    sourced(
        alloc,
        "check",
        "Says of each span of the configuration whether its bounds hold in every run",
        "Example: piotool check --source uart.pio --config uart.toml",
    )
}

#[tactic(auto, unfolding(crate::specs::Tool::gen_app, crate::specs::Tool::seed_rule))]
fn generate<'a>(alloc: Global) -> Result<Command<'a>, AllocError>
    ensures { IfOk result (IsApp gen_app) }
{
    let command = named(
        alloc,
        "gen",
        "Runs the load that a seed draws, and writes how many edges and words it had",
        "Example: piotool gen --seed 7 --clocks 1000",
    );
    let command = with_number(alloc, command, "seed", (0, MOST_SEED), SEED);
    with_clocks(alloc, command)
}

#[tactic(auto, unfolding(crate::specs::Tool::table_app))]
fn table<'a>(alloc: Global) -> Result<Command<'a>, AllocError>
    ensures { IfOk result (IsApp table_app) }
{
    spanned(
        alloc,
        "table",
        "Writes the table that proves a span: what its machine may come to, and how old an open edge is there",
        "Example: piotool table --source uart.pio --config uart.toml --span bit > bit.table",
    )
}

#[tactic(auto, unfolding(crate::specs::Tool::recheck_app, crate::specs::Tool::table_rule))]
fn recheck<'a>(alloc: Global) -> Result<Command<'a>, AllocError>
    ensures { IfOk result (IsApp recheck_app) }
{
    let command = spanned(
        alloc,
        "recheck",
        "Says whether the table in a file proves a span, without working one out",
        "Example: piotool recheck --source uart.pio --config uart.toml --span bit --table bit.table",
    );
    with_text(alloc, command, "table", true, TABLE)
}

#[tactic(auto, unfolding(crate::specs::Tool::shares_app))]
fn shares<'a>(alloc: Global) -> Result<Command<'a>, AllocError>
    ensures { IfOk result (IsApp shares_app) }
{
    sourced(
        alloc,
        "shares",
        "Writes for each machine which pins and IRQ flags another may change that it uses itself",
        "Example: piotool shares --source uart.pio --config uart.toml",
    )
}

#[tactic(auto, unfolding(crate::specs::Tool::measure_app))]
fn measure<'a>(alloc: Global) -> Result<Command<'a>, AllocError>
    ensures { IfOk result (IsApp measure_app) }
{
    traced(
        alloc,
        "measure",
        "Counts each span of the configuration in a run, and writes the fewest and the most clocks that it took",
        "Example: piotool measure --source uart.pio --config uart.toml --stimulus uart.stim --clocks 100000",
    )
}

#[tactic(auto, unfolding(crate::specs::Tool::receive_app, crate::specs::Tool::pin_rule, crate::specs::Tool::bit_rule,))]
fn receive<'a>(alloc: Global) -> Result<Command<'a>, AllocError>
    ensures { IfOk result (IsApp receive_app) }
{
    let command = traced(
        alloc,
        "receive",
        "Reads a pin as a UART does, and writes each byte with the clock of its start bit",
        "Example: piotool receive --source uart.pio --config uart.toml --stimulus uart.stim --clocks 100000 --pin 0 --bit 8",
    );
    let command = with_number(alloc, command, "pin", (0, LAST_PIN), PIN);
    with_number(alloc, command, "bit", (LEAST_BIT, MOST_BIT), BIT)
}

#[tactic(auto, unfolding(crate::specs::Tool::uart_app, crate::specs::Tool::send_rule, crate::specs::Tool::divider_rule,))]
fn uart<'a>(alloc: Global) -> Result<Command<'a>, AllocError>
    ensures { IfOk result (IsApp uart_app) }
{
    let command = named(
        alloc,
        "uart",
        "Sends the bytes of a file by the proved UART transmitter, and writes each byte with the clock of its start bit",
        "Example: piotool uart --send hello.txt --divider 135 --clocks 1000000",
    );
    let command = with_text(alloc, command, "send", true, SEND);
    let command = with_number(
        alloc,
        command,
        "divider",
        (LEAST_DIVIDER, MOST_DIVIDER),
        DIVIDER,
    );
    with_clocks(alloc, command)
}

#[tactic(auto, unfolding(crate::specs::Tool::pair_app))]
fn pair<'a>(alloc: Global) -> Result<Command<'a>, AllocError>
    ensures { IfOk result (IsApp pair_app) }
{
    let command = paired(
        alloc,
        "pair",
        "Writes the trace of two blocks on the same pins, as a value change dump",
        "Example: piotool pair --source link.pio --config sender.toml --second receiver.toml --clocks 1000",
    );
    with_time(alloc, command)
}

#[tactic(auto, unfolding(crate::specs::Tool::inspect_app))]
fn inspect<'a>(alloc: Global) -> Result<Command<'a>, AllocError>
    ensures { IfOk result (IsApp inspect_app) }
{
    traced(
        alloc,
        "inspect",
        "Traces what is inside the block, clock by clock: pads, PC and registers of each machine beside what run traces",
        "Example: piotool inspect --source uart.pio --config uart.toml --stimulus uart.stim --clocks 100000 > inside.vcd",
    )
}

/// A subcommand that takes no arguments yet: its name, and for its help what it writes and an example.
fn named<'a>(
    alloc: Global,
    name: &'a str,
    about: &'a str,
    example: &'a str,
) -> Result<Command<'a>, AllocError>
    ensures { IfOk result (IsApp (new_app name.entry.now)) }
{
    Ok(Command::new(alloc, name).about(about).after_help(example))
}

/// A subcommand that takes a source, and a configuration where one is given.
#[tactic(auto, unfolding(crate::specs::Tool::source_rule, crate::specs::Tool::config_rule))]
fn sourced<'a>(
    alloc: Global,
    name: &'a str,
    about: &'a str,
    example: &'a str,
) -> Result<Command<'a>, AllocError>
    ensures { IfOk result (IsApp (sourced_app name.entry.now)) }
{
    let command = named(alloc, name, about, example);
    let command = with_text(alloc, command, "source", true, SOURCE);
    with_text(alloc, command, "config", false, CONFIG)
}

/// A subcommand that takes the name of a span as well.
#[tactic(auto, unfolding(crate::specs::Tool::span_rule))]
fn spanned<'a>(
    alloc: Global,
    name: &'a str,
    about: &'a str,
    example: &'a str,
) -> Result<Command<'a>, AllocError>
    ensures { IfOk result (IsApp (spanned_app name.entry.now)) }
{
    let command = sourced(alloc, name, about, example);
    with_text(alloc, command, "span", true, SPAN)
}

/// A subcommand that takes a stimulus, where one is given, and a number of clocks as well.
fn traced<'a>(
    alloc: Global,
    name: &'a str,
    about: &'a str,
    example: &'a str,
) -> Result<Command<'a>, AllocError>
    ensures { IfOk result (IsApp (traced_app name.entry.now)) }
{
    let command = sourced(alloc, name, about, example);
    with_time(alloc, command)
}

/// A subcommand that takes a source and the configurations of two blocks.
#[tactic(auto, unfolding(crate::specs::Tool::source_rule, crate::specs::Tool::needed_config_rule, crate::specs::Tool::second_rule))]
fn paired<'a>(
    alloc: Global,
    name: &'a str,
    about: &'a str,
    example: &'a str,
) -> Result<Command<'a>, AllocError>
    ensures { IfOk result (IsApp (paired_app name.entry.now)) }
{
    let command = named(alloc, name, about, example);
    let command = with_text(alloc, command, "source", true, SOURCE);
    let command = with_text(alloc, command, "config", true, CONFIG);
    with_text(alloc, command, "second", true, SECOND)
}

/// The command with a stimulus, where one is given, and a number of clocks more.
#[tactic(auto, unfolding(crate::specs::Tool::stimulus_rule))]
fn with_time<'a>(
    alloc: Global,
    command: Result<Command<'a>, AllocError>,
) -> Result<Command<'a>, AllocError>
    ensures { (a : App) → IfOk command.entry (IsApp a) → IfOk result (IsApp (timed a)) }
{
    let command = with_text(alloc, command, "stimulus", false, STIMULUS);
    with_clocks(alloc, command)
}

/// The command with a number of clocks more.
#[tactic(auto, unfolding(crate::specs::Tool::clocks_rule))]
fn with_clocks<'a>(
    alloc: Global,
    command: Result<Command<'a>, AllocError>,
) -> Result<Command<'a>, AllocError>
    ensures { Gains command.entry clocks_rule result }
{
    with_number(alloc, command, "clocks", (0, MOST_CLOCKS), CLOCKS)
}

/// The command with one option more that takes any text.
fn with_text<'a>(
    alloc: Global,
    command: Result<Command<'a>, AllocError>,
    name: &'a str,
    needed: bool,
    help: &'a str,
) -> Result<Command<'a>, AllocError>
    ensures { Gains command.entry (text_rule name.entry.now needed) result }
{
    with_argument(command, arguments::text(alloc, name, needed, help))
}

/// The command with one option more that takes a number between the ends.
fn with_number<'a>(
    alloc: Global,
    command: Result<Command<'a>, AllocError>,
    name: &'a str,
    ends: (u64, u64),
    help: &'a str,
) -> Result<Command<'a>, AllocError>
    ensures { Gains command.entry (number_rule name.entry.now ends.0 ends.1) result }
{
    with_argument(command, arguments::number(alloc, name, ends, help))
}

/// The command with one argument more.
fn with_argument<'a>(
    command: Result<Command<'a>, AllocError>,
    argument: Arg<'a>,
) -> Result<Command<'a>, AllocError>
    ensures { TakesArgument command.entry argument.entry result }
{
    command?.arg(argument)
}

/// The command with one subcommand more.
fn add<'a>(
    command: Result<Command<'a>, AllocError>,
    sub: Result<Command<'a>, AllocError>,
) -> Result<Command<'a>, AllocError>
    ensures { Offers command.entry sub.entry result }
{
    let (command, sub) = both(command, sub)?;
    command.subcommand(sub)
}

/// Both values, where there are both.
fn both<A: Drop, B: Drop>(
    a: Result<A, AllocError>,
    b: Result<B, AllocError>,
) -> Result<(A, B), AllocError>
    ensures { IfOk result (λ made. (a ≡ Ok made.0) × (b ≡ Ok made.1)) }
{
    let a = a?;
    let b = b?;
    Ok((a, b))
}
