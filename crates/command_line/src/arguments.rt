//! The arguments of the subcommands: the two kinds of option that many take, and what is unlike them.
ghost use Rattle.command_line.specs.Making.{IsRule, number_rule, text_rule};
ghost use Rattle.command_line.specs.Tool.{file_rule, opt_rule, option_rule, side_rule};

use crate::order::MOST_SIDE_BITS;
use clap::builder::ValueParser;
use clap::{Arg, ArgAction};
use std::alloc::Global;

/// A long option with one value.
fn option<'a>(alloc: Global, name: &'a str) -> Arg<'a>
    ensures { IsRule (option_rule name.entry.now) result }
{
    Arg::new(alloc, name).long(name).action(ArgAction::Set)
}

/// `--name X`, any text: in each call where it is `needed`.
pub fn text<'a>(alloc: Global, name: &'a str, needed: bool, help: &'a str) -> Arg<'a>
    ensures { IsRule (text_rule name.entry.now needed) result }
{
    option(alloc, name).required(needed).help(help)
}

/// `--name N`, a whole number between the ends, in each call.
pub fn number<'a>(alloc: Global, name: &'a str, ends: (u64, u64), help: &'a str) -> Arg<'a>
    ensures { IsRule (number_rule name.entry.now ends.0 ends.1) result }
{
    let (least, most) = ends;
    text(alloc, name, true, help).value_parser(ValueParser::Unsigned(least, most))
}

/// `FILE`: the name of a file, any text.
#[tactic(auto, unfolding(crate::specs::Tool::file_rule))]
pub fn file<'a>(alloc: Global, help: &'a str) -> Arg<'a>
    ensures { IsRule file_rule result }
{
    Arg::new(alloc, "file")
        .required(true)
        .action(ArgAction::Set)
        .help(help)
}

/// `--side n`: 0 to 5 side-set bits, 0 where it isn't given.
#[tactic(auto, unfolding(crate::specs::Tool::side_rule))]
pub fn side<'a>(alloc: Global) -> Arg<'a>
    ensures { IsRule side_rule result }
{
    text(
        alloc,
        "side",
        false,
        "How many side-set bits the words have",
    )
    .value_parser(ValueParser::Unsigned(0, MOST_SIDE_BITS))
    .default_value("0")
}

/// `--opt`: one side-set bit says whether a word has a side-set value.
#[tactic(auto, unfolding(crate::specs::Tool::opt_rule))]
pub fn opt<'a>(alloc: Global) -> Arg<'a>
    ensures { IsRule opt_rule result }
{
    option(alloc, "opt")
        .action(ArgAction::SetTrue)
        .help("One bit more says whether a word has a side-set value")
}
