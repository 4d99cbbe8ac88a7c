//! Runs tables of rows that were worked by hand over the public calls of pio_lex, pio_expr, pio_statement, pio_assemble and block_config.
#![tactic(auto)]

mod configs;
mod expressions;
mod kind;
mod programs;
mod setup_texts;
mod statement_texts;
mod statements;
mod tokens;
mod values;

use kind::LanguageKind;
use row_tables::run_all;
use std::process::ExitCode;

fn main(rt: HostRuntime) -> ExitCode {
    match run_all::<LanguageKind, HostRuntime>(&rt) {
        Some(()) => ExitCode::SUCCESS,
        None => ExitCode::FAILURE,
    }
}
