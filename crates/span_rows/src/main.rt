//! Runs tables of rows that were worked by hand over the public calls of the checker's crates.
#![tactic(auto)]

mod keys;
mod kind;
mod lines;
mod programs;
mod setups;
mod steps;
mod tables;
mod verdicts;

use kind::Kind;
use row_tables::run_all;
use std::process::ExitCode;

fn main(rt: HostRuntime) -> ExitCode {
    match run_all::<Kind, HostRuntime>(&rt) {
        Some(()) => ExitCode::SUCCESS,
        None => ExitCode::FAILURE,
    }
}
