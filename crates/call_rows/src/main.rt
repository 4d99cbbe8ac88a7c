//! Runs tables of rows that were worked by hand over the public calls of the base, the inputs, traces and the commands.
#![tactic(auto)]

mod calls;
mod edge;
mod inputs;
mod kind;

use kind::Kind;
use row_tables::run_all;
use std::process::ExitCode;

fn main(rt: HostRuntime) -> ExitCode {
    match run_all::<Kind, HostRuntime>(&rt) {
        Some(()) => ExitCode::SUCCESS,
        None => ExitCode::FAILURE,
    }
}
