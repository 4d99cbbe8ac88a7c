//! Runs tables of rows that were worked by hand over the public calls of the crates of a machine, its parts, a block
//! and a run.
#![tactic(auto)]

mod alone;
mod blocks;
mod dividers;
mod events;
mod fifo_clocks;
mod fifo_runs;
mod fifos;
mod flags;
mod idling;
mod insides;
mod keys;
mod kind;
mod leaps;
mod limits;
mod lines;
mod lists;
mod pairs;
mod pin_calls;
mod rests;
mod seen;
mod setup;
mod shifts;
mod watch;

use kind::Kind;
use row_tables::run_all;
use std::process::ExitCode;

fn main(rt: HostRuntime) -> ExitCode {
    match run_all::<Kind, HostRuntime>(&rt) {
        Some(()) => ExitCode::SUCCESS,
        None => ExitCode::FAILURE,
    }
}
