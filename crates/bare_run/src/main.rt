//! Runs a block whose trace is thrown away, so that the stepping alone can be timed, and prints what it shows at the
//! end. Words: the name of a load, how many clocks, and the path of a stimulus, if any.
#![tactic(auto)]

mod loads;
mod no_trace;

ghost use Rattle.std.specs.Prelude.{◌≡◌, ◌≤◌, ◌^◌, IfOk};
ghost use Rattle.block_core.specs.Block.{first_run};
ghost use Rattle.block_core.specs.Hosted.{hosted_at};

use block_core::Block;
use dreq_pacing::{Schedule, read_stimulus};
use fifo_pair::RingFifo;
use idle_engine::simulate;
use loads::{delays, four_machines, i2c, shifted_word, square_wave, uart, waiting};
use no_trace::NoTrace;
use pin_matrix::{Setup, Spans};
use pio_edge::{FileShelf, Shelf};
use sample_trace::TraceFailed;
use std::alloc::{AllocError, Global};
use std::marker::Brand;
use std::process::ExitCode;
use std::rt::{Env, Files};
use std::sync::ledger::{Blank, Ledger};
use std::{env, io};
use step_count::Steps;

/// The most clocks that a run may have.
const MOST_CLOCKS: u64 = 1_000_000_000_000;

fn main(rt: HostRuntime) -> ExitCode {
    let Some(block) = asked::<Brand, HostRuntime>(&rt, Blank::new(1)) else {
        return ExitCode::FAILURE;
    };
    match print(&rt, &block) {
        Ok(()) => ExitCode::SUCCESS,
        Err(_) => ExitCode::FAILURE,
    }
}

/// Prints what the block shows, and how many words transfers moved at each machine.
fn print(rt: &impl Print, block: &Block<RingFifo>) -> io::Result<()> {
    println!(rt; "{:?}", block.view())?;
    for machine in 0..4 {
        let (sent, received) = block.moved(machine);
        println!(rt; "machine {machine}: {sent} sent, {received} received")?;
    }
    Ok(())
}

/// The block after the run that the program's words ask for, where they are as they should be and there is memory.
fn asked<L: Ledger, R: Env + Files + AllocGlobal>(rt: &R, blank: Blank) -> Option<Block<RingFifo>>
    requires name { blank.name ≡ L.name }
    requires parts { blank.parts ≡ L.parts }
    requires whole { blank.parts ≡ 1 }
{
    let words: Result<Vec<String>, AllocError> = env::args(rt).ok()?.collect(rt.alloc());
    let words = words.ok()?;
    let (load, clocks, stimulus) = match words.as_slice() {
        [_, load, clocks] => (load, clocks, None),
        [_, load, clocks, stimulus] => (load, clocks, Some(stimulus)),
        _ => return None,
    };
    let setup = setup_of(rt.alloc(), load)?;
    let clocks: u64 = clocks.parse().ok()?;
    if clocks > MOST_CLOCKS {
        return None;
    }
    let schedule = schedule_at(rt, stimulus)?;
    run::<L>(rt.alloc(), &setup, &schedule, clocks, blank).ok()
}

/// The load of a name.
fn setup_of(alloc: Global, name: &str) -> Option<Setup> {
    let spans = Spans::empty(alloc);
    match name {
        "square" => Some(square_wave(spans)),
        "shift" => Some(shifted_word(spans)),
        "waiting" => Some(waiting(spans)),
        "four" => Some(four_machines(spans)),
        "uart" => Some(uart(spans)),
        "i2c" => Some(i2c(spans)),
        "delays" => Some(delays(spans)),
        _ => None,
    }
}

/// The stimulus at a path, or one without lines.
fn schedule_at<R: Files + AllocGlobal>(rt: &R, path: Option<&String>) -> Option<Schedule> {
    let Some(path) = path else {
        return Some(Schedule::empty(rt.alloc()));
    };
    let bytes = FileShelf::new(rt.alloc(), rt)
        .fetch(rt.alloc(), path, 1_000_000)
        .ok()?;
    read_stimulus(rt.alloc(), &bytes).ok()
}

/// The block of a setup after so many clocks with a stimulus.
fn run<L: Ledger>(
    alloc: Global,
    setup: &Setup,
    schedule: &Schedule,
    clocks: u64,
    blank: Blank,
) -> Result<Block<RingFifo>, AllocError>
    requires name { blank.name ≡ L.name }
    requires parts { blank.parts ≡ L.parts }
    requires whole { blank.parts ≡ 1 }
    requires within { clocks ≤ 10 ^ 12 }
    ensures { IfOk result (λ block. block.run ≡ (hosted_at (first_run setup.now) schedule.now clocks).run) }
{
    let mut block = Block::<RingFifo>::new(alloc, setup)?;
    let mut trace = NoTrace;
    let mut steps = Steps::<L>::new(blank);
    match simulate(&mut block, schedule, clocks, &mut trace, &mut steps) {
        Ok(()) => Ok(block),
        Err(TraceFailed) => unreachable!(),
    }
}
