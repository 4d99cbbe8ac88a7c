//! The run of a load, clock by clock, and what is counted in it.
ghost use Rattle.std.specs.Prelude.{◌≡◌, ◌+◌, ◌≤◌, ◌^◌, IfOk};
ghost use Rattle.drawn_load.specs.Loads.{lines_of};
ghost use Rattle.idle_engine.specs.Worked.{worked_in};
ghost use Rattle.drawn_load.specs.Counted.{counted_run};
ghost use Rattle.drawn_load.specs.Summaries.{start_of, summary_of};

use crate::load::draw_load;
use crate::summary::Summary;
use block_core::Block;
use dreq_pacing::Schedule;
use fifo_pair::{Fifo, RingFifo};
use idle_engine::simulate;
use sample_trace::{EdgeTrace, TraceFailed};
use std::alloc::{AllocError, Global};
use std::sync::ledger::Ledger;
use step_count::Steps;

/// The summary of the load of a seed, whatever the seed is, over so many clocks, up to 10^12. All memory is taken
/// before the first clock. The error is out of memory, and no other end is free. A step is one clock worked out singly.
pub fn summarise<L: Ledger>(
    alloc: Global,
    seed: u64,
    clocks: u64,
    steps: &mut Steps<L>,
) -> Result<Summary, AllocError>
    requires { clocks ≤ 10 ^ 12 }
    ensures summary { IfOk result (λ summary. summary ≡ summary_of seed clocks) }
    ensures steps { steps.new ≤ steps.old + worked_in (start_of seed) (lines_of seed) clocks }
{
    let load = draw_load(alloc, seed)?;
    let mut block = Block::<RingFifo>::new(alloc, &load.setup)?;
    Ok(counted(&mut block, &load.schedule, clocks, steps))
}

/// The summary of the run of a block, which is in clock 0, with a stimulus. It takes no memory.
fn counted<F: Fifo, L: Ledger>(
    block: &mut Block<F>,
    schedule: &Schedule,
    clocks: u64,
    steps: &mut Steps<L>,
) -> Summary
    requires fresh { block.old.run.clock ≡ 0 }
    requires within { clocks ≤ 10 ^ 12 }
    ensures summary { result ≡ counted_run block.old.run schedule.now clocks }
    ensures steps { steps.new ≤ steps.old + worked_in block.old.run schedule.now clocks }
{
    let mut trace = EdgeTrace::new(block.view().level);
    match simulate(block, schedule, clocks, &mut trace, steps) {
        Ok(()) => {}
        Err(TraceFailed) => unreachable!(),
    }
    let (sent, _) = block.moved(1);
    let (_, got) = block.moved(2);
    Summary {
        clocks,
        edges_0: trace.edges(0),
        edges_1: trace.edges(1),
        edges_3: trace.edges(3),
        sent,
        got,
    }
}
