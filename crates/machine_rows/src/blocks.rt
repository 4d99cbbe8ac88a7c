//! Machines of a block with a stimulus, and what is seen after which clocks, with both kinds of FIFO.
ghost use Rattle.std.specs.Prelude.{◌≡◌};

use crate::lines::stimulus;
use crate::seen::{After, Shown, afters, clocks_of, tell};
use crate::setup::RowSetup;
use block_core::Block;
use dreq_pacing::{HostPorts, Schedule, read_stimulus};
use fifo_pair::{Fifo, PlainFifo, RingFifo};
use std::alloc::Global;

/// Adds what a row says of its block, and what is seen of it.
pub fn tell_block(
    alloc: Global,
    lines: &str,
    expected: &mut String,
    seen: &mut String,
) -> Option<()> {
    let row = RowSetup::of(alloc, lines)?;
    let afters = afters(alloc, lines)?;
    let text = stimulus(alloc, lines)?;
    let schedule = read_stimulus(alloc, text.as_bytes()).ok()?;
    let setup = row.setup(alloc);
    let mut plain: Block<PlainFifo> = Block::new(alloc, &setup).ok()?;
    run(&mut plain, &schedule, &afters, expected, seen)?;
    let mut ring: Block<RingFifo> = Block::new(alloc, &setup).ok()?;
    run(&mut ring, &schedule, &afters, expected, seen)
}

/// The row's clocks, one after the other.
fn run<F: Fifo>(
    block: &mut Block<F>,
    schedule: &Schedule,
    afters: &[After],
    expected: &mut String,
    seen: &mut String,
) -> Option<()>
    requires { block.old.run.clock ≡ 0 }
{
    let mut ports = HostPorts::new(schedule);
    for clock in 0..clocks_of(afters) {
        let due = ports.at(clock, &block.requests());
        block.clock(&due);
        let inside = block.inside();
        let shown = Shown {
            clock,
            sample: &inside.sample,
            inside: Some(&inside),
            second: None,
            stir: Some(block.next_stir()),
        };
        tell(afters, &shown, expected, seen)?;
    }
    Some(())
}
