//! Two blocks on one set of pins with a stimulus, and what is seen after which clocks, with both kinds of FIFO.
ghost use Rattle.std.specs.Prelude.{◌≡◌, IfSome};

use crate::lines::{only, pins, stimulus};
use crate::seen::{After, Shown, afters, clocks_of, tell};
use crate::setup::RowSetup;
use block_core::Twin;
use dreq_pacing::{HostPorts, Schedule, read_pair_stimulus};
use fifo_pair::{Fifo, PlainFifo, RingFifo};
use std::alloc::Global;

/// Adds what a row says of its blocks, and what is seen of them.
pub fn tell_pair(
    alloc: Global,
    lines: &str,
    expected: &mut String,
    seen: &mut String,
) -> Option<()> {
    let afters = afters(alloc, lines)?;
    let text = stimulus(alloc, lines)?;
    let schedules = read_pair_stimulus(alloc, text.as_bytes()).ok()?;
    let mut plain: Twin<PlainFifo> = twin_of(alloc, lines)?;
    run(
        &mut plain,
        &schedules.0,
        &schedules.1,
        &afters,
        expected,
        seen,
    )?;
    let mut ring: Twin<RingFifo> = twin_of(alloc, lines)?;
    run(
        &mut ring,
        &schedules.0,
        &schedules.1,
        &afters,
        expected,
        seen,
    )
}

/// The blocks of a row, in clock 0: the lines of the second come after the line `second`.
pub fn twin_of<F: Fifo>(alloc: Global, lines: &str) -> Option<Twin<F>>
    ensures { IfSome result (λ twin. (twin.twin.first.clock ≡ 0) × (twin.twin.second.clock ≡ 0)) }
{
    let (first, second) = lines.split_once("\nsecond\n")?;
    let own = own_of(second)?;
    let first = RowSetup::of(alloc, first)?;
    let second = RowSetup::of(alloc, second)?;
    Twin::new(alloc, &first.setup(alloc), &second.setup(alloc), own).ok()
}

/// The pins that the second block owns: none without a line.
fn own_of(lines: &str) -> Option<u32> {
    match only(lines, "own") {
        Some(list) => pins(list),
        None => Some(0),
    }
}

/// The row's clocks, one after the other.
fn run<F: Fifo>(
    twin: &mut Twin<F>,
    first: &Schedule,
    second: &Schedule,
    afters: &[After],
    expected: &mut String,
    seen: &mut String,
) -> Option<()>
    requires { twin.old.twin.first.clock ≡ 0 }
{
    let mut first_ports = HostPorts::new(first);
    let mut second_ports = HostPorts::new(second);
    for clock in 0..clocks_of(afters) {
        let requests = twin.requests();
        let first_due = first_ports.at(clock, &requests.0);
        let second_due = second_ports.at(clock, &requests.1);
        twin.clock(&first_due, &second_due);
        let samples = twin.view();
        let shown = Shown {
            clock,
            sample: &samples.0,
            inside: None,
            second: Some(&samples.1),
            stir: Some(twin.next_stir()),
        };
        tell(afters, &shown, expected, seen)?;
    }
    Some(())
}
