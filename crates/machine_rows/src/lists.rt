//! Runs that are told to lists of samples, which may have too little room, with both kinds of FIFO.
ghost use Rattle.std.specs.Prelude.{◌≡◌, false};

use crate::lines::{has, only, up_to};
use crate::seen::{After, Shown, afters, tell_list};
use crate::setup::RowSetup;
use block_core::{Block, Sample};
use dreq_pacing::Schedule;
use fifo_pair::{Fifo, PlainFifo, RingFifo};
use idle_engine::simulate;
use pin_matrix::Setup;
use sample_trace::{ListTrace, Trace};
use std::alloc::Global;
use std::marker::Brand;
use std::sync::ledger::{Blank, Ledger};
use step_count::Steps;

/// Adds what a row says that a list keeps, and what it keeps.
pub fn tell_told(
    alloc: Global,
    lines: &str,
    expected: &mut String,
    seen: &mut String,
) -> Option<()> {
    let setup = RowSetup::of(alloc, lines)?.setup(alloc);
    let samples = samples_of(alloc, lines)?;
    let clocks = up_to(100, only(lines, "clocks")?)?;
    let room = usize::from(up_to(100, only(lines, "room")?)?);
    let plain = trace_of::<PlainFifo>(alloc, &setup, clocks, room)?;
    tell_end(lines, plain.0, plain.1.failed(), expected, seen)?;
    tell_kept(&samples, plain.1.samples(), expected, seen)?;
    let ring = trace_of::<RingFifo>(alloc, &setup, clocks, room)?;
    tell_end(lines, ring.0, ring.1.failed(), expected, seen)?;
    tell_kept(&samples, ring.1.samples(), expected, seen)
}

/// What a row says of the samples that are kept, one after the other: none in `told none`.
fn samples_of(alloc: Global, lines: &str) -> Option<Vec<After<'_>>> {
    if has(lines, "told none") {
        return Some(Vec::new(alloc));
    }
    afters(alloc, lines)
}

/// Adds whether the run ends, or its trace fails.
fn tell_end(
    lines: &str,
    ends: bool,
    fails: bool,
    expected: &mut String,
    seen: &mut String,
) -> Option<()> {
    let says = if has(lines, "ends") {
        "ends"
    } else if has(lines, "fails") {
        "fails"
    } else {
        return None;
    };
    write!(expected, "{says}\n").ok()?;
    let shows = match (ends, fails) {
        (true, false) => "ends\n",
        (false, true) => "fails\n",
        _ => "ends in another way\n",
    };
    seen.push_str(shows).ok()
}

/// Adds how many samples are kept, and each.
fn tell_kept(
    says: &[After],
    samples: &[Sample],
    expected: &mut String,
    seen: &mut String,
) -> Option<()> {
    write!(expected, "{} samples\n", says.len()).ok()?;
    write!(seen, "{} samples\n", samples.len()).ok()?;
    for ((clock, after), sample) in says.iter().enumerate().zip(samples) {
        if after.clock != clock as u64 {
            return None;
        }
        let shown = Shown {
            clock: after.clock,
            sample,
            inside: None,
            second: None,
            stir: None,
        };
        tell_list(after.list, &shown, expected, seen)?;
    }
    Some(())
}

/// Whether a run ended, and its trace.
fn trace_of<F: Fifo>(
    alloc: Global,
    setup: &Setup,
    clocks: u8,
    room: usize,
) -> Option<(bool, ListTrace)> {
    let mut block: Block<F> = Block::new(alloc, setup).ok()?;
    let mut trace = ListTrace::with_room(alloc, room).ok()?;
    let ended = has_ended::<F, Brand>(alloc, &mut block, clocks, &mut trace, Blank::new(1));
    Some((ended, trace))
}

/// Whether a run ends in which the system does nothing.
fn has_ended<F: Fifo, L: Ledger>(
    alloc: Global,
    block: &mut Block<F>,
    clocks: u8,
    trace: &mut ListTrace,
    blank: Blank,
) -> bool
    requires name { blank.name ≡ L.name }
    requires parts { blank.parts ≡ L.parts }
    requires whole { blank.parts ≡ 1 }
    requires fresh { block.old.run.clock ≡ 0 }
    requires working { trace.old.failed ≡ false }
{
    let mut steps = Steps::<L>::new(blank);
    let schedule = Schedule::empty(alloc);
    simulate(block, &schedule, u64::from(clocks), trace, &mut steps).is_ok()
}
