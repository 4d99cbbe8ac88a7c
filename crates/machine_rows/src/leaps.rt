//! Runs in which most clocks are leapt over: a trace is told of no clock but those that a row lists. Those of one block
//! are the clocks that are worked out, those of two the ones after which something new may be seen.
ghost use Rattle.std.specs.Prelude.{◌≡◌};

use crate::lines::{clocks, only, stimulus};
use crate::pairs::twin_of;
use crate::setup::RowSetup;
use crate::watch::ClockWatch;
use block_core::{Block, Twin};
use dreq_pacing::{Schedule, read_pair_stimulus, read_stimulus};
use fifo_pair::{Fifo, PlainFifo, RingFifo};
use idle_engine::{simulate, simulate_inside, simulate_twin};
use pin_matrix::Setup;
use std::alloc::Global;
use std::marker::Brand;
use std::sync::ledger::{Blank, Ledger};
use step_count::Steps;

/// The longest run.
const LONGEST: u64 = 1_000_000_000_000;

/// Adds that a run of a block tells of no other clock, and whether it does, with both kinds of FIFO, and once more
/// where it tells what is inside.
pub fn tell_leaps(
    alloc: Global,
    lines: &str,
    expected: &mut String,
    seen: &mut String,
) -> Option<()> {
    let setup = RowSetup::of(alloc, lines)?.setup(alloc);
    let text = stimulus(alloc, lines)?;
    let schedule = read_stimulus(alloc, text.as_bytes()).ok()?;
    let count = clocks_of(lines)?;
    let plain = watched::<PlainFifo>(alloc, &setup, &schedule, count, watch_of(alloc, lines)?)?;
    tell_watched(&plain, expected, seen)?;
    let ring = watched::<RingFifo>(alloc, &setup, &schedule, count, watch_of(alloc, lines)?)?;
    tell_watched(&ring, expected, seen)?;
    let inside = watched_inside(alloc, &setup, &schedule, count, watch_of(alloc, lines)?)?;
    tell_watched(&inside, expected, seen)
}

/// The same of two blocks, with FIFOs in rings.
pub fn tell_pair_leaps(
    alloc: Global,
    lines: &str,
    expected: &mut String,
    seen: &mut String,
) -> Option<()> {
    let text = stimulus(alloc, lines)?;
    let schedules = read_pair_stimulus(alloc, text.as_bytes()).ok()?;
    let mut twin: Twin<RingFifo> = twin_of(alloc, lines)?;
    let watch = pair_watched(
        &mut twin,
        &schedules.0,
        &schedules.1,
        clocks_of(lines)?,
        watch_of(alloc, lines)?,
    )?;
    tell_watched(&watch, expected, seen)
}

/// For how many clocks a row runs.
fn clocks_of(lines: &str) -> Option<u64> {
    let count: u64 = only(lines, "clocks")?.parse().ok()?;
    if count > LONGEST {
        return None;
    }
    Some(count)
}

/// A trace that knows the clocks of the line `worked`: none in `worked none`.
fn watch_of(alloc: Global, lines: &str) -> Option<ClockWatch> {
    let list = only(lines, "worked")?;
    let listed = if list == "none" {
        Vec::new(alloc)
    } else {
        clocks(alloc, list)?
    };
    Some(ClockWatch {
        listed,
        other: None,
    })
}

fn tell_watched(watch: &ClockWatch, expected: &mut String, seen: &mut String) -> Option<()> {
    expected.push_str("told of no other clock\n").ok()?;
    match watch.other {
        Some(clock) => write!(seen, "told of clock {clock} too\n").ok(),
        None => seen.push_str("told of no other clock\n").ok(),
    }
}

/// A trace after a run of a block; none where memory runs out, or the run doesn't end.
fn watched<F: Fifo>(
    alloc: Global,
    setup: &Setup,
    schedule: &Schedule,
    clocks: u64,
    watch: ClockWatch,
) -> Option<ClockWatch> {
    let mut watch = watch;
    let mut block: Block<F> = Block::new(alloc, setup).ok()?;
    let ends = has_ended::<F, Brand>(&mut block, schedule, clocks, &mut watch, Blank::new(1));
    if ends { Some(watch) } else { None }
}

/// Whether a run of a block ends.
fn has_ended<F: Fifo, L: Ledger>(
    block: &mut Block<F>,
    schedule: &Schedule,
    clocks: u64,
    watch: &mut ClockWatch,
    blank: Blank,
) -> bool
    requires name { blank.name ≡ L.name }
    requires parts { blank.parts ≡ L.parts }
    requires whole { blank.parts ≡ 1 }
    requires fresh { block.old.run.clock ≡ 0 }
{
    let mut steps = Steps::<L>::new(blank);
    let clocks = clocks.min(LONGEST);
    simulate(block, schedule, clocks, watch, &mut steps).is_ok()
}

/// The same of a run that tells what is inside the block.
fn watched_inside(
    alloc: Global,
    setup: &Setup,
    schedule: &Schedule,
    clocks: u64,
    watch: ClockWatch,
) -> Option<ClockWatch> {
    let mut watch = watch;
    let mut block: Block<RingFifo> = Block::new(alloc, setup).ok()?;
    let ends = has_ended_inside::<Brand>(&mut block, schedule, clocks, &mut watch, Blank::new(1));
    if ends { Some(watch) } else { None }
}

/// Whether such a run ends.
fn has_ended_inside<L: Ledger>(
    block: &mut Block<RingFifo>,
    schedule: &Schedule,
    clocks: u64,
    watch: &mut ClockWatch,
    blank: Blank,
) -> bool
    requires name { blank.name ≡ L.name }
    requires parts { blank.parts ≡ L.parts }
    requires whole { blank.parts ≡ 1 }
    requires fresh { block.old.run.clock ≡ 0 }
{
    let mut steps = Steps::<L>::new(blank);
    let clocks = clocks.min(LONGEST);
    simulate_inside(block, schedule, clocks, watch, &mut steps).is_ok()
}

/// A trace after a run of two blocks; none where the run doesn't end.
fn pair_watched(
    twin: &mut Twin<RingFifo>,
    first: &Schedule,
    second: &Schedule,
    clocks: u64,
    watch: ClockWatch,
) -> Option<ClockWatch>
    requires first { twin.old.twin.first.clock ≡ 0 }
    requires second { twin.old.twin.second.clock ≡ 0 }
{
    let mut watch = watch;
    let ends = pair_has_ended::<Brand>(twin, first, second, clocks, &mut watch, Blank::new(1));
    if ends { Some(watch) } else { None }
}

/// Whether a run of two blocks ends.
fn pair_has_ended<L: Ledger>(
    twin: &mut Twin<RingFifo>,
    first: &Schedule,
    second: &Schedule,
    clocks: u64,
    watch: &mut ClockWatch,
    blank: Blank,
) -> bool
    requires name { blank.name ≡ L.name }
    requires parts { blank.parts ≡ L.parts }
    requires whole { blank.parts ≡ 1 }
    requires fresh_first { twin.old.twin.first.clock ≡ 0 }
    requires fresh_second { twin.old.twin.second.clock ≡ 0 }
{
    let mut steps = Steps::<L>::new(blank);
    let clocks = clocks.min(LONGEST);
    simulate_twin(twin, first, second, clocks, watch, &mut steps).is_ok()
}
