//! A run with the system's ports, written to a trace. Clocks in which nothing can move are leapt over.
ghost use Rattle.std.specs.Prelude.{◌≡◌, ℕ, ◌+◌, ◌≤◌, ◌^◌, Bool, false, true, is_err, Option, List, OnOk, OnErr};
ghost use Rattle.pio_edge.specs.Edge.{PutCounts};
ghost use Rattle.block_core.specs.Conduct.{conducts, no_conduct};
ghost use Rattle.block_core.specs.Hosted.{hosted_at, samples};
ghost use Rattle.block_core.specs.HostedTwin.{twin_of, hosted_twin_at, twin_samples};
ghost use Rattle.block_core.specs.Inside.{insides};
ghost use Rattle.block_core.specs.Stirring.{worked};
ghost use Rattle.sample_trace.specs.Told.{IsNext, told_at};
ghost use Rattle.idle_engine.specs.Kinds.{IsCourse};
ghost use Rattle.idle_engine.specs.Stops.{FromReady, Stops, run_after, twin_after};
ghost use Rattle.idle_engine.specs.Worked.{worked_in, twin_worked_in};

use crate::clocks::{leap, step};
use crate::kind::Runs;
use block_core::{Block, Conduct, Conducted, Inside, Sample, Twin};
use dreq_pacing::{HostPorts, Schedule};
use fifo_pair::Fifo;
use sample_trace::{Trace, TraceFailed};
use std::sync::ledger::Ledger;
use step_count::Steps;

// The four calls differ in `ok`, `run` and `err` alone, and in which block or blocks they run; that of conducts has no
// `err`. A trace's clauses are said from what its sink had taken before (`FromReady`).

/// Runs a block for some clocks, with a stimulus that begins in clock 0, and tells a trace the sample of each clock
/// and that the samples end there.
///
/// The block is in clock 0, and the clocks are up to 10^12. One step is one clock worked out singly, by a call of
/// `Block::clock` or `Block::quiet_clock`: clock 0, and each later one that stirs. The trace isn't told of the others, which
/// repeat the sample before them, nor of one of these that is known to repeat it. Where the trace fails, the run stops after
/// the clock whose sample it was told.
pub fn simulate<F: Fifo, T: Trace<Sample>, L: Ledger>(
    block: &mut Block<F>,
    schedule: &Schedule,
    clocks: u64,
    trace: &mut T,
    steps: &mut Steps<L>,
) -> Result<(), TraceFailed>
    requires fresh { block.old.run.clock ≡ 0 }
    requires within { clocks ≤ 10 ^ 12 }
    requires working { T.has_failed trace.old ≡ false }
    ensures ok { OnOk result (FromReady (T.ready trace.old) (T.holds trace.new)
        (samples block.old.run schedule.now clocks) true) }
    ensures run { OnOk result (block.new.run ≡ (hosted_at block.old.run schedule.now clocks).run) }
    ensures err { OnErr result (Stops (run_after block.old.run schedule.now)
        (samples block.old.run schedule.now) clocks block.new.run (FromReady (T.ready trace.old) (T.broken trace.new))) }
    ensures failed { T.has_failed trace.new ≡ is_err result }
    ensures cause { PutCounts (T.faults trace.old) (T.faults trace.new) result }
    ensures same { T.name trace.new ≡ T.name trace.old }
    ensures steps { steps.new + block.old.calls ≡ steps.old + block.new.calls }
    ensures exact { OnOk result (steps.new ≡ steps.old + worked_in block.old.run schedule.now clocks) }
    ensures most { steps.new ≤ steps.old + worked_in block.old.run schedule.now clocks }
{
    let mut ports = HostPorts::new(schedule);
    run(block, &mut ports, clocks, trace, steps)
}

/// Runs a block as `simulate` does, and tells a trace what is inside it after each clock, not its sample alone.
///
/// The trace is told after each clock that is worked out, since a register may change where the sample stays, and of no other:
/// in the others nothing inside changes (`a_leap_changes_nothing_inside`).
pub fn simulate_inside<F: Fifo, T: Trace<Inside>, L: Ledger>(
    block: &mut Block<F>,
    schedule: &Schedule,
    clocks: u64,
    trace: &mut T,
    steps: &mut Steps<L>,
) -> Result<(), TraceFailed>
    requires fresh { block.old.run.clock ≡ 0 }
    requires within { clocks ≤ 10 ^ 12 }
    requires working { T.has_failed trace.old ≡ false }
    ensures ok { OnOk result (FromReady (T.ready trace.old) (T.holds trace.new)
        (insides block.old.run schedule.now clocks) true) }
    ensures run { OnOk result (block.new.run ≡ (hosted_at block.old.run schedule.now clocks).run) }
    ensures err { OnErr result (Stops (run_after block.old.run schedule.now)
        (insides block.old.run schedule.now) clocks block.new.run (FromReady (T.ready trace.old) (T.broken trace.new))) }
    ensures failed { T.has_failed trace.new ≡ is_err result }
    ensures cause { PutCounts (T.faults trace.old) (T.faults trace.new) result }
    ensures same { T.name trace.new ≡ T.name trace.old }
    ensures steps { steps.new + block.old.calls ≡ steps.old + block.new.calls }
    ensures exact { OnOk result (steps.new ≡ steps.old + worked_in block.old.run schedule.now clocks) }
    ensures most { steps.new ≤ steps.old + worked_in block.old.run schedule.now clocks }
{
    let mut ports = HostPorts::new(schedule);
    run(block, &mut ports, clocks, trace, steps)
}

/// Runs a block as `simulate` does, and tells a trace what its machines did in the last clock of note.
///
/// The block is in clock 0, and nothing is told of it yet. The trace is told after clock 0, after each later clock of note,
/// and after each clock in which the system acts. In all others it stays what it was.
pub fn simulate_conduct<F: Fifo, T: Trace<Conduct>, L: Ledger>(
    block: &mut Conducted<F>,
    schedule: &Schedule,
    clocks: u64,
    trace: &mut T,
    steps: &mut Steps<L>,
) -> Result<(), TraceFailed>
    requires fresh { block.old.worked.run.clock ≡ 0 }
    requires untold { block.old.last ≡ no_conduct block.old.worked.run }
    requires within { clocks ≤ 10 ^ 12 }
    requires working { T.has_failed trace.old ≡ false }
    ensures ok { OnOk result (FromReady (T.ready trace.old) (T.holds trace.new)
        (conducts block.old.worked.run schedule.now clocks) true) }
    ensures run { OnOk result (block.new.worked.run
        ≡ (hosted_at block.old.worked.run schedule.now clocks).run) }
    ensures failed { T.has_failed trace.new ≡ is_err result }
    ensures cause { PutCounts (T.faults trace.old) (T.faults trace.new) result }
    ensures same { T.name trace.new ≡ T.name trace.old }
    ensures steps { steps.new + block.old.worked.calls ≡ steps.old + block.new.worked.calls }
    ensures exact { OnOk result (steps.new ≡ steps.old + worked_in block.old.worked.run schedule.now clocks) }
    ensures most { steps.new ≤ steps.old + worked_in block.old.worked.run schedule.now clocks }
{
    let mut ports = HostPorts::new(schedule);
    run(block, &mut ports, clocks, trace, steps)
}

/// Runs two blocks for some clocks, with stimuli that begin in clock 0, and tells a trace the samples of each clock and that
/// the samples end there.
///
/// Both blocks are in clock 0, and the clocks are up to 10^12. One step is one clock worked out singly, by a call of
/// `Twin::clock` or `Twin::quiet_clock`: clock 0, and each later one that stirs in either block. The trace isn't told of the
/// others, which repeat the samples before them, nor of one of these that is known to repeat them. Where the trace fails, the
/// run stops after the clock whose samples it was told.
pub fn simulate_twin<F: Fifo, T: Trace<(Sample, Sample)>, L: Ledger>(
    twin: &mut Twin<F>,
    first: &Schedule,
    second: &Schedule,
    clocks: u64,
    trace: &mut T,
    steps: &mut Steps<L>,
) -> Result<(), TraceFailed>
    requires fresh_first { twin.old.twin.first.clock ≡ 0 }
    requires fresh_second { twin.old.twin.second.clock ≡ 0 }
    requires within { clocks ≤ 10 ^ 12 }
    requires working { T.has_failed trace.old ≡ false }
    ensures ok { OnOk result (FromReady (T.ready trace.old) (T.holds trace.new)
        (twin_samples twin.old.twin first.now second.now clocks) true) }
    ensures run { OnOk result (twin.new.twin
        ≡ twin_of (hosted_twin_at twin.old.twin first.now second.now clocks)) }
    ensures err { OnErr result (Stops (twin_after twin.old.twin first.now second.now)
        (twin_samples twin.old.twin first.now second.now) clocks twin.new.twin
        (FromReady (T.ready trace.old) (T.broken trace.new))) }
    ensures failed { T.has_failed trace.new ≡ is_err result }
    ensures cause { PutCounts (T.faults trace.old) (T.faults trace.new) result }
    ensures same { T.name trace.new ≡ T.name trace.old }
    ensures steps { steps.new + twin.old.calls ≡ steps.old + twin.new.calls }
    ensures exact { OnOk result (steps.new
        ≡ steps.old + twin_worked_in twin.old.twin first.now second.now clocks) }
    ensures most { steps.new ≤ steps.old + twin_worked_in twin.old.twin first.now second.now clocks }
{
    let mut ports = (HostPorts::new(first), HostPorts::new(second));
    run(twin, &mut ports, clocks, trace, steps)
}

/// Runs for some clocks from clock 0 on, and tells a trace what each shows and that they end there. One step is one clock
/// worked out singly.
#[inline(always)]
fn run<V: Drop, P, R: Runs<V, P>, T: Trace<V>, L: Ledger>(
    runs: &mut R,
    ports: &mut P,
    clocks: u64,
    trace: &mut T,
    steps: &mut Steps<L>,
) -> Result<(), TraceFailed>
    requires course { IsCourse R.kind (R.lines ports.old) (R.hosted runs.old ports.old)
        (R.course runs.old ports.old) }
    requires may_ask { R.may_ask ports.old 0 }
    requires within { clocks ≤ 10 ^ 12 }
    requires working { T.has_failed trace.old ≡ false }
    ensures ok { OnOk result (FromReady (T.ready trace.old) (T.holds trace.new)
        ((R.course runs.old ports.old).samples clocks) true) }
    ensures run { OnOk result (R.hosted runs.new ports.new ≡ (R.course runs.old ports.old).at clocks) }
    ensures err { OnErr result (Stops (R.course runs.old ports.old).at (R.course runs.old ports.old).samples
        clocks (R.hosted runs.new ports.new) (FromReady (T.ready trace.old) (T.broken trace.new))) }
    ensures failed { T.has_failed trace.new ≡ is_err result }
    ensures cause { PutCounts (T.faults trace.old) (T.faults trace.new) result }
    ensures same { T.name trace.new ≡ T.name trace.old }
    ensures steps { steps.new + R.calls runs.old ≡ steps.old + R.calls runs.new }
    ensures exact { OnOk result (steps.new ≡ steps.old
        + worked (λ c. R.kind.stirs (R.lines ports.old) ((R.course runs.old ports.old).at c)) clocks) }
    ensures most { steps.new ≤ steps.old
        + worked (λ c. R.kind.stirs (R.lines ports.old) ((R.course runs.old ports.old).at c)) clocks }
{
    runs.is_of_its_kind(ports);
    trace.begin()?;
    let mut until = runs.next_due(ports, 0, clocks);
    let mut clock = 0;
    'clocks: while clock < clocks {
        let stepped = step(runs, ports, clock, until, clocks);
        until = stepped.until;
        steps.count();
        tell(trace, clock, runs, ports, stepped.is_new | (clock == 0))?;
        clock = leap(runs, ports, clock + 1, until);
    }
    trace.end(clocks)
}

/// Tells a trace what a run shows after a clock, where that may be new.
#[inline(always)]
fn tell<V: Drop, P, R: Runs<V, P>, T: Trace<V>>(
    trace: &mut T,
    clock: u64,
    runs: &R,
    ports: &P,
    is_new: bool,
) -> Result<(), TraceFailed>
    requires { T.has_failed trace.old ≡ false }
    ensures again { is_new ≡ false → trace.new ≡ trace.old }
    ensures ok { is_new ≡ true → OnOk result ((before : Option (List ℕ)) (l : List V) → T.holds trace.old before l false
        → IsNext l clock → T.holds trace.new before (told_at clock (R.kind.shown (R.hosted runs.now ports.now)) l) false) }
    ensures err { OnErr result ((before : Option (List ℕ)) (l : List V) → T.holds trace.old before l false
        → IsNext l clock → T.broken trace.new before (told_at clock (R.kind.shown (R.hosted runs.now ports.now)) l) false) }
    ensures cause { PutCounts (T.faults trace.old) (T.faults trace.new) result }
    ensures failed { T.has_failed trace.new ≡ is_err result }
    ensures same { T.name trace.new ≡ T.name trace.old }
{
    if is_new {
        return trace.sample(clock, &runs.shown(ports));
    }
    Ok(())
}
