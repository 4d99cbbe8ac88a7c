//! The command `measure`: what each span of a configuration measures in the first clocks of a run.
ghost use Rattle.std.specs.Prelude.{◌≡◌, ◌+◌, ◌≤◌, ◌^◌, IfOk, List, [], map};
ghost use Rattle.block_core.specs.Block.{first_run};
ghost use Rattle.block_core.specs.Conduct.{conducts, no_conduct};
ghost use Rattle.block_core.specs.Hosted.{samples};
ghost use Rattle.command_line.specs.declared.order.Order.TheVariants.{Measure};
ghost use Rattle.commands.specs.Metered.{seen_of_each};
ghost use Rattle.commands.specs.Tasks.{measured_text, seen_in};
ghost use Rattle.commands.specs.Obeys.{Obeys};
ghost use Rattle.commands.specs.Written.{SinkWrites};
ghost use Rattle.span_meter.specs.declared.pins.ShownPins.{ShownPins};
ghost use Rattle.span_meter.specs.Measured.{SpanEdges, ends_in};
ghost use Rattle.span_meter.specs.Events.{SpanEvents, events_in};
ghost use Rattle.span_meter.specs.Meters.{HasMeasured};
ghost use Rattle.span_meter.specs.SpokenMeters.{HasSpoken};
ghost use Rattle.idle_engine.specs.Worked.{worked_in};

use crate::measured_lines::write_lines;
use crate::metered::Metered;
use block_core::{Block, Conducted};
use command_line::RunFiles;
use dreq_pacing::Schedule;
use fault_lines::Fault;
use fifo_pair::{Fifo, RingFifo};
use idle_engine::{few_clocks_are_worked_out, simulate, simulate_conduct};
use pin_matrix::Setup;
use pio_edge::{Shelf, Sink};
use sample_trace::TraceFailed;
use span_meter::{
    ShownPins, SpanMeter, SpokenMeter, a_plain_span_measures_every_pair, is_any_selective,
};
use stages::prepare;
use std::alloc::{AllocError, Global};
use std::sync::ledger::Ledger;
use step_count::Steps;

/// Writes a line for each span of the block that a source sets up, by a configuration or by default: what it measures
/// in so many clocks, with a stimulus where one is named. It doesn't ask whether a span is provable. All memory is
/// taken before the first piece is put.
///
/// With status 0, where contracts know the files and the output: `MeasurePassed` (`specs/Passed.antt`).
pub fn measure<F: Shelf, O: Sink, L: Ledger>(
    alloc: Global,
    files: RunFiles,
    clocks: u64,
    shelf: &mut F,
    out: &mut O,
    steps: &mut Steps<L>,
) -> Result<(), Fault>
    requires { clocks ≤ 10 ^ 12 }
    ensures { Obeys (Measure files.entry clocks) F.Shelf O.Sink shelf.old shelf.new out.old out.new
        steps.old steps.new result }
{
    few_clocks_are_worked_out();
    let (setup, schedule) = prepare(alloc, shelf, files)?;
    write_measured(alloc, &setup, &schedule, clocks, out, steps)
}

/// Writes the lines of what the spans of a setup measure in so many clocks, or runs out of memory before it has put
/// anything.
fn write_measured<O: Sink, L: Ledger>(
    alloc: Global,
    setup: &Setup,
    schedule: &Schedule,
    clocks: u64,
    out: &mut O,
    steps: &mut Steps<L>,
) -> Result<(), Fault>
    requires { clocks ≤ 10 ^ 12 }
    ensures ends { SinkWrites O.Sink out.old out.new
        (measured_text (first_run setup.now) setup.now.spans schedule.now clocks) result }
    ensures steps { steps.new ≤ steps.old + worked_in (first_run setup.now) schedule.now clocks }
{
    let meter = metered(alloc, setup, schedule, clocks, steps)?;
    write_lines(out, setup.spans.as_slice(), &meter)
}

/// A meter after the first clocks of a setup. All memory is taken before the first clock; the error is want of it.
fn metered<'a, L: Ledger>(
    alloc: Global,
    setup: &'a Setup,
    schedule: &Schedule,
    clocks: u64,
    steps: &mut Steps<L>,
) -> Result<Metered<'a>, AllocError>
    requires { clocks ≤ 10 ^ 12 }
    ensures seen { IfOk result (λ meter. seen_of_each meter
        ≡ map (λ sp. seen_in (first_run setup.now) sp schedule.now clocks) setup.now.spans) }
    ensures steps { steps.new ≤ steps.old + worked_in (first_run setup.now) schedule.now clocks }
{
    a_plain_span_measures_every_pair();
    let block = Block::<RingFifo>::new(alloc, setup)?;
    let shown = block.view();
    let pins = ShownPins {
        level: shown.level,
        direction: shown.direction,
    };
    if is_any_selective(setup.spans.as_slice()) {
        let pairs = spoken(alloc, block, setup, pins, schedule, clocks, steps)?;
        return Ok(Metered::Spoken(pairs));
    }
    let meter = plain(alloc, block, setup, pins, schedule, clocks, steps)?;
    Ok(Metered::Plain(meter))
}

/// A meter of spans that all speak of every pair, after the first clocks of a block whose pins are these.
// A call of its own: within a greater function its loop costs more a clock.
#[inline(never)]
fn plain<F: Fifo, L: Ledger>(
    alloc: Global,
    mut block: Block<F>,
    setup: &Setup,
    pins: ShownPins,
    schedule: &Schedule,
    clocks: u64,
    steps: &mut Steps<L>,
) -> Result<SpanMeter, AllocError>
    requires fresh { block.run.clock ≡ 0 }
    requires within { clocks ≤ 10 ^ 12 }
    ensures measured { IfOk result (λ meter. HasMeasured pins (map ends_in setup.now.spans)
        (samples block.run schedule.now clocks) meter) }
    ensures steps { steps.new ≤ steps.old + worked_in block.run schedule.now clocks }
{
    let mut meter = SpanMeter::new(alloc, setup.spans.as_slice(), pins)?;
    meter_run(&mut block, schedule, clocks, &mut meter, steps);
    Ok(meter)
}

/// A meter of any spans, after the first clocks of a block whose pins are these.
#[cold]
#[inline(never)]
fn spoken<'a, F: Fifo, L: Ledger>(
    alloc: Global,
    block: Block<F>,
    setup: &'a Setup,
    pins: ShownPins,
    schedule: &Schedule,
    clocks: u64,
    steps: &mut Steps<L>,
) -> Result<SpokenMeter<'a>, AllocError>
    requires fresh { block.run.clock ≡ 0 }
    requires within { clocks ≤ 10 ^ 12 }
    ensures spoken { IfOk result (λ meter. HasSpoken pins (map events_in setup.now.spans)
        (conducts block.run schedule.now clocks) meter) }
    ensures steps { steps.new ≤ steps.old + worked_in block.run schedule.now clocks }
{
    let mut meter = SpokenMeter::new(alloc, setup.spans.as_slice(), pins)?;
    let mut conducted = Conducted::new(block, 0);
    meter_conduct(&mut conducted, schedule, clocks, &mut meter, steps);
    Ok(meter)
}

/// Tells a meter so many clocks of a block.
fn meter_run<F: Fifo, L: Ledger>(
    block: &mut Block<F>,
    schedule: &Schedule,
    clocks: u64,
    meter: &mut SpanMeter,
    steps: &mut Steps<L>,
)
    requires fresh { block.old.run.clock ≡ 0 }
    requires within { clocks ≤ 10 ^ 12 }
    ensures measured { (pins : ShownPins) (ends : List SpanEdges) → HasMeasured pins ends [] meter.old
        → HasMeasured pins ends (samples block.old.run schedule.now clocks) meter.new }
    ensures steps { steps.new ≤ steps.old + worked_in block.old.run schedule.now clocks }
{
    match simulate(block, schedule, clocks, meter, steps) {
        Ok(()) => {}
        Err(TraceFailed) => unreachable!(),
    }
}

/// Tells a meter what the machines of a block do in so many clocks.
fn meter_conduct<F: Fifo, L: Ledger>(
    block: &mut Conducted<F>,
    schedule: &Schedule,
    clocks: u64,
    meter: &mut SpokenMeter,
    steps: &mut Steps<L>,
)
    requires fresh { block.old.worked.run.clock ≡ 0 }
    requires untold { block.old.last ≡ no_conduct block.old.worked.run }
    requires within { clocks ≤ 10 ^ 12 }
    ensures spoken { (pins : ShownPins) (events : List SpanEvents) → HasSpoken pins events [] meter.old
        → HasSpoken pins events (conducts block.old.worked.run schedule.now clocks) meter.new }
    ensures steps { steps.new ≤ steps.old + worked_in block.old.worked.run schedule.now clocks }
{
    match simulate_conduct(block, schedule, clocks, meter, steps) {
        Ok(()) => {}
        Err(TraceFailed) => unreachable!(),
    }
}
