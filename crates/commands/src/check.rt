//! The command `check`: the verdict on each span that a configuration asks of the programs of a source.
ghost use Rattle.std.specs.Prelude.{◌≡◌, [], length};
ghost use Rattle.command_line.specs.declared.order.Order.TheVariants.{Check};
ghost use Rattle.pio_edge.specs.Edge.{PutCounts, Takes};
ghost use Rattle.span_texts.specs.VerdictLines.{verdict_line};
ghost use Rattle.stages.specs.Configured.{AreConfigured};
ghost use Rattle.stages.specs.Spans.{AreJudged, verdict_text};
ghost use Rattle.commands.specs.Outside.{output_by};
ghost use Rattle.commands.specs.Obeys.{ObeysAtRest};
ghost use Rattle.commands.specs.Written.{SinkWrites};
ghost use Rattle.commands.specs.Does.{Does};
ghost use Rattle.commands.specs.Tasks as task;

use crate::handing::hand_on;
use fault_lines::Fault;
use pin_matrix::{Setup, Span};
use pio_edge::{Shelf, Sink, SinkFailed};
use span_texts::{Finding, Refusal, put_verdict};
use stages::{Verdicts, judge_spans, prepare_setup, unless_refused};
use std::alloc::Global;

/// Writes the line of the verdict on each span of a setup, and then ends with the fault of the first one that isn't
/// provable, if there is one. All memory is taken before the first piece is put.
///
/// With status 0, where contracts know the files and the output: `CheckPassed` (`specs/Passed.antt`).
pub fn check<F: Shelf, O: Sink>(
    alloc: Global,
    source: &str,
    config: Option<&str>,
    shelf: &mut F,
    out: &mut O,
) -> Result<(), Fault>
    ensures { ObeysAtRest (Check source.entry config.entry) F.Shelf O.Sink
        shelf.old shelf.new out.old out.new result }
{
    let setup = prepare_setup(alloc, shelf, source, config)?;
    let verdicts = judge_spans(alloc, &setup)?;
    tell_verdicts(out, &setup, verdicts)
}

/// Writes the lines of verdicts, and then ends with the fault of the first span that isn't provable, if there is one.
fn tell_verdicts<O: Sink>(out: &mut O, setup: &Setup, verdicts: Verdicts) -> Result<(), Fault>
    requires configured { AreConfigured setup.now }
    requires judged { AreJudged setup.now setup.now.spans verdicts.found.items verdicts.refused }
    ensures { Does (task.verdicts setup.now) (output_by O.Sink out.old) (output_by O.Sink out.new) result }
{
    write_verdicts(out, setup.spans.as_slice(), &verdicts.found)?;
    unless_refused(setup, verdicts.refused)
}

/// Writes the lines of the verdicts on spans, and hands on what the output still keeps.
fn write_verdicts<O: Sink>(
    out: &mut O,
    spans: &[Span],
    found: &[Result<Finding, Refusal>],
) -> Result<(), Fault>
    requires { length found.now ≡ length spans.now }
    ensures { SinkWrites O.Sink out.old out.new (verdict_text spans.now found.now) result }
{
    let put = put_verdicts(out, spans, found);
    hand_on(out, put)
}

/// Puts the lines of the verdicts on spans.
fn put_verdicts<O: Sink>(
    out: &mut O,
    spans: &[Span],
    found: &[Result<Finding, Refusal>],
) -> Result<(), SinkFailed>
    requires { length found.now ≡ length spans.now }
    ensures bytes { Takes (O.taken out.old) (verdict_text spans.now found.now) (O.taken out.new) result }
    ensures cause { PutCounts (O.faults out.old) (O.faults out.new) result }
{
    for place in 0..spans.len() {
        put_line(out, &spans[place], &found[place])?;
    }
    Ok(())
}

/// Puts the line of the verdict on a span.
fn put_line<O: Sink>(
    out: &mut O,
    span: &Span,
    found: &Result<Finding, Refusal>,
) -> Result<(), SinkFailed>
    ensures bytes { Takes (O.taken out.old) (verdict_line [] span.now.name found.now)
        (O.taken out.new) result }
    ensures cause { PutCounts (O.faults out.old) (O.faults out.new) result }
{
    put_verdict(out, &span.name, found)
}
