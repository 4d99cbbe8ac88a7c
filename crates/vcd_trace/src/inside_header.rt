//! The declarations that a trace of what is inside a block begins with (IEEE 1364-2005, section 18.2.3).
ghost use Rattle.std.specs.Prelude.{◌≡◌, ◌+◌, ◌*◌, ◌≤◌, ◌<◌, [], length, if◌then◌else◌};
ghost use Rattle.pio_edge.specs.Edge.{Takes, PutCounts};
ghost use Rattle.vcd_trace.specs.VcdText.{declarations};
ghost use Rattle.vcd_trace.specs.InsideText.{first_of_machine, inside_header_text, machine_opening, machine_scope};
ghost use Rattle.vcd_trace.specs.InsideText.{machine_scopes, machine_variables, pads_scope};
ghost use Rattle.vcd_trace.specs.InsideGroups.{machine_variable};

use crate::header::{put_group, put_named, put_scope};
use crate::variable::{MACHINE, MACHINE_VALUES, PAD};
use pio_edge::{Sink, SinkFailed};

/// Puts the declarations, each line as one piece, with a scope for each configured machine.
pub(crate) fn put_inside_header<S: Sink>(
    sink: &mut S,
    configured: &[bool; 4],
) -> Result<(), SinkFailed>
    ensures bytes { Takes (S.taken sink.old) (inside_header_text configured.now) (S.taken sink.new) result }
    ensures cause { PutCounts (S.faults sink.old) (S.faults sink.new) result }
{
    sink.put(b"$timescale 1 ns $end\n")?;
    put_scope(sink, b"$scope module pio $end\n", 0)?;
    put_pads(sink)?;
    put_machines(sink, configured)?;
    sink.put(b"$enddefinitions $end\n")
}

// The scope of the pads.
fn put_pads<S: Sink>(sink: &mut S) -> Result<(), SinkFailed>
    ensures bytes { Takes (S.taken sink.old) pads_scope (S.taken sink.new) result }
    ensures cause { PutCounts (S.faults sink.old) (S.faults sink.new) result }
{
    sink.put(b"$scope module pads $end\n")?;
    put_group(sink, PAD, b'i', 1, 32)?;
    sink.put(b"$upscope $end\n")
}

// The scopes of the configured machines.
fn put_machines<S: Sink>(sink: &mut S, configured: &[bool; 4]) -> Result<(), SinkFailed>
    ensures bytes { Takes (S.taken sink.old) (machine_scopes 0 configured.now) (S.taken sink.new) result }
    ensures cause { PutCounts (S.faults sink.old) (S.faults sink.new) result }
{
    for place in 0..4 {
        put_where(sink, place as u8, configured[place])?;
    }
    Ok(())
}

// The scope of the machine at a place, where it is configured.
fn put_where<S: Sink>(sink: &mut S, place: u8, configured: bool) -> Result<(), SinkFailed>
    requires { place < 4 }
    ensures bytes { Takes (S.taken sink.old)
        (if configured then machine_scope place else []) (S.taken sink.new) result }
    ensures cause { PutCounts (S.faults sink.old) (S.faults sink.new) result }
{
    if configured {
        put_machine(sink, place)
    } else {
        Ok(())
    }
}

// The scope of the machine at a place.
fn put_machine<S: Sink>(sink: &mut S, place: u8) -> Result<(), SinkFailed>
    requires { place < 4 }
    ensures bytes { Takes (S.taken sink.old) (machine_scope place) (S.taken sink.new) result }
    ensures cause { PutCounts (S.faults sink.old) (S.faults sink.new) result }
{
    put_machine_opening(sink, place)?;
    put_machine_variables(sink, MACHINE + MACHINE_VALUES * place)?;
    sink.put(b"$upscope $end\n")
}

// The first line of that scope.
fn put_machine_opening<S: Sink>(sink: &mut S, place: u8) -> Result<(), SinkFailed>
    requires { place < 4 }
    ensures bytes { Takes (S.taken sink.old) (machine_opening place) (S.taken sink.new) result }
    ensures cause { PutCounts (S.faults sink.old) (S.faults sink.new) result }
{
    let mut line = *b"$scope module sm0 $end\n";
    line[16] = b'0' + place;
    sink.put(&line)
}

// The declarations of a machine's variables, whose identifiers count on from one.
fn put_machine_variables<S: Sink>(sink: &mut S, first: u8) -> Result<(), SinkFailed>
    requires { first + 10 ≤ 256 }
    ensures bytes { Takes (S.taken sink.old)
        (declarations first machine_variables) (S.taken sink.new) result }
    ensures cause { PutCounts (S.faults sink.old) (S.faults sink.new) result }
{
    for number in 0..MACHINE_VALUES {
        let (name, width) = variable_of(number);
        put_named(sink, first + number, name, width)?;
    }
    Ok(())
}

// The name of a machine's variable, and its width.
#[tactic(auto, unfolding(crate::specs::InsideText::machine_variables, crate::specs::InsideGroups::machine_variable))]
fn variable_of(number: u8) -> (&'static str, u8)
    requires { number < 10 }
    ensures name { result.0.now ≡ (machine_variable number).name }
    ensures width { result.1 ≡ (machine_variable number).width }
    ensures short { length result.0.now ≤ 11 }
{
    match number {
        0 => ("pc", 5),
        1 => ("instruction", 16),
        2 => ("x", 32),
        3 => ("y", 32),
        4 => ("isr", 32),
        5 => ("osr", 32),
        6 => ("isr_count", 6),
        7 => ("osr_count", 6),
        8 => ("waits", 1),
        _ => ("enabled", 1),
    }
}
