//! All values of what is inside a block, in the order of their identifiers.
ghost use Rattle.std.specs.Prelude.{◌≡◌, ◌+◌, ◌≤◌, ◌<◌, ◌++◌, length};
ghost use Rattle.pio_edge.specs.Edge.{Takes, PutCounts};
ghost use Rattle.vcd_trace.specs.VcdText.{value_lines};
ghost use Rattle.vcd_trace.specs.InsideText.{inside_dump_text, machine_lines, machine_values};
ghost use Rattle.vcd_trace.specs.InsideText.{machine_widths, machines_lines};

use crate::dump::{put_bits, put_values, put_vectors};
use crate::machine::{bits_of, words_of};
use crate::variable::{MACHINE, MACHINE_VALUES, PAD};
use block_core::{Inside, MachineInside};
use pio_edge::{Sink, SinkFailed};

/// Puts the values that a trace begins with.
pub(crate) fn put_inside_dump<S: Sink>(sink: &mut S, inside: &Inside) -> Result<(), SinkFailed>
    ensures bytes { Takes (S.taken sink.old) (inside_dump_text inside.now) (S.taken sink.new) result }
    ensures cause { PutCounts (S.faults sink.old) (S.faults sink.new) result }
{
    sink.put(b"$dumpvars\n")?;
    put_values(sink, 0, &inside.sample)?;
    put_bits(sink, PAD, 32, inside.pads)?;
    put_machines(sink, &inside.machines)?;
    sink.put(b"$end\n")
}

// The values of the configured machines.
fn put_machines<S: Sink>(
    sink: &mut S,
    machines: &[Option<MachineInside>; 4],
) -> Result<(), SinkFailed>
    ensures bytes { Takes (S.taken sink.old) (machines_lines 0 machines.now) (S.taken sink.new) result }
    ensures cause { PutCounts (S.faults sink.old) (S.faults sink.new) result }
{
    for place in 0..4 {
        put_where(sink, place as u8, &machines[place])?;
    }
    Ok(())
}

// The values of the machine at a place, where one is configured.
fn put_where<S: Sink>(
    sink: &mut S,
    place: u8,
    machine: &Option<MachineInside>,
) -> Result<(), SinkFailed>
    requires { place < 4 }
    ensures bytes { Takes (S.taken sink.old) (machine_lines place machine.now) (S.taken sink.new) result }
    ensures cause { PutCounts (S.faults sink.old) (S.faults sink.new) result }
{
    match machine {
        None => Ok(()),
        Some(machine) => put_machine(sink, MACHINE + MACHINE_VALUES * place, machine),
    }
}

// The values of a machine, whose numbers count on from one.
fn put_machine<S: Sink>(sink: &mut S, first: u8, machine: &MachineInside) -> Result<(), SinkFailed>
    requires { first + 10 ≤ 256 }
    ensures bytes { Takes (S.taken sink.old)
        (value_lines first machine_widths (machine_values machine.now)) (S.taken sink.new) result }
    ensures cause { PutCounts (S.faults sink.old) (S.faults sink.new) result }
{
    put_vectors(sink, first, &words_of(machine))?;
    put_bits(sink, first + 8, 2, bits_of(machine))
}
