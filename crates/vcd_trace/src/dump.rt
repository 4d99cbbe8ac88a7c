//! All values of a sample, in the order of their identifiers.
ghost use Rattle.std.specs.Prelude.{◌≡◌, ℕ, ◌+◌, ◌≤◌, length};
ghost use Rattle.pio_edge.specs.Edge.{Takes, PutCounts};
ghost use Rattle.vcd_trace.specs.VcdText.{dump_text, values_over};
ghost use Rattle.vcd_trace.specs.Groups.{bit_lines, vector_lines};
ghost use Rattle.vcd_trace.specs.TwinText.{twin_dump_text};

use crate::line::{put_bit, put_vector};
use crate::variable::{DIRECTION, FLAG, LEVEL, SECOND, VECTOR, vectors_of};
use block_core::Sample;
use pio_edge::{Sink, SinkFailed};

/// Puts the values that a trace begins with.
pub(crate) fn put_dump<S: Sink>(sink: &mut S, sample: &Sample) -> Result<(), SinkFailed>
    ensures bytes { Takes (S.taken sink.old) (dump_text sample.now) (S.taken sink.new) result }
    ensures cause { PutCounts (S.faults sink.old) (S.faults sink.new) result }
{
    sink.put(b"$dumpvars\n")?;
    put_values(sink, 0, sample)?;
    sink.put(b"$end\n")
}

/// Puts the values that a trace of two blocks begins with.
pub(crate) fn put_twin_dump<S: Sink>(
    sink: &mut S,
    first: &Sample,
    second: &Sample,
) -> Result<(), SinkFailed>
    ensures bytes { Takes (S.taken sink.old)
        (twin_dump_text (first.now, second.now)) (S.taken sink.new) result }
    ensures cause { PutCounts (S.faults sink.old) (S.faults sink.new) result }
{
    sink.put(b"$dumpvars\n")?;
    put_values(sink, 0, first)?;
    put_values(sink, SECOND, second)?;
    sink.put(b"$end\n")
}

/// The values of variables whose numbers are so much greater.
pub(crate) fn put_values<S: Sink>(sink: &mut S, more: u8, sample: &Sample) -> Result<(), SinkFailed>
    requires { more ≤ 128 }
    ensures bytes { Takes (S.taken sink.old) (values_over more sample.now) (S.taken sink.new) result }
    ensures cause { PutCounts (S.faults sink.old) (S.faults sink.new) result }
{
    let vectors = vectors_of(sample);
    put_bits(sink, LEVEL + more, 32, sample.level)?;
    put_bits(sink, DIRECTION + more, 32, sample.direction)?;
    put_bits(sink, FLAG + more, 8, u32::from(sample.flags))?;
    put_vectors(sink, VECTOR + more, &vectors)
}

/// The low `count` bits, from bit 0 on.
pub(crate) fn put_bits<S: Sink>(
    sink: &mut S,
    first: u8,
    count: u8,
    mut now: u32,
) -> Result<(), SinkFailed>
    requires { first + count ≤ 256 }
    ensures bytes { Takes (S.taken sink.old) (bit_lines first count now) (S.taken sink.new) result }
    ensures cause { PutCounts (S.faults sink.old) (S.faults sink.new) result }
{
    for step in 0..count {
        put_bit(sink, first + step, (now % 2) as u8)?;
        now /= 2;
    }
    Ok(())
}

/// The values of more than one bit.
pub(crate) fn put_vectors<S: Sink>(sink: &mut S, first: u8, now: &[u32]) -> Result<(), SinkFailed>
    requires { first + length now.now ≤ 256 }
    ensures bytes { Takes (S.taken sink.old) (vector_lines first now.now) (S.taken sink.new) result }
    ensures cause { PutCounts (S.faults sink.old) (S.faults sink.new) result }
{
    for place in 0..now.len() {
        put_vector(sink, first + place as u8, now[place])?;
    }
    Ok(())
}
