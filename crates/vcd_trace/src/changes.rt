//! The values that a clock changes, in the order of their identifiers.
ghost use Rattle.std.specs.Prelude.{◌≡◌, ℕ, ◌+◌, ◌^◌, ◌<◌, ◌≤◌, ◌==◌, [], OnOk, if◌then◌else◌};
ghost use Rattle.pio_edge.specs.Edge.{Takes, PutCounts};
ghost use Rattle.vcd_trace.specs.VcdText.{changes_over, vector_line};
ghost use Rattle.vcd_trace.specs.Groups.{bit_changes, same_rest, same_words, vector_changes, vectors_of};

use crate::line::{put_bit, put_vector};
use crate::variable::{DIRECTION, FLAG, LEVEL, VECTOR, vectors_of};
use block_core::Sample;
use pio_edge::{Sink, SinkFailed};

/// Puts the lines of the values that are not what they were, after which the last sample is this one.
// Most clocks change levels alone, which few comparisons tell and one number keeps.
#[inline(always)]
pub(crate) fn put_next<S: Sink>(
    sink: &mut S,
    last: &mut Sample,
    now: &Sample,
) -> Result<(), SinkFailed>
    ensures bytes { Takes (S.taken sink.old) (changes_over 0 last.old now.now) (S.taken sink.new) result }
    ensures cause { PutCounts (S.faults sink.old) (S.faults sink.new) result }
    ensures kept { OnOk result (last.new ≡ now.now) }
{
    if has_same_rest(last, now) {
        put_changed_bits(sink, LEVEL, 32, last.level, now.level)?;
        last.level = now.level;
        return Ok(());
    }
    put_others(sink, last, now)
}

/// Whether two samples agree in all but the levels.
#[inline(always)]
pub(crate) fn has_same_rest(before: &Sample, now: &Sample) -> bool
    ensures { result ≡ same_rest before.now now.now }
{
    before.direction == now.direction && before.flags == now.flags && has_same_words(before, now)
}

// The same where more than levels may change. A call of its own, which keeps the usual way short.
#[inline(never)]
fn put_others<S: Sink>(sink: &mut S, last: &mut Sample, now: &Sample) -> Result<(), SinkFailed>
    ensures bytes { Takes (S.taken sink.old) (changes_over 0 last.old now.now) (S.taken sink.new) result }
    ensures cause { PutCounts (S.faults sink.old) (S.faults sink.new) result }
    ensures kept { OnOk result (last.new ≡ now.now) }
{
    put_changes(sink, 0, last, now)?;
    *last = *now;
    Ok(())
}

/// Puts the lines of the values that are not what they were, of variables whose numbers are so much greater.
// A copy for each scope, so that its numbers are constants and none is tested.
#[inline(always)]
pub(crate) fn put_changes<S: Sink>(
    sink: &mut S,
    more: u8,
    before: &Sample,
    now: &Sample,
) -> Result<(), SinkFailed>
    requires { more ≤ 128 }
    ensures bytes { Takes (S.taken sink.old) (changes_over more before.now now.now)
        (S.taken sink.new) result }
    ensures cause { PutCounts (S.faults sink.old) (S.faults sink.new) result }
{
    put_changed_bits(sink, LEVEL + more, 32, before.level, now.level)?;
    put_changed_bits(sink, DIRECTION + more, 32, before.direction, now.direction)?;
    put_changed_bits(
        sink,
        FLAG + more,
        8,
        u32::from(before.flags),
        u32::from(now.flags),
    )?;
    put_changed_words(sink, VECTOR + more, before, now)
}

/// The low `count` bits, from bit 0 on; the others are 0.
#[inline(always)]
pub(crate) fn put_changed_bits<S: Sink>(
    sink: &mut S,
    first: u8,
    count: u8,
    before: u32,
    now: u32,
) -> Result<(), SinkFailed>
    requires room { first + count ≤ 256 }
    requires before { before < 2 ^ count }
    requires now { now < 2 ^ count }
    ensures bytes { Takes (S.taken sink.old) (bit_changes first count before now)
        (S.taken sink.new) result }
    ensures cause { PutCounts (S.faults sink.old) (S.faults sink.new) result }
{
    let mut changed = before ^ now;
    while changed != 0 {
        let place = changed.trailing_zeros();
        put_bit(sink, first + place as u8, ((now >> place) % 2) as u8)?;
        changed &= changed - 1;
    }
    Ok(())
}

// The values of more than one bit: in most clocks none of them changes, which few comparisons tell.
#[inline(always)]
fn put_changed_words<S: Sink>(
    sink: &mut S,
    first: u8,
    before: &Sample,
    now: &Sample,
) -> Result<(), SinkFailed>
    requires { first + 16 ≤ 256 }
    ensures bytes { Takes (S.taken sink.old)
        (vector_changes first (vectors_of before.now) (vectors_of now.now)) (S.taken sink.new) result }
    ensures cause { PutCounts (S.faults sink.old) (S.faults sink.new) result }
{
    if has_same_words(before, now) {
        return Ok(());
    }
    put_words(sink, first, before, now)
}

// Whether two samples agree in the values of more than one bit. The lists of bytes are compared by copies, all at once.
#[inline(always)]
fn has_same_words(before: &Sample, now: &Sample) -> bool
    ensures { result ≡ same_words before.now now.now }
{
    before.got == now.got && (before.tx, before.rx, before.sticky) == (now.tx, now.rx, now.sticky)
}

// The same where one changes. A call of its own, which keeps the comparison short.
#[inline(never)]
fn put_words<S: Sink>(
    sink: &mut S,
    first: u8,
    before: &Sample,
    now: &Sample,
) -> Result<(), SinkFailed>
    requires { first + 16 ≤ 256 }
    ensures bytes { Takes (S.taken sink.old)
        (vector_changes first (vectors_of before.now) (vectors_of now.now)) (S.taken sink.new) result }
    ensures cause { PutCounts (S.faults sink.old) (S.faults sink.new) result }
{
    put_changed_vectors(sink, first, &vectors_of(before), &vectors_of(now))
}

#[inline(always)]
fn put_changed_vectors<S: Sink>(
    sink: &mut S,
    first: u8,
    before: &[u32; 16],
    now: &[u32; 16],
) -> Result<(), SinkFailed>
    requires { first + 16 ≤ 256 }
    ensures bytes { Takes (S.taken sink.old) (vector_changes first before.now now.now)
        (S.taken sink.new) result }
    ensures cause { PutCounts (S.faults sink.old) (S.faults sink.new) result }
{
    for place in 0..16 {
        put_changed(sink, first + place as u8, before[place], now[place])?;
    }
    Ok(())
}

// The line of a value of more than one bit, if it changes.
#[inline(always)]
fn put_changed<S: Sink>(sink: &mut S, id: u8, before: u32, now: u32) -> Result<(), SinkFailed>
    ensures bytes { Takes (S.taken sink.old)
        (if before == now then [] else vector_line id now) (S.taken sink.new) result }
    ensures cause { PutCounts (S.faults sink.old) (S.faults sink.new) result }
{
    if before == now {
        return Ok(());
    }
    put_vector(sink, id, now)
}
