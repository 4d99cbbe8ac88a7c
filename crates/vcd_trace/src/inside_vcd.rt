//! The value-change trace of what is inside a block (IEEE 1364-2005, section 18), into a sink that was lent.
ghost use Rattle.std.specs.Prelude.{◌≡◌, ℕ, Bool, List, Option, true, false, [], Some, OnOk};
ghost use Rattle.pio_edge.specs.Edge.{Takes, PutCounts, TakesPrefix};
ghost use Rattle.vcd_trace.specs.TextForm.{HasPut, added};
ghost use Rattle.vcd_trace.specs.InsideText.{inside_dump_text, inside_form, inside_open_text, inside_step_text};
ghost use Rattle.vcd_trace.specs.InsideText.{inside_text_of, same_inside};
ghost use Rattle.vcd_trace.specs.InsideTold.{told_first};

use crate::changes::{put_changed_bits, put_next};
use crate::inside_dump::put_inside_dump;
use crate::inside_header::put_inside_header;
use crate::line::{put_clock, put_end};
use crate::usual::Rooms;
use crate::variable::PAD;
use crate::vcd::is_same;
use block_core::Inside;
use pio_edge::{Sink, SinkFailed};
use sample_trace::{Trace, TraceFailed};

/// A trace of what is inside a block as value-change text, of one unit a clock. A piece that is put is a line, or some
/// lines of a clock, and its faults are its sink's.
#[derive(Drop)]
pub struct InsideVcd<'a, S: Sink> {
    sink: &'a mut S,
    configured: [bool; 4],
    last: Option<Inside>,
    rooms: Rooms,
    failed: bool,
}

impl<'a, S: Sink> InsideVcd<'a, S> {
    /// A trace into this sink before its first clock, with a scope for each configured machine.
    pub fn new(sink: &'a mut S, configured: [bool; 4]) -> Self
        ensures lent { result.sink.ghost_name ≡ sink.entry.ghost_name }
        ensures same { result.sink.now ≡ sink.old }
        ensures whole { result.failed ≡ false }
        ensures configured { result.configured ≡ configured }
    {
        InsideVcd {
            sink,
            configured,
            last: None,
            rooms: Rooms::new(),
            failed: false,
        }
    }
}

// Its callers know which machines it declares by what it names in the place of what its sink had taken.
impl<'a, S: Sink> Trace<Inside> for InsideVcd<'a, S> {
    ghost name = { λ h. h.sink.ghost_name };

    ghost faults = { λ h. S.faults h.sink.now };

    ghost has_failed = { λ h. h.failed };

    ghost ready = { λ h b. b ≡ told_first h.configured (S.taken h.sink.now) };

    ghost holds = { λ h b l z. (configured : List Bool) (taken : Option (List ℕ))
        → b ≡ told_first configured taken
        → HasPut (inside_form configured) taken l z (S.taken h.sink.now) h.last };

    ghost broken = { λ h b l z. (configured : List Bool) (taken : Option (List ℕ))
        → b ≡ told_first configured taken
        → TakesPrefix taken (inside_text_of configured l z) (S.taken h.sink.now) };

    fn begin(&mut self) -> Result<(), TraceFailed> {
        self.last = None;
        match put_opening(self.sink, &self.configured) {
            Ok(()) => Ok(()),
            Err(SinkFailed) => {
                self.failed = true;
                Err(TraceFailed)
            }
        }
    }

    // Called in each clock, so it is put in place.
    #[inline(always)]
    fn sample(&mut self, clock: u64, inside: &Inside) -> Result<(), TraceFailed> {
        match put_inside(self.sink, &mut self.rooms, clock, &mut self.last, inside) {
            Ok(()) => Ok(()),
            Err(SinkFailed) => {
                self.failed = true;
                Err(TraceFailed)
            }
        }
    }

    fn end(&mut self, clock: u64) -> Result<(), TraceFailed> {
        match put_end(self.sink, clock, &self.last) {
            Ok(()) => Ok(()),
            Err(SinkFailed) => {
                self.failed = true;
                Err(TraceFailed)
            }
        }
    }

    fn failed(&self) -> bool {
        self.failed
    }
}

// The text before the first clock.
fn put_opening<S: Sink>(sink: &mut S, configured: &[bool; 4]) -> Result<(), SinkFailed>
    ensures bytes { Takes (S.taken sink.old) (inside_open_text configured.now []) (S.taken sink.new) result }
    ensures cause { PutCounts (S.faults sink.old) (S.faults sink.new) result }
{
    put_inside_header(sink, configured)?;
    put_clock(sink, 0)
}

// What a clock adds after what was told last, which is then this.
#[inline(always)]
fn put_inside<S: Sink>(
    sink: &mut S,
    rooms: &mut Rooms,
    clock: u64,
    last: &mut Option<Inside>,
    inside: &Inside,
) -> Result<(), SinkFailed>
    ensures bytes { (configured : List Bool) → Takes (S.taken sink.old)
        (added (inside_form configured) clock last.old inside.now) (S.taken sink.new) result }
    ensures cause { PutCounts (S.faults sink.old) (S.faults sink.new) result }
    ensures kept { OnOk result (last.new ≡ Some inside.now) }
{
    match last {
        Some(before) => put_step(sink, rooms, clock, before, inside),
        None => put_first(sink, last, inside),
    }
}

// What the first clock adds. A call of its own, since it is the only one.
#[inline(never)]
fn put_first<S: Sink>(
    sink: &mut S,
    last: &mut Option<Inside>,
    inside: &Inside,
) -> Result<(), SinkFailed>
    ensures bytes { Takes (S.taken sink.old) (inside_dump_text inside.now) (S.taken sink.new) result }
    ensures cause { PutCounts (S.faults sink.old) (S.faults sink.new) result }
    ensures kept { OnOk result (last.new ≡ Some inside.now) }
{
    put_inside_dump(sink, inside)?;
    *last = Some(*inside);
    Ok(())
}

// What a clock adds after the one before it: nothing where the same is inside.
#[inline(always)]
fn put_step<S: Sink>(
    sink: &mut S,
    rooms: &mut Rooms,
    clock: u64,
    last: &mut Inside,
    now: &Inside,
) -> Result<(), SinkFailed>
    ensures bytes { Takes (S.taken sink.old)
        (inside_step_text clock last.old now.now) (S.taken sink.new) result }
    ensures cause { PutCounts (S.faults sink.old) (S.faults sink.new) result }
    ensures kept { OnOk result (last.new ≡ now.now) }
{
    let Some(start) = rooms.write(clock, last, now) else {
        return put_others(sink, rooms, clock, last, now);
    };
    sink.put(&rooms.room[start..])?;
    last.sample.level = now.sample.level;
    last.pads = now.pads;
    last.machines = now.machines;
    Ok(())
}

// The same where more may change than in a usual clock. A call of its own, which keeps the usual way short.
#[inline(never)]
fn put_others<S: Sink>(
    sink: &mut S,
    rooms: &mut Rooms,
    clock: u64,
    last: &mut Inside,
    now: &Inside,
) -> Result<(), SinkFailed>
    ensures bytes { Takes (S.taken sink.old)
        (inside_step_text clock last.old now.now) (S.taken sink.new) result }
    ensures cause { PutCounts (S.faults sink.old) (S.faults sink.new) result }
    ensures kept { OnOk result (last.new ≡ now.now) }
{
    if is_same_inside(last, now) {
        return Ok(());
    }
    rooms.line.put(sink, clock)?;
    put_next(sink, &mut last.sample, &now.sample)?;
    put_changed_bits(sink, PAD, 32, last.pads, now.pads)?;
    rooms.put_machines(sink, &last.machines, &now.machines)?;
    last.pads = now.pads;
    last.machines = now.machines;
    Ok(())
}

// Whether the same is inside as before.
#[inline(always)]
fn is_same_inside(before: &Inside, now: &Inside) -> bool
    ensures { result ≡ same_inside before.now now.now }
{
    is_same(&before.sample, &now.sample)
        && before.pads == now.pads
        && before.machines == now.machines
}
