//! What most clocks add to a trace of what is inside a block, gathered in a room and put as one piece: the
//! clock's line, and the lines of a level, of a pad and of machines. In other clocks those of the machines alone.
ghost use Rattle.std.specs.Prelude.{◌≡◌, ◌+◌, ◌-◌, ◌*◌, ◌^◌, ◌<◌, ◌≤◌, ◌==◌, ◌++◌, [], Some, true};
ghost use Rattle.std.specs.Prelude.{IfSome, drop, if◌then◌else◌, length};
ghost use Rattle.pio_edge.specs.Edge.{Takes, PutCounts};
ghost use Rattle.vcd_trace.specs.VcdText.{bit_line, changes_over, vector_line};
ghost use Rattle.vcd_trace.specs.Groups.{bit_changes, same_rest, vector_changes};
ghost use Rattle.vcd_trace.specs.InsideText.{bit_of, inside_step_text, machine_changes, machines_changes};
ghost use Rattle.vcd_trace.specs.InsideGroups.{counts_of, place_of, register_changes};
ghost use Rattle.vcd_trace.specs.PlaceText as spec;

use crate::changes::has_same_rest;
use crate::clock_line::ClockLine;
use crate::line::{CLOCK_ROOM, LINE_ROOM, write_bit, write_vector};
use crate::machine::has_same_registers;
use crate::place_lines::Places;
use crate::variable::{LEVEL, MACHINE, MACHINE_VALUES, PAD};
use block_core::{Inside, MachineInside, Sample};
use pio_edge::{Sink, SinkFailed};

/// Room for the lines of a usual clock: its own, one of a level, one of a pad, and the lines of four machines.
pub(crate) const ROOM: usize = CLOCK_ROOM + 4 + 4 + 4 * MACHINE_ROOM;

/// Room for the lines of a machine: of its address and its word, of six other words, and of two bits.
const MACHINE_ROOM: usize = 8 * LINE_ROOM + 8;

/// The room in which the lines of a clock are gathered, and lines that are kept from clock to clock.
#[derive(Drop)]
pub(crate) struct Rooms {
    pub(crate) room: [u8; ROOM],
    pub(crate) line: ClockLine,
    places: Places,
}

impl Rooms {
    /// Nothing was gathered.
    pub(crate) fn new() -> Self {
        Rooms {
            room: [0; ROOM],
            line: ClockLine::new(),
            places: Places::new(),
        }
    }

    /// Writes what a usual clock adds after the one before it up to the end of the room, and says where it begins. None
    /// if nothing changes, or more than usual, or the line of the clock has other digits than the last two.
    #[inline(always)]
    pub(crate) fn write(&mut self, clock: u64, last: &Inside, now: &Inside) -> Option<usize>
        ensures within { IfSome result (λ start. start ≤ ROOM) }
        ensures rest { IfSome result (λ _. same_rest last.now.sample now.now.sample ≡ true) }
        ensures text { IfSome result
            (λ start. drop start self.new.room ≡ inside_step_text clock last.now now.now) }
    {
        if !is_usual(last, now) {
            return None;
        }
        if !self.line.turn(clock) {
            return None;
        }
        let end = self.write_changes(last, now);
        if end == ROOM {
            return None;
        }
        Some(self.line.write(&mut self.room, end))
    }

    /// Puts the lines of the machines' values that are not what they were, as one piece. No lines are no piece.
    pub(crate) fn put_machines<S: Sink>(
        &mut self,
        sink: &mut S,
        before: &[Option<MachineInside>; 4],
        now: &[Option<MachineInside>; 4],
    ) -> Result<(), SinkFailed>
        ensures bytes { Takes (S.taken sink.old)
            (machines_changes 0 before.now now.now) (S.taken sink.new) result }
        ensures cause { PutCounts (S.faults sink.old) (S.faults sink.new) result }
    {
        let start = write_machines(&mut self.room, &mut self.places, before, now);
        let lines = &self.room[start..];
        if lines.is_empty() {
            return Ok(());
        }
        sink.put(lines)
    }

    // Writes the lines of what changes.
    #[inline(always)]
    fn write_changes(&mut self, last: &Inside, now: &Inside) -> usize
        requires level { spec.one_changes last.now.sample.level now.now.sample.level }
        requires pads { spec.one_changes last.now.pads now.now.pads }
        ensures room { CLOCK_ROOM ≤ result }
        ensures before { result ≤ ROOM }
        ensures line { self.new.line ≡ self.old.line }
        ensures text { drop result self.new.room
            ≡ bit_changes 33 32 last.now.sample.level now.now.sample.level
            ++ (bit_changes 161 32 last.now.pads now.now.pads
            ++ machines_changes 0 last.now.machines now.now.machines) }
    {
        let machines = write_machines(
            &mut self.room,
            &mut self.places,
            &last.machines,
            &now.machines,
        );
        let pads = write_changed_bit(&mut self.room, machines, PAD, last.pads, now.pads);
        write_changed_bit(
            &mut self.room,
            pads,
            LEVEL,
            last.sample.level,
            now.sample.level,
        )
    }
}

// Whether at most a level, a pad and the machines change.
#[inline(always)]
fn is_usual(last: &Inside, now: &Inside) -> bool
    ensures rest { result ≡ true → same_rest last.now.sample now.now.sample ≡ true }
    ensures levels { result ≡ true → changes_over 0 last.now.sample now.now.sample
        ≡ bit_changes 33 32 last.now.sample.level now.now.sample.level }
    ensures level { result ≡ true → spec.one_changes last.now.sample.level now.now.sample.level }
    ensures pads { result ≡ true → spec.one_changes last.now.pads now.now.pads }
{
    changes_a_level(&last.sample, &now.sample) && one_changes(last.pads, now.pads)
}

// Whether at most one value of a sample changes, a level.
#[inline(always)]
fn changes_a_level(before: &Sample, now: &Sample) -> bool
    ensures rest { result ≡ true → same_rest before.now now.now ≡ true }
    ensures levels { result ≡ true → changes_over 0 before.now now.now
        ≡ bit_changes 33 32 before.now.level now.now.level }
    ensures level { result ≡ true → spec.one_changes before.now.level now.now.level }
{
    one_changes(before.level, now.level) && has_same_rest(before, now)
}

// Whether at most one bit changes.
#[inline(always)]
fn one_changes(before: u32, now: u32) -> bool
    ensures { result ≡ true → spec.one_changes before now }
{
    let changed = before ^ now;
    changed == 0 || changed & (changed - 1) == 0
}

// The line of a bit that changes, if one does.
#[inline(always)]
fn write_changed_bit(room: &mut [u8], end: usize, first: u8, before: u32, now: u32) -> usize
    requires first { first + 32 ≤ 256 }
    requires one { spec.one_changes before now }
    requires after { 4 ≤ end }
    requires before { end ≤ length room.now }
    ensures room { end ≤ result + 4 }
    ensures before { result ≤ end }
    ensures text { drop result room.new ≡ bit_changes first 32 before now ++ drop end room.old }
{
    let changed = before ^ now;
    if changed == 0 {
        return end;
    }
    let place = changed.trailing_zeros();
    write_bit(room, end, first + place as u8, ((now >> place) % 2) as u8)
}

// The lines of the machines, from the last one on.
#[inline(always)]
fn write_machines(
    room: &mut [u8; ROOM],
    places: &mut Places,
    before: &[Option<MachineInside>; 4],
    now: &[Option<MachineInside>; 4],
) -> usize
    ensures room { ROOM ≤ result + 4 * MACHINE_ROOM }
    ensures before { result ≤ ROOM }
    ensures text { drop result room.new ≡ machines_changes 0 before.now now.now }
{
    let fourth = write_where(room, ROOM, places, 3, &before[3], &now[3]);
    let third = write_where(room, fourth, places, 2, &before[2], &now[2]);
    let second = write_where(room, third, places, 1, &before[1], &now[1]);
    write_where(room, second, places, 0, &before[0], &now[0])
}

// The lines of the machine at a place, where one is configured.
#[inline(always)]
fn write_where(
    room: &mut [u8],
    end: usize,
    places: &mut Places,
    place: u8,
    before: &Option<MachineInside>,
    now: &Option<MachineInside>,
) -> usize
    requires place { place < 4 }
    requires after { MACHINE_ROOM ≤ end }
    requires before { end ≤ length room.now }
    ensures room { end ≤ result + MACHINE_ROOM }
    ensures before { result ≤ end }
    ensures text { drop result room.new ≡ machine_changes place before.now now.now ++ drop end room.old }
{
    match (before, now) {
        (Some(before), Some(now)) => write_machine(room, end, places, place, before, now),
        _ => end,
    }
}

// The lines of a machine.
#[inline(always)]
fn write_machine(
    room: &mut [u8],
    end: usize,
    places: &mut Places,
    place: u8,
    before: &MachineInside,
    now: &MachineInside,
) -> usize
    requires place { place < 4 }
    requires after { MACHINE_ROOM ≤ end }
    requires before { end ≤ length room.now }
    ensures room { end ≤ result + MACHINE_ROOM }
    ensures before { result ≤ end }
    ensures text { drop result room.new
        ≡ machine_changes place (Some before.now) (Some now.now) ++ drop end room.old }
{
    let others = write_others(room, end, MACHINE + MACHINE_VALUES * place + 2, before, now);
    write_place(room, others, places, place, before, now)
}

// The address and the word, of which mostly both change, or none.
#[inline(always)]
fn write_place(
    room: &mut [u8],
    end: usize,
    places: &mut Places,
    place: u8,
    before: &MachineInside,
    now: &MachineInside,
) -> usize
    requires place { place < 4 }
    requires after { 2 * LINE_ROOM ≤ end }
    requires before { end ≤ length room.now }
    ensures room { end ≤ result + 2 * LINE_ROOM }
    ensures before { result ≤ end }
    ensures text { drop result room.new
        ≡ vector_changes (193 + 10 * place) (place_of before.now) (place_of now.now) ++ drop end room.old }
{
    if before.pc != now.pc && before.instruction != now.instruction {
        return places.write(room, end, place, now.pc, now.instruction);
    }
    write_either(room, end, MACHINE + MACHINE_VALUES * place, before, now)
}

// The same where not both change. A call of its own, which keeps the usual way short.
#[inline(never)]
fn write_either(
    room: &mut [u8],
    end: usize,
    first: u8,
    before: &MachineInside,
    now: &MachineInside,
) -> usize
    requires first { first + 2 ≤ 256 }
    requires after { 2 * LINE_ROOM ≤ end }
    requires before { end ≤ length room.now }
    ensures room { end ≤ result + 2 * LINE_ROOM }
    ensures before { result ≤ end }
    ensures text { drop result room.new
        ≡ vector_changes first (place_of before.now) (place_of now.now) ++ drop end room.old }
{
    let word = write_changed(
        room,
        end,
        first + 1,
        u32::from(before.instruction),
        u32::from(now.instruction),
    );
    write_changed(room, word, first, u32::from(before.pc), u32::from(now.pc))
}

// All else. In most clocks no register changes, which few comparisons show.
#[inline(always)]
fn write_others(
    room: &mut [u8],
    end: usize,
    first: u8,
    before: &MachineInside,
    now: &MachineInside,
) -> usize
    requires first { first + 8 ≤ 256 }
    requires after { 6 * LINE_ROOM + 8 ≤ end }
    requires before { end ≤ length room.now }
    ensures room { end ≤ result + (6 * LINE_ROOM + 8) }
    ensures before { result ≤ end }
    ensures text { drop result room.new ≡ register_changes first before.now now.now ++ drop end room.old }
{
    if has_same_registers(before, now) {
        return end;
    }
    write_registers(room, end, first, before, now)
}

// The same where one changes, from the last value on. A call of its own, which keeps the usual way short.
#[inline(never)]
fn write_registers(
    room: &mut [u8],
    end: usize,
    first: u8,
    before: &MachineInside,
    now: &MachineInside,
) -> usize
    requires first { first + 8 ≤ 256 }
    requires after { 6 * LINE_ROOM + 8 ≤ end }
    requires before { end ≤ length room.now }
    ensures room { end ≤ result + (6 * LINE_ROOM + 8) }
    ensures before { result ≤ end }
    ensures text { drop result room.new ≡ register_changes first before.now now.now ++ drop end room.old }
{
    let enabled = write_flag(room, end, first + 7, before.enabled, now.enabled);
    let waits = write_flag(room, enabled, first + 6, before.waits, now.waits);
    let counts = write_counts(room, waits, first + 4, before, now);
    let osr = write_changed(room, counts, first + 3, before.osr, now.osr);
    let isr = write_changed(room, osr, first + 2, before.isr, now.isr);
    let y = write_changed(room, isr, first + 1, before.y, now.y);
    write_changed(room, y, first, before.x, now.x)
}

// The counts of the shift registers.
#[inline(always)]
fn write_counts(
    room: &mut [u8],
    end: usize,
    first: u8,
    before: &MachineInside,
    now: &MachineInside,
) -> usize
    requires first { first + 2 ≤ 256 }
    requires after { 2 * LINE_ROOM ≤ end }
    requires before { end ≤ length room.now }
    ensures room { end ≤ result + 2 * LINE_ROOM }
    ensures before { result ≤ end }
    ensures text { drop result room.new
        ≡ vector_changes first (counts_of before.now) (counts_of now.now) ++ drop end room.old }
{
    let osr = write_changed(
        room,
        end,
        first + 1,
        u32::from(before.osr_count),
        u32::from(now.osr_count),
    );
    write_changed(
        room,
        osr,
        first,
        u32::from(before.isr_count),
        u32::from(now.isr_count),
    )
}

// The line of a value of more than one bit, if it changes.
#[inline(always)]
fn write_changed(room: &mut [u8], end: usize, id: u8, before: u32, now: u32) -> usize
    requires after { LINE_ROOM ≤ end }
    requires before { end ≤ length room.now }
    ensures room { end ≤ result + LINE_ROOM }
    ensures before { result ≤ end }
    ensures text { drop result room.new
        ≡ (if before == now then [] else vector_line id now) ++ drop end room.old }
{
    if before == now {
        return end;
    }
    write_vector(room, end, id, now)
}

// The line of a value of one bit, if it changes.
#[inline(always)]
fn write_flag(room: &mut [u8], end: usize, id: u8, before: bool, now: bool) -> usize
    requires after { 4 ≤ end }
    requires before { end ≤ length room.now }
    ensures room { end ≤ result + 4 }
    ensures before { result ≤ end }
    ensures text { drop result room.new
        ≡ (if bit_of before == bit_of now then [] else bit_line id (bit_of now)) ++ drop end room.old }
{
    if before == now {
        return end;
    }
    write_bit(room, end, id, u8::from(now))
}
