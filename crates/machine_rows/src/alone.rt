//! A program on a lone machine, what goes on around it, and what is seen after which clocks. The machine ticks in each
//! clock. Both kinds of FIFO show what a row says: the one by whole ticks, the other by simple ones where there are.
ghost use Rattle.std.specs.Prelude.{◌<◌, length, IsTrue, IsSome};

use crate::events::{Event, Happening, events_of};
use crate::seen::{After, Shown, afters, clocks_of, tell};
use crate::setup::RowSetup;
use block_core::Sample;
use fifo_pair::{Fifo, PlainFifo, RingFifo};
use irq_flags::Flags;
use pin_matrix::{MachineSetup, Sync};
use sm_registers::{Intent, Machine, Outputs, Shared, View};
use std::alloc::Global;

/// A memory and the machine over it, what happens, and what is said to be seen.
#[derive(Drop)]
struct Row<'a> {
    memory: [u16; 32],
    machine: MachineSetup,
    events: Vec<Event>,
    afters: Vec<After<'a>>,
}

/// The block around the machine: what it sees, and what becomes of its writes.
#[derive(Drop)]
pub struct Around {
    pub shared: Shared,
    pub outputs: Outputs,
}

/// How a tick is made.
#[derive(Clone, Copy)]
pub enum By {
    /// Each is a whole one.
    Whole,
    /// Each that is simple is made as such.
    Simple,
}

/// Adds what a row says of its machine, and what is seen of it.
pub fn tell_alone(
    alloc: Global,
    lines: &str,
    expected: &mut String,
    seen: &mut String,
) -> Option<()> {
    let row = row_of(alloc, lines)?;
    let mut plain: Machine<PlainFifo> = Machine::new(alloc, &row.machine).ok()?;
    run(&mut plain, &row, By::Whole, expected, seen)?;
    let mut ring: Machine<RingFifo> = Machine::new(alloc, &row.machine).ok()?;
    run(&mut ring, &row, By::Simple, expected, seen)
}

fn row_of(alloc: Global, lines: &str) -> Option<Row<'_>> {
    let setup = RowSetup::of(alloc, lines)?;
    let machine = the_machine(&setup)?;
    Some(Row {
        memory: setup.memory(),
        machine,
        events: events_of(alloc, lines, machine.id)?,
        afters: afters(alloc, lines)?,
    })
}

/// The one machine of a row.
fn the_machine(setup: &RowSetup) -> Option<MachineSetup> {
    match setup.machines.as_slice() {
        [keys] => Some(keys.setup(setup.last())),
        _ => None,
    }
}

/// At the start all is 0, but for the memory.
pub fn around_of(memory: [u16; 32]) -> Around {
    Around {
        shared: Shared {
            memory,
            flags: Flags { up: 0 },
            sync: Sync::new(0, 0),
        },
        outputs: Outputs {
            levels: 0,
            directions: 0,
        },
    }
}

/// The row's clocks, one after the other.
fn run<F: Fifo>(
    machine: &mut Machine<F>,
    row: &Row,
    by: By,
    expected: &mut String,
    seen: &mut String,
) -> Option<()> {
    let mut around = around_of(row.memory);
    for now in 0..clocks_of(&row.afters) {
        clock(machine, &mut around, by, &row.events, now);
        let sample = sample_of(machine, &around, row.machine.id);
        tell(&row.afters, &shown(now, &sample), expected, seen)?;
    }
    Some(())
}

fn shown(clock: u64, sample: &Sample) -> Shown<'_> {
    Shown {
        clock,
        sample,
        inside: None,
        second: None,
        stir: None,
    }
}

/// A tick, and what it wants of FIFOs and flags.
fn tick<F: Fifo>(machine: &mut Machine<F>, around: &mut Around, by: By) -> Intent
    ensures take { IsTrue result.take → 0 < length machine.new.ports.fifos.tx }
    ensures word { IsSome result.word → length machine.new.ports.fifos.rx < machine.new.ports.fifos.rx_room }
{
    let view = View::new(&around.shared, 0);
    let outputs = &mut around.outputs;
    match by {
        By::Simple if machine.simple_tick(&view, outputs, false).is_done() => Intent::none(),
        _ => {
            let intent = machine.tick(&view);
            outputs.write(&intent);
            intent
        }
    }
}

/// One clock with its events.
pub fn clock<F: Fifo>(
    machine: &mut Machine<F>,
    around: &mut Around,
    by: By,
    events: &[Event],
    now: u64,
) {
    let mut word = None;
    let mut read = false;
    let mut lowered = 0;
    for event in events {
        if event.clock == now {
            match event.happening {
                Happening::Write(written) => word = Some(written),
                Happening::Read => read = true,
                Happening::See(seen) => around.shared.sync = Sync::new(seen, 0),
                Happening::Lower(flags) => lowered = flags,
                Happening::Levels(levels) => around.outputs.levels = levels,
            }
        }
    }
    let intent = tick(machine, around, by);
    machine.settle(&intent, word, read);
    around
        .shared
        .flags
        .merge(intent.clears | lowered, intent.sets);
}

/// What is seen of the machine, at the place of its number.
fn sample_of<F: Fifo>(machine: &Machine<F>, around: &Around, id: u8) -> Sample {
    let shown = machine.shown();
    let mut sample = Sample {
        level: around.outputs.levels,
        direction: around.outputs.directions,
        flags: around.shared.flags.up,
        tx: [0; 4],
        rx: [0; 4],
        got: [0; 4],
        sticky: [0; 4],
    };
    let place = usize::from(id % 4);
    sample.tx[place] = shown.tx;
    sample.rx[place] = shown.rx;
    sample.got[place] = shown.got;
    sample.sticky[place] = shown.sticky;
    sample
}
