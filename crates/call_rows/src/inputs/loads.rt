//! The load that a seed draws.
use drawn_load::{Load, draw_load};
use dreq_pacing::{Line, LineAct};
use pin_matrix::MachineSetup;
use std::alloc::Global;

/// Adds what the load of a seed shows.
pub fn tell_load(alloc: Global, seed: &str, text: &mut String) -> Option<()> {
    let load = draw_load(alloc, seed.parse().ok()?).ok()?;
    tell_drawn(&load, text)
}

/// Adds what a load shows, where it is of the known form.
fn tell_drawn(load: &Load, text: &mut String) -> Option<()> {
    tell_letters(load, text)?;
    let [feed, drain, edges @ ..] = load.schedule.lines() else {
        return None;
    };
    tell_feed(feed, drain, text)?;
    tell_edges(edges, text)
}

fn tell_letters(load: &Load, text: &mut String) -> Option<()> {
    let memory = &load.setup.memory;
    let machines = &load.setup.machines;
    let a = delay_of(*memory.get(0)?);
    let b = delay_of(*memory.get(2)?);
    let c = delay_of(*memory.get(3)?);
    let [i, f] = divider_of(*machines.get(1)?)?;
    write!(text, "{a} {b} {c} {i} {f}").ok()
}

/// The delay of a word without side-set.
fn delay_of(word: u16) -> u32 {
    u32::from(word >> 8) % 32
}

/// The divider of a machine, where there is one.
fn divider_of(machine: Option<MachineSetup>) -> Option<[u32; 2]> {
    let machine = machine?;
    Some([u32::from(machine.int), u32::from(machine.frac)])
}

/// Adds the periods of the feed of machine 1 and of the drain of machine 2, then the first and the last word.
fn tell_feed(feed: &Line, drain: &Line, text: &mut String) -> Option<()> {
    let LineAct::Feed {
        machine: 1,
        every: e,
        words,
    } = &feed.act
    else {
        return None;
    };
    let LineAct::Drain {
        machine: 2,
        every: g,
    } = &drain.act
    else {
        return None;
    };
    let words = words.as_slice();
    let first = words.first()?;
    let last = words.get(255)?;
    write!(text, " {e} {g} {first:08x} {last:08x}").ok()
}

fn tell_edges(edges: &[Line], text: &mut String) -> Option<()> {
    let rise = edge_of(edges.get(0), true)?;
    let fall = edge_of(edges.get(1), false)?;
    let last = edge_of(edges.last(), false)?;
    write!(text, " {rise} {fall} {last}").ok()
}

/// The clock of an edge of pin 2, where the line is one to this level.
fn edge_of(line: Option<&Line>, to: bool) -> Option<u64> {
    let line = line?;
    match line.act {
        LineAct::Pin { pin: 2, level } if level == to => Some(line.clock),
        _ => None,
    }
}
