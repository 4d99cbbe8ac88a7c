//! Derives the least closed tables of programs that cost most, so that the checker can be timed, and prints what it found.
//! Words: the names of the programs that are asked for; with none it derives all of them.
#![tactic(auto)]

mod loads;

use loads::{LOADS, TimedProgram, machine_of, memory_of};
use pin_matrix::{Addresses, Assumptions, PinSignal, Setup, Span, SpanUnit, Spans};
use pio_encode::Name;
use span_bounds::{Ages, Cause, Context, Derived, Table, derive};
use std::alloc::{AllocError, Global};
use std::process::ExitCode;
use std::rt::Env;
use std::{env, io};

/// The greatest bound of a span.
const MOST: u32 = 16_777_215;

fn main(rt: HostRuntime) -> ExitCode {
    match print_asked(&rt) {
        Some(()) => ExitCode::SUCCESS,
        None => ExitCode::FAILURE,
    }
}

/// Prints a line for each program that the words ask for, where there is memory.
fn print_asked<R: Env + Print + AllocGlobal>(rt: &R) -> Option<()> {
    let words: Result<Vec<String>, AllocError> = env::args(rt).ok()?.collect(rt.alloc());
    let words = words.ok()?;
    for load in &LOADS {
        if words.len() < 2 || is_asked(&words, load.name) {
            print_load(rt, rt.alloc(), load)?;
        }
    }
    Some(())
}

/// Whether a name is among the words.
fn is_asked(words: &[String], name: &str) -> bool {
    words.iter().any(|word| word.as_str() == name)
}

/// Prints what is found of one program.
fn print_load(rt: &impl Print, alloc: Global, load: &TimedProgram) -> Option<()> {
    match found_of(alloc, load)? {
        Derived::Closed(table) => print_rows(rt, load.name, &table).ok(),
        Derived::Bad { context, cause } => print_bad(rt, load.name, &context, cause).ok(),
    }
}

/// What is derived of a program on machine 0, and of a span from a rise of pin 0 to a fall in any number of ticks, where there
/// is memory.
fn found_of(alloc: Global, load: &TimedProgram) -> Option<Derived> {
    let span = Span {
        name: Name::new(String::from_str(alloc, "s").ok()?),
        machine: 0,
        from_pin: 0,
        from_signal: Some(PinSignal::Level),
        from_rise: true,
        to_pin: load.to_pin.min(31),
        to_signal: Some(PinSignal::Level),
        to_rise: false,
        unit: SpanUnit::Ticks,
        min: 0,
        max: Some(MOST),
        stalls: Addresses::empty(alloc),
        prompt: false,
        without: Addresses::empty(alloc),
        from_at: Addresses::empty(alloc),
        to_at: Addresses::empty(alloc),
        assume: Assumptions::empty(alloc),
    };
    let mut setup = Setup::of(memory_of(load), Spans::empty(alloc));
    setup.place(machine_of(load));
    derive(alloc, &setup, &span).ok()
}

/// Prints how many rows a table has, and the greatest age in it.
fn print_rows(rt: &impl Print, name: &str, table: &Table) -> io::Result<()> {
    let (rows, most) = size_of(table);
    println!(rt; "{name}: {rows} rows, ages up to {most}")
}

/// Prints the first bad context.
fn print_bad(rt: &impl Print, name: &str, context: &Context, cause: Cause) -> io::Result<()> {
    println!(rt;
        "{name}: bad at {} x {:?} y {:?}: {cause:?}",
        context.address, context.x, context.y
    )
}

/// How many rows a table has, and the greatest age in it.
fn size_of(table: &Table) -> (u32, u32) {
    let mut rows: u32 = 0;
    let mut most: u32 = 0;
    for address in 0..32u8 {
        for x in 0..33u8 {
            for y in 0..33u8 {
                let (more, age) = size_at(table, address, known(x), known(y));
                rows = rows.saturating_add(more);
                most = most.max(age);
            }
        }
    }
    (rows, most)
}

/// The same of the rows of an address, X and Y.
fn size_at(table: &Table, address: u8, x: Option<u16>, y: Option<u16>) -> (u32, u32) {
    let mut rows: u32 = 0;
    let mut most: u32 = 0;
    for levels in 0..4u8 {
        let context = Context {
            address: address.min(31),
            x,
            y,
            from: levels / 2 == 1,
            to: levels % 2 == 1,
        };
        match table.ages(&context) {
            None => {}
            Some(Ages::Empty) => rows = rows.saturating_add(1),
            Some(Ages::Between(_, hi)) => {
                rows = rows.saturating_add(1);
                most = most.max(hi);
            }
        }
    }
    (rows, most)
}

/// A number below 32, and any after 31.
fn known(n: u8) -> Option<u16> {
    if n < 32 { Some(u16::from(n)) } else { None }
}
