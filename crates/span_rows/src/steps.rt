//! Steps of the checker: the least closed table of a program, or the bad context.
use crate::keys::{Keys, most_of};
use crate::programs::Program;
use crate::setups::{is_configured, machine_of, span_of};
use pin_matrix::{Setup, Span, Spans};
use pio_edge::MemSink;
use span_check::check;
use span_texts::{Refusal, put_refusal, put_table};
use span_verdict::Verdict;
use std::alloc::Global;

/// Adds the rows of the least closed table, or the bad context with its cause. What is asked has the keys on a line,
/// the words of the memory from address 0 on, and after ` | ` X, Y and the least and the greatest bound.
pub fn tell_step(alloc: Global, asked: &str, text: &mut String) -> Option<()> {
    let (list, rest) = asked.split_once('\n')?;
    let (words, numbers) = rest.split_once(" \n ")?;
    let mut keys = Keys::new();
    keys.take(list)?;
    take_numbers(&mut keys, numbers)?;
    let mut program = Program::new();
    for word in words.split(' ') {
        program.add(word)?;
    }
    let span = span_of(alloc, &keys, "a")?;
    let mut setup = Setup::of(program.memory(), Spans::empty(alloc));
    setup.place(machine_of(0, &keys)?);
    tell_checked(alloc, &setup, &span, text)
}

/// Takes X, Y and the bounds of the span.
fn take_numbers(keys: &mut Keys, numbers: &str) -> Option<()> {
    let mut numbers = numbers.split(' ');
    keys.x = numbers.next()?.parse().ok()?;
    keys.y = numbers.next()?.parse().ok()?;
    keys.min = numbers.next()?.parse().ok()?;
    keys.max = most_of(numbers.next()?)?;
    match numbers.next() {
        None => Some(()),
        Some(_) => None,
    }
}

fn tell_checked(alloc: Global, setup: &Setup, span: &Span, text: &mut String) -> Option<()> {
    if !is_configured(setup, span) {
        return None;
    }
    let mut sink = MemSink::with_room(alloc, 999, &[]).ok()?;
    match check(alloc, setup, span).ok()? {
        Verdict::Proved { table, .. } => {
            put_table(&mut sink, &table).ok()?;
            tell_rows(&sink, text)
        }
        Verdict::Unproved(context, cause) => {
            let refusal = Refusal::Unproved(context, cause);
            put_refusal(&mut sink, "", &span.name, &refusal).ok()?;
            tell_refusal(&sink, text)
        }
        Verdict::Shared(_) => None,
    }
}

/// Adds the rows of a table's text, with a comma and a blank between.
fn tell_rows(sink: &MemSink, text: &mut String) -> Option<()> {
    let table = str::from_utf8(sink.bytes()).ok()?;
    let rows = table
        .strip_prefix("pio table 1\n")?
        .strip_suffix("\nend\n")?;
    for (place, row) in rows.split('\n').enumerate() {
        let gap = if place == 0 { "" } else { ", " };
        write!(text, "{gap}{row}").ok()?;
    }
    Some(())
}

/// Adds the line of a refusal from the context on.
fn tell_refusal(sink: &MemSink, text: &mut String) -> Option<()> {
    let line = str::from_utf8(sink.bytes()).ok()?;
    let told = line.strip_prefix("span a unproved ")?.strip_suffix('\n')?;
    text.push_str(told).ok()
}
