//! Lines of verdicts and of refusals.
use pio_edge::MemSink;
use pio_encode::Name;
use span_bounds::{Cause, Context};
use span_texts::{Finding, Refusal, put_refusal, put_verdict};
use std::alloc::Global;

/// Adds the line of a verdict. A row asks for the span's name and the verdict; on a line of its own, for the put that
/// fails and the bytes that it takes.
pub fn tell_verdict_line(alloc: Global, asked: &str, text: &mut String) -> Option<()> {
    let (asked, fails) = asked.split_once('\n').unwrap_or((asked, ""));
    let (name, verdict) = asked.split_once(' ')?;
    let name = Name::new(String::from_str(alloc, name).ok()?);
    let mut sink = sink_of(alloc, fails)?;
    let passes = put_verdict(&mut sink, &name, &verdict_of(verdict)?).is_ok();
    tell_taken(&sink, passes, text)
}

/// Adds the line of a refusal. A row asks for the text before it on a line, the span's name and the refusal.
pub fn tell_refusal_line(alloc: Global, asked: &str, text: &mut String) -> Option<()> {
    let (front, asked) = asked.split_once('\n')?;
    let (name, refusal) = asked.split_once(' ')?;
    let name = Name::new(String::from_str(alloc, name).ok()?);
    let mut sink = sink_of(alloc, "")?;
    let passes = put_refusal(&mut sink, front, &name, &refusal_of(refusal)?).is_ok();
    tell_taken(&sink, passes, text)
}

/// A sink of which one put fails, or none.
fn sink_of(alloc: Global, fails: &str) -> Option<MemSink> {
    match fails.split_once(' ') {
        None => MemSink::with_room(alloc, 99, &[]).ok(),
        Some((call, taken)) => {
            let failure = (call.parse().ok()?, taken.parse().ok()?);
            MemSink::with_room(alloc, 99, &[failure]).ok()
        }
    }
}

fn tell_taken(sink: &MemSink, passes: bool, text: &mut String) -> Option<()> {
    text.push_str(str::from_utf8(sink.bytes()).ok()?).ok()?;
    text.push_str(if passes { "" } else { ", and fails" }).ok()
}

/// `opens`, `never opens`, the same and ` and closes` or ` and never closes`, with the premises after ` under ` or without, or a
/// refusal.
fn verdict_of(verdict: &str) -> Option<Result<Finding, Refusal>> {
    let (found, prompt, assumes) = match verdict.split_once(" under ") {
        None => (verdict, false, false),
        Some((found, "prompt")) => (found, true, false),
        Some((found, "assume")) => (found, false, true),
        Some((found, "prompt, assume")) => (found, true, true),
        Some(_) => return None,
    };
    let (opening, closes) = match found.split_once(" and ") {
        None => (found, None),
        Some((opening, "closes")) => (opening, Some(true)),
        Some((opening, "never closes")) => (opening, Some(false)),
        Some(_) => return None,
    };
    match opening {
        "opens" => Some(Ok(Finding {
            opens: true,
            closes,
            prompt,
            assumes,
        })),
        "never opens" => Some(Ok(Finding {
            opens: false,
            closes,
            prompt,
            assumes,
        })),
        _ => Some(Err(refusal_of(verdict)?)),
    }
}

/// `shared 3`, or a context with its cause: the address, X and Y (`any` where they may be anything), both levels, and `U1`.
fn refusal_of(refusal: &str) -> Option<Refusal> {
    if let Some(machine) = refusal.strip_prefix("shared ") {
        return Some(Refusal::Shared(machine.parse().ok()?));
    }
    let mut words = refusal.split(' ');
    let address: u8 = words.next()?.parse().ok()?;
    let x = known(words.next()?)?;
    let y = known(words.next()?)?;
    let from = words.next()? == "1";
    let to = words.next()? == "1";
    let cause = cause_of(words.next()?)?;
    let context = Context {
        address: address % 32,
        x,
        y,
        from,
        to,
    };
    Some(Refusal::Unproved(context, cause))
}

/// A number, or anything.
fn known(word: &str) -> Option<Option<u16>> {
    if word == "any" {
        Some(None)
    } else {
        Some(Some(word.parse().ok()?))
    }
}

fn cause_of(word: &str) -> Option<Cause> {
    match word {
        "U1" => Some(Cause::U1),
        "U2" => Some(Cause::U2),
        "U3" => Some(Cause::U3),
        "U4" => Some(Cause::U4),
        "U6" => Some(Cause::U6),
        _ => None,
    }
}
