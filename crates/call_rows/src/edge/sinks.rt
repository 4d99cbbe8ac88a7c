//! Sinks in memory and the sink that counts: which calls fail, and what is there afterwards.
use pio_edge::{MemSink, Sink, SureSink, put_all};
use std::alloc::{AllocError, Global};

/// Adds whether each call of a sink in memory passes, what it has taken and how many faults there were. A row asks for
/// the room and the calls that fail, each with the bytes that it takes, as `room 5, fails 2 1`; then for a call a line.
pub fn tell_memory_sink(alloc: Global, asked: &str, text: &mut String) -> Option<()> {
    let (head, calls) = asked.split_once('\n')?;
    let mut parts = head.split(", ");
    let room = parts.next()?.strip_prefix("room ")?.parse().ok()?;
    let mut fails = Vec::new(alloc);
    for part in parts {
        fails.push(failure_of(part.strip_prefix("fails ")?)?).ok()?;
    }
    let mut sink = MemSink::with_room(alloc, room, &fails).ok()?;
    tell_calls(alloc, &mut sink, calls, text)?;
    let taken = str::from_utf8(sink.bytes()).ok()?;
    write!(text, ": \"{taken}\", faults {}", sink.faults()).ok()
}

/// A call that fails, and the bytes that it takes: `2 1`.
pub fn failure_of(text: &str) -> Option<(u64, usize)> {
    let (call, taken) = text.split_once(' ')?;
    Some((call.parse().ok()?, taken.parse().ok()?))
}

/// Adds whether each call of the sink that counts passes, and its count. A row asks for a call a line.
pub fn tell_sure_sink(alloc: Global, calls: &str, text: &mut String) -> Option<()> {
    let mut sink = SureSink::new();
    tell_calls(alloc, &mut sink, calls, text)?;
    write!(text, ": {} bytes", sink.count()).ok()
}

/// Makes the calls of some lines, `put abc`, `put_all ab cd` or `finish`, and adds whether each passes.
pub fn tell_calls<S: Sink>(
    alloc: Global,
    sink: &mut S,
    calls: &str,
    text: &mut String,
) -> Option<()> {
    for (place, call) in calls.split('\n').enumerate() {
        let passes = does_pass(alloc, sink, call)?;
        tell_passing(place, passes, text).ok()?;
    }
    Some(())
}

fn tell_passing(place: usize, passes: bool, text: &mut String) -> Result<(), AllocError> {
    let gap = if place == 0 { "" } else { " " };
    let how = if passes { "passes" } else { "fails" };
    write!(text, "{gap}{how}")
}

fn does_pass<S: Sink>(alloc: Global, sink: &mut S, call: &str) -> Option<bool> {
    if call == "finish" {
        return Some(sink.finish().is_ok());
    }
    if let Some(piece) = call.strip_prefix("put ") {
        return Some(sink.put(piece.as_bytes()).is_ok());
    }
    let list = call.strip_prefix("put_all ")?;
    let mut pieces = Vec::new(alloc);
    for piece in list.split(' ') {
        pieces.push(piece.as_bytes()).ok()?;
    }
    Some(put_all(sink, &pieces).is_ok())
}
