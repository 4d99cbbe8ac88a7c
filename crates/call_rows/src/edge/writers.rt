//! The sinks over writers, where a writer breaks or takes nothing, and in what pieces they hand on what was put.
use super::sinks::tell_calls;
use pio_edge::{ErrSink, OutSink, Sink};
use std::alloc::Global;
use std::io::{self, ErrorKind, Write};

/// What a writer does: at which of its writes, numbered from 1, it breaks, and at which it takes nothing (0 is none),
/// and whether its flush breaks.
#[derive(Clone, Copy)]
struct Turn {
    breaks: u64,
    takes_nothing: u64,
    flush_breaks: bool,
}

const WORKS: Turn = Turn {
    breaks: 0,
    takes_nothing: 0,
    flush_breaks: false,
};

/// `works`, `breaks 2`, `takes nothing 1` or `flush breaks`.
fn turn_of(text: &str) -> Option<Turn> {
    let mut turn = WORKS;
    if let Some(number) = text.strip_prefix("breaks ") {
        turn.breaks = number.parse().ok()?;
    } else if let Some(number) = text.strip_prefix("takes nothing ") {
        turn.takes_nothing = number.parse().ok()?;
    } else if text == "flush breaks" {
        turn.flush_breaks = true;
    } else if text != "works" {
        return None;
    }
    Some(turn)
}

/// Notes how long each write was.
#[derive(Drop)]
struct Noted {
    turn: Turn,
    sizes: Vec<usize>,
    calls: u64,
}

impl Noted {
    fn new(alloc: Global, turn: Turn) -> Self {
        Noted {
            turn,
            sizes: Vec::new(alloc),
            calls: 0,
        }
    }
}

impl Write for Noted {
    fn write(&mut self, buf: &[u8]) -> io::Result<usize> {
        self.calls = self.calls.saturating_add(1);
        if self.calls == self.turn.breaks {
            return Err(io::Error::from(ErrorKind::BrokenPipe));
        }
        if self.calls == self.turn.takes_nothing {
            return Ok(0);
        }
        self.sizes.push(buf.len())?;
        Ok(buf.len())
    }

    fn flush(&mut self) -> io::Result<()> {
        if self.turn.flush_breaks {
            return Err(io::Error::from(ErrorKind::BrokenPipe));
        }
        Ok(())
    }
}

/// Adds whether two puts and then `finish` pass, and how many faults there were; the output and the error output apart,
/// where they differ. A row asks for the piece on a line, and what the writer does.
pub fn tell_writers(alloc: Global, asked: &str, text: &mut String) -> Option<()> {
    let (piece, turn) = asked.split_once('\n')?;
    let turn = turn_of(turn)?;
    let out = out_told(alloc, turn, piece)?;
    let err = err_told(alloc, turn, piece)?;
    if out == err {
        return text.push_str(out.as_str()).ok();
    }
    write!(text, "output {out}, error output {err}").ok()
}

fn out_told(alloc: Global, turn: Turn, piece: &str) -> Option<String> {
    let mut text = String::new(alloc);
    let mut out = OutSink::new(alloc, Noted::new(alloc, turn)).ok()?;
    tell_puts(&mut out, piece, &mut text)?;
    write!(text, "faults {}", out.faults()).ok()?;
    Some(text)
}

fn err_told(alloc: Global, turn: Turn, piece: &str) -> Option<String> {
    let mut text = String::new(alloc);
    let mut err = ErrSink::new(Noted::new(alloc, turn));
    tell_puts(&mut err, piece, &mut text)?;
    write!(text, "faults {}", err.faults()).ok()?;
    Some(text)
}

/// Puts a piece twice, whether or not that passes, and finishes.
fn tell_puts<S: Sink>(sink: &mut S, piece: &str, text: &mut String) -> Option<()> {
    let first = how(sink.put(piece.as_bytes()).is_ok());
    let second = how(sink.put(piece.as_bytes()).is_ok());
    let last = how(sink.finish().is_ok());
    write!(text, "{first} {second} {last}: ").ok()
}

fn how(passes: bool) -> &'static str {
    if passes { "passes" } else { "fails" }
}

/// Adds in how many writes an output leaves, of how many bytes in all, and whether each but the last has 65,536 or
/// more. A row asks for `50000 1234567`: 50,000 puts of this piece.
pub fn tell_blocks(alloc: Global, asked: &str, text: &mut String) -> Option<()> {
    let (times, piece) = asked.split_once(' ')?;
    let times: u32 = times.parse().ok()?;
    let mut noted = Noted::new(alloc, WORKS);
    let passes = {
        let mut out = OutSink::new(alloc, &mut noted).ok()?;
        puts_many(&mut out, times, piece)
    };
    tell_sizes(passes, &noted.sizes, text)
}

fn puts_many<S: Sink>(sink: &mut S, times: u32, piece: &str) -> bool {
    for _ in 0..times {
        if sink.put(piece.as_bytes()).is_err() {
            return false;
        }
    }
    sink.finish().is_ok()
}

fn tell_sizes(passes: bool, sizes: &[usize], text: &mut String) -> Option<()> {
    let (_, full) = sizes.split_last()?;
    let are_large = full.iter().all(|size| *size >= 65_536);
    let large = if are_large { "" } else { ", too short" };
    let mut sum = 0_usize;
    for size in sizes {
        sum = sum.saturating_add(*size);
    }
    write!(
        text,
        "{}: {} writes of {sum} bytes{large}",
        how(passes),
        sizes.len()
    )
    .ok()
}

/// Adds whether each call of the error output passes, and how many bytes each of its writes has. A row asks for a call
/// a line.
pub fn tell_errors(alloc: Global, calls: &str, text: &mut String) -> Option<()> {
    let mut noted = Noted::new(alloc, WORKS);
    {
        let mut err = ErrSink::new(&mut noted);
        tell_calls(alloc, &mut err, calls, text)?;
    }
    for (place, size) in noted.sizes.iter().enumerate() {
        let gap = if place == 0 { ": " } else { " " };
        write!(text, "{gap}{size}").ok()?;
    }
    Some(())
}
