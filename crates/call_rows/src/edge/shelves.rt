//! The shelf in memory, and the shelf over files. The lines of a row of the shelf in memory:
//!
//! | A line | says |
//! |---|---|
//! | `hold a.pio "nop"` | the shelf holds these bytes under this name |
//! | `fails 4` | the fourth fetch fails |
//! | `fetch 10 a.pio "nop"` | a fetch of up to ten bytes, and what it gives |
//! | `fetch 10 a.pio fails` | a fetch that fails |
//! | `faults 2` | how many fetches have failed |
use pio_edge::{Fetch, FileShelf, MemShelf, Shelf};
use std::alloc::Global;
use std::fs;
use std::rt::Files;

/// Adds what a row says of its fetches, and what they give.
pub fn tell_shelf(
    alloc: Global,
    lines: &str,
    expected: &mut String,
    seen: &mut String,
) -> Option<()> {
    let mut shelf = shelf_of(alloc, lines)?;
    for line in lines.lines() {
        if let Some(fetch) = line.strip_prefix("fetch ") {
            write!(expected, "{fetch}\n").ok()?;
            let (cap, rest) = fetch.split_once(' ')?;
            let (name, _) = rest.split_once(' ')?;
            write!(seen, "{cap} {name} ").ok()?;
            tell_fetch(alloc, &mut shelf, name, cap.parse().ok()?, seen)?;
            seen.push('\n').ok()?;
        } else if let Some(count) = line.strip_prefix("faults ") {
            write!(expected, "faults {count}\n").ok()?;
            write!(seen, "faults {}\n", shelf.faults()).ok()?;
        }
    }
    Some(())
}

/// The shelf that a row's lines make.
fn shelf_of(alloc: Global, lines: &str) -> Option<MemShelf> {
    let mut fails = Vec::new(alloc);
    for line in lines.lines() {
        if let Some(number) = line.strip_prefix("fails ") {
            fails.push(number.parse().ok()?).ok()?;
        }
    }
    let mut shelf = MemShelf::new(alloc, &fails).ok()?;
    for line in lines.lines() {
        if let Some(held) = line.strip_prefix("hold ") {
            let (name, quoted) = held.split_once(' ')?;
            let bytes = quoted.strip_prefix('"')?.strip_suffix('"')?;
            shelf.hold(name, bytes.as_bytes()).ok()?;
        }
    }
    Some(shelf)
}

/// Adds the bytes that a fetch gives, between quotes, or that it fails.
fn tell_fetch<S: Shelf>(
    alloc: Global,
    shelf: &mut S,
    name: &str,
    cap: usize,
    text: &mut String,
) -> Option<()> {
    match shelf.fetch(alloc, name, cap) {
        Ok(bytes) => write!(text, "\"{}\"", str::from_utf8(&bytes).ok()?).ok(),
        Err(Fetch::Failed) => text.push_str("fails").ok(),
        Err(Fetch::Memory) => None,
    }
}

/// The file that a row writes.
const FILE: &str = "written_by_a_row";

/// Adds what a fetch of a file gives that is written for it, and how many faults there were. A row asks for the cap on
/// a line, and then for the file's bytes.
pub fn tell_file<R: Files>(rt: &R, alloc: Global, asked: &str, text: &mut String) -> Option<()> {
    let (cap, bytes) = asked.split_once('\n')?;
    let cap = cap.strip_prefix("cap ")?.parse().ok()?;
    fs::write(rt, FILE, bytes).ok()?;
    let mut shelf = FileShelf::new(alloc, rt);
    tell_fetch(alloc, &mut shelf, FILE, cap, text)?;
    fs::remove_file(rt, FILE).ok()?;
    write!(text, ", faults {}", shelf.faults()).ok()
}

/// Adds for each file what a fetch of up to four bytes gives, and how many faults there were by then. A row asks for a
/// name a line.
pub fn tell_unread<R: Files>(rt: &R, alloc: Global, asked: &str, text: &mut String) -> Option<()> {
    let mut shelf = FileShelf::new(alloc, rt);
    for (place, name) in asked.split('\n').enumerate() {
        text.push_str(if place == 0 { "" } else { ", " }).ok()?;
        tell_fetch(alloc, &mut shelf, name, 4, text)?;
        write!(text, " {}", shelf.faults()).ok()?;
    }
    Some(())
}
