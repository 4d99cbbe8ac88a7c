//! Rows of shelves and sinks, of words, and of traces.
mod insides;
mod lent;
mod pairs;
mod samples;
mod shelves;
mod sinks;
mod traces;
mod words;
mod writers;

use insides::tell_insides;
use pairs::tell_pairs;
use shelves::{tell_file, tell_shelf, tell_unread};
use sinks::{tell_memory_sink, tell_sure_sink};
use std::alloc::Global;
use std::rt::Files;
use traces::{tell_list, tell_trace};
use words::{tell_act, tell_first_wrong, tell_loaded, tell_names, tell_text};
use writers::{tell_blocks, tell_errors, tell_writers};

/// What is asked of a line.
#[derive(Clone, Copy)]
pub enum EdgeLineKind {
    /// Which calls of a sink in memory pass, what it has taken, and its faults.
    MemorySink,
    /// Which calls of the sink that counts pass, and its count.
    SureSink,
    /// Which puts into the sinks over a writer pass, and their faults.
    Writers,
    /// In what blocks an output leaves.
    Blocks,
    /// In what writes the error output leaves.
    Errors,
    /// The text of a word under a rule.
    Text,
    /// Whether a word does nothing, and its text.
    Act,
    /// The first of all words under a rule that is written wrongly.
    FirstWrong,
    /// A word as it is loaded at an address.
    Loaded,
    /// Whether two names are the same, and how the first is shown.
    Names,
}

/// The kinds of lines with their names.
pub static EDGE_LINE_KINDS: [(&str, EdgeLineKind); 10] = [
    ("sinks in memory", EdgeLineKind::MemorySink),
    ("sinks that count", EdgeLineKind::SureSink),
    ("sinks over writers", EdgeLineKind::Writers),
    ("blocks of an output", EdgeLineKind::Blocks),
    ("writes of an error output", EdgeLineKind::Errors),
    ("texts of words", EdgeLineKind::Text),
    ("acts of words", EdgeLineKind::Act),
    ("words under a rule", EdgeLineKind::FirstWrong),
    ("loaded words", EdgeLineKind::Loaded),
    ("names", EdgeLineKind::Names),
];

/// What is asked of files.
#[derive(Clone, Copy)]
pub enum FileKind {
    /// What a fetch gives of a file that is written for it.
    Fetched,
    /// What a fetch of each file gives, and how many have failed by then.
    Unread,
}

/// The kinds of files with their names.
pub static FILE_KINDS: [(&str, FileKind); 2] = [
    ("fetched files", FileKind::Fetched),
    ("unread files", FileKind::Unread),
];

/// What is asked of a block.
#[derive(Clone, Copy)]
pub enum EdgeBlockKind {
    /// What fetches from a shelf in memory give.
    Shelf,
    /// The trace of a block.
    Trace,
    /// The trace of two blocks.
    Pairs,
    /// The trace of what is inside a block.
    Insides,
    /// A list of samples.
    List,
}

/// The kinds of blocks with their names.
pub static EDGE_BLOCK_KINDS: [(&str, EdgeBlockKind); 5] = [
    ("shelves in memory", EdgeBlockKind::Shelf),
    ("traces", EdgeBlockKind::Trace),
    ("traces of pairs", EdgeBlockKind::Pairs),
    ("traces of what is inside", EdgeBlockKind::Insides),
    ("lists of samples", EdgeBlockKind::List),
];

/// Adds what a line gives; none where memory runs out, or the line is none of its table's kind.
pub fn tell_edge_line(
    alloc: Global,
    kind: EdgeLineKind,
    asked: &str,
    text: &mut String,
) -> Option<()> {
    match kind {
        EdgeLineKind::MemorySink => tell_memory_sink(alloc, asked, text),
        EdgeLineKind::SureSink => tell_sure_sink(alloc, asked, text),
        EdgeLineKind::Writers => tell_writers(alloc, asked, text),
        EdgeLineKind::Blocks => tell_blocks(alloc, asked, text),
        EdgeLineKind::Errors => tell_errors(alloc, asked, text),
        EdgeLineKind::Text => tell_text(asked, text),
        EdgeLineKind::Act => tell_act(asked, text),
        EdgeLineKind::FirstWrong => tell_first_wrong(asked, text),
        EdgeLineKind::Loaded => tell_loaded(asked, text),
        EdgeLineKind::Names => tell_names(alloc, asked, text),
    }
}

/// Adds what files give; none where memory runs out, a file can't be written, or the line is none of its table's kind.
pub fn tell_files<R: Files>(
    rt: &R,
    alloc: Global,
    kind: FileKind,
    asked: &str,
    text: &mut String,
) -> Option<()> {
    match kind {
        FileKind::Fetched => tell_file(rt, alloc, asked, text),
        FileKind::Unread => tell_unread(rt, alloc, asked, text),
    }
}

/// Adds what a block says and what is seen; none where memory runs out, or the block is none of its table's kind.
pub fn tell_edge_block(
    alloc: Global,
    kind: EdgeBlockKind,
    lines: &str,
    expected: &mut String,
    seen: &mut String,
) -> Option<()> {
    match kind {
        EdgeBlockKind::Shelf => tell_shelf(alloc, lines, expected, seen),
        EdgeBlockKind::Trace => tell_trace(alloc, lines, expected, seen),
        EdgeBlockKind::Pairs => tell_pairs(alloc, lines, expected, seen),
        EdgeBlockKind::Insides => tell_insides(alloc, lines, expected, seen),
        EdgeBlockKind::List => tell_list(alloc, lines, expected, seen),
    }
}
