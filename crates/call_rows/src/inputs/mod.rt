//! Rows of lines, stimuli, the system's ports, drawn loads and words of a call.
mod first_lines;
mod loads;
mod ports;
mod stimuli;
mod summaries;
mod words;

use first_lines::tell_first_line;
use loads::tell_load;
use ports::{tell_acts, tell_next_clock};
use std::alloc::Global;
use stimuli::{tell_lines, tell_pair_lines};
use summaries::tell_edges;
use words::{tell_advice, tell_words};

/// What is asked of a row.
#[derive(Clone, Copy)]
pub enum InputKind {
    /// Where the first line of a text ends.
    FirstLine,
    /// What the words of a call ask for, or `usage`.
    Words,
    /// Whether what is said of words has a text.
    Advice,
    /// How many lines a stimulus has, or its first faulty line with the fault.
    Lines,
    /// The same of a stimulus of two blocks, for each of them.
    PairLines,
    /// What the ports do in clocks 0 to 11 of a stimulus.
    Acts,
    /// The next clock in which something happens at the ports.
    NextClock,
    /// What the load of a seed shows.
    Load,
    /// How many edges pin 0 has in so many clocks of the load of a seed.
    Edges,
}

/// The kinds with their names.
pub static INPUT_KINDS: [(&str, InputKind); 9] = [
    ("first lines", InputKind::FirstLine),
    ("words", InputKind::Words),
    ("advice", InputKind::Advice),
    ("stimuli", InputKind::Lines),
    ("stimuli of pairs", InputKind::PairLines),
    ("acts of ports", InputKind::Acts),
    ("next clocks of ports", InputKind::NextClock),
    ("loads", InputKind::Load),
    ("edges of loads", InputKind::Edges),
];

/// Adds what a row gives; none where memory runs out, or the row is none of its table's kind.
pub fn tell_input(alloc: Global, kind: InputKind, asked: &str, text: &mut String) -> Option<()> {
    match kind {
        InputKind::FirstLine => tell_first_line(asked, text),
        InputKind::Words => tell_words(alloc, asked, text),
        InputKind::Advice => tell_advice(alloc, asked, text),
        InputKind::Lines => tell_lines(alloc, asked, text),
        InputKind::PairLines => tell_pair_lines(alloc, asked, text),
        InputKind::Acts => tell_acts(alloc, asked, text),
        InputKind::NextClock => tell_next_clock(alloc, asked, text),
        InputKind::Load => tell_load(alloc, asked, text),
        InputKind::Edges => tell_edges(alloc, asked, text),
    }
}
