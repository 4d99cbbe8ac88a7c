//! The words of a row's program, and the lines of a row that is a block.
use crate::keys::Keys;
use crate::setups::machine_of;
use pin_matrix::{Setup, Spans};
use pio_encode::{SideRule, spell};
use std::alloc::Global;

/// The words of a memory, those of a program from address 0 on.
#[derive(Clone, Copy)]
pub struct Program {
    memory: [u16; 32],
    count: usize,
}

impl Program {
    /// A program without words.
    pub fn new() -> Program {
        Program {
            memory: [0; 32],
            count: 0,
        }
    }

    /// Adds the word of these hexadecimal digits; none where it isn't a word, or 32 are there.
    pub fn add(&mut self, digits: &str) -> Option<u16> {
        let word = u16::from_str_radix(digits, 16).ok()?;
        *self.memory.get_mut(self.count)? = word;
        self.count = self.count.saturating_add(1);
        Some(word)
    }

    /// The memory with its words from address 0 on.
    pub fn memory(&self) -> [u16; 32] {
        self.memory
    }

    /// The address of the last word.
    fn last(&self) -> u8 {
        u8::try_from(self.count.saturating_sub(1)).unwrap_or(31)
    }
}

/// A line of a row.
#[derive(Clone, Copy)]
pub enum Part<'a> {
    /// A word of the program, and its text.
    Word { digits: &'a str, text: &'a str },
    /// The keys of another machine.
    Machine { id: u8, keys: &'a str },
    /// A line of a table.
    Table(&'a str),
    /// What is seen.
    Told(&'a str),
    /// Keys of machine 0 and of the span.
    Keys(&'a str),
}

/// What a line says.
pub fn part_of(line: &str) -> Option<Part<'_>> {
    if let Some(row) = line.strip_prefix("t ") {
        return Some(Part::Table(row));
    }
    if let Some(told) = line.strip_prefix("= ") {
        return Some(Part::Told(told));
    }
    if let Some(rest) = line.strip_prefix("machine ") {
        let (id, keys) = rest.split_once(": ")?;
        let id = id.parse().ok()?;
        return Some(Part::Machine { id, keys });
    }
    match line.split_once("  ") {
        Some((digits, text)) => Some(Part::Word { digits, text }),
        None => Some(Part::Keys(line)),
    }
}

/// The keys of a row's lines.
pub fn keys_of(lines: &str) -> Option<Keys<'_>> {
    let mut keys = Keys::new();
    for line in lines.lines() {
        if let Part::Keys(list) = part_of(line)? {
            keys.take(list)?;
        }
    }
    Some(keys)
}

/// The program of a row's lines; none where a word has another text under the rule.
fn program_of(lines: &str, rule: &SideRule) -> Option<Program> {
    let mut program = Program::new();
    for line in lines.lines() {
        if let Part::Word { digits, text } = part_of(line)? {
            let word = program.add(digits)?;
            if spell(word, rule).as_str() != text {
                return None;
            }
        }
    }
    Some(program)
}

/// The setup of a row's lines: machine 0, wrapped after the program's last word, and the others.
pub fn setup_of(alloc: Global, lines: &str, keys: &Keys) -> Option<Setup> {
    let program = program_of(lines, &keys.side_rule)?;
    let mut setup = Setup::of(program.memory(), Spans::empty(alloc));
    for line in lines.lines() {
        if let Part::Machine { id, keys } = part_of(line)? {
            let mut others = Keys::new();
            others.take(keys)?;
            setup.place(machine_of(id, &others)?);
        }
    }
    let mut own = *keys;
    own.wrap_top = program.last();
    setup.place(machine_of(0, &own)?);
    Some(setup)
}

/// What the one line of the answer says.
pub fn told_of(lines: &str) -> Option<&str> {
    let mut found = None;
    for line in lines.lines() {
        if let Part::Told(told) = part_of(line)? {
            if found.is_some() {
                return None;
            }
            found = Some(told);
        }
    }
    found
}

/// The text of the table of a row's lines.
pub fn table_of(alloc: Global, lines: &str) -> Option<String> {
    let mut table = String::new(alloc);
    for line in lines.lines() {
        if let Part::Table(row) = part_of(line)? {
            write!(table, "{row}\n").ok()?;
        }
    }
    Some(table)
}
