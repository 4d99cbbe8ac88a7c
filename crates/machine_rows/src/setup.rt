//! The set-up of a row of several lines: words, machines and pins.
use crate::keys::Keys;
use crate::lines::{is_stimulus, pins, word_line};
use pin_matrix::{Setup, Spans};
use pio_encode::{SideRule, spell};
use std::alloc::Global;

/// What the lines of a row say of a block's set-up.
#[derive(Drop)]
pub struct RowSetup {
    /// The words, from address 0 on.
    pub words: Vec<u16>,
    /// The machines, in the order of their lines.
    pub machines: Vec<Keys>,
    high: u32,
    level: u32,
    out: u32,
    bypass: u32,
}

impl RowSetup {
    /// The set-up that lines say; none where memory runs out, or a line isn't well written.
    pub fn of(alloc: Global, lines: &str) -> Option<RowSetup> {
        let mut setup = RowSetup {
            words: Vec::new(alloc),
            machines: Vec::new(alloc),
            high: 0,
            level: 0,
            out: 0,
            bypass: 0,
        };
        for line in lines.lines() {
            if !is_beside(line) {
                setup.take(line)?;
            }
        }
        Some(setup)
    }

    fn take(&mut self, line: &str) -> Option<()> {
        if let Some((digits, mnemonic)) = word_line(line) {
            let word = word_of(digits, mnemonic, &self.rule())?;
            return self.words.push(word).ok();
        }
        let (head, rest) = line.split_once(' ')?;
        match head {
            "machine" => return self.machines.push(Keys::of(rest)?).ok(),
            "high" => self.high = pins(rest)?,
            "level" => self.level = pins(rest)?,
            "out" => self.out = pins(rest)?,
            "bypass" => self.bypass = pins(rest)?,
            _ => return None,
        }
        Some(())
    }

    /// The side-set rule of the machine that the present line is among the lines of.
    fn rule(&self) -> SideRule {
        match self.machines.last() {
            Some(keys) => keys.rule(),
            None => NO_SIDE,
        }
    }

    /// The memory of the block.
    pub fn memory(&self) -> [u16; 32] {
        let mut memory = [0; 32];
        for (place, word) in memory.iter_mut().zip(self.words.as_slice()) {
            *place = *word;
        }
        memory
    }

    /// The address of the last word.
    pub fn last(&self) -> u8 {
        (self.words.len().wrapping_sub(1) % 32) as u8
    }

    /// The setup of the block.
    pub fn setup(&self, alloc: Global) -> Setup {
        let mut setup = Setup::of(self.memory(), Spans::empty(alloc));
        let last = self.last();
        for keys in &self.machines {
            setup.place(keys.setup(last));
        }
        setup.high = self.high;
        setup.level = self.level;
        setup.out = self.out;
        setup.bypass = self.bypass;
        setup
    }
}

/// No side-set.
pub const NO_SIDE: SideRule = SideRule {
    bits: 0,
    opt: false,
    pindirs: false,
};

/// The word of four hexadecimal digits; none where another mnemonic is its own.
pub fn word_of(digits: &str, mnemonic: &str, rule: &SideRule) -> Option<u16> {
    let word = u16::from_str_radix(digits, 16).ok()?;
    if digits.len() != 4 || spell(word, rule).as_str() != mnemonic {
        return None;
    }
    Some(word)
}

/// Whether a line says nothing of a set-up: what goes on, what is seen, and how a run is made.
fn is_beside(line: &str) -> bool {
    if is_stimulus(line) {
        return true;
    }
    match line.split_once(' ') {
        Some((head, _)) => matches!(
            head,
            "after" | "clocks" | "worked" | "told" | "room" | "own" | "stirs"
        ),
        None => matches!(line, "ends" | "fails"),
    }
}
