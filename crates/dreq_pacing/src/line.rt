//! A line of a stimulus: what the system does in a clock (choice of this profile).
ghost use Rattle.std.specs.Prelude.{◌≡◌};

use std::marker::Model;

/// The words of a feed, which contracts see as their list.
#[derive(Drop)]
pub struct Words {
    items: Vec<u32>,
}

impl Model for Words {
    ghost use Rattle.std.specs.Prelude.{ℕ, List};

    ghost Value = { List ℕ };

    ghost view = { λ w. w.items.items };
}

impl Words {
    /// These words.
    pub fn new(items: Vec<u32>) -> Words
        ensures { result ≡ items.items }
    {
        Words { items }
    }

    /// The words in their order.
    pub fn as_slice(&self) -> &[u32]
        ensures { result.now ≡ self.now }
    {
        self.items.as_slice()
    }
}

/// What the system does. A machine is 0 to 3; while the lines of two blocks are read, 4 to 7 are those of the second.
#[derive(Drop)]
pub enum LineAct {
    /// The outside drives this level on a pin, 0 to 31, from this clock on.
    Pin {
        pin: u8,
        level: bool,
    },
    /// It writes a word to the machine's TX FIFO.
    Tx {
        machine: u8,
        word: u32,
    },
    /// It reads a word from the machine's RX FIFO.
    Rx {
        machine: u8,
    },
    /// From this clock on a paced transfer writes the words, at least one, to the machine's TX FIFO. After each that
    /// it moves it waits for `every` clocks, 1 to 1,000,000.
    Feed {
        machine: u8,
        every: u32,
        words: Words,
    },
    /// From this clock on a paced transfer reads the machine's RX FIFO, without end. After each word that it moves it
    /// waits for `every` clocks, 1 to 1,000,000.
    Drain {
        machine: u8,
        every: u32,
    },
    /// It enables the machine.
    Enable {
        machine: u8,
    },
    /// It disables the machine.
    Disable {
        machine: u8,
    },
    /// It restarts the machine's clock divider.
    Restart {
        machine: u8,
    },
}

/// A line: what the system does in a clock, 0 to 10^12.
#[derive(Drop)]
pub struct Line {
    pub clock: u64,
    pub act: LineAct,
}
