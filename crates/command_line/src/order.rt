//! What words ask for, and why they are refused.

/// The most clocks of a run.
pub const MOST_CLOCKS: u64 = 1_000_000_000_000;

/// The most of a seed: any number of 64 bits is one.
pub const MOST_SEED: u64 = u64::MAX;

/// The most side-set bits: the side-set values of a program's words take at most five pins.
pub const MOST_SIDE_BITS: u64 = 5;

/// The last pin.
pub const LAST_PIN: u64 = 31;

/// The fewest clocks of a bit of a serial line.
pub const LEAST_BIT: u64 = 2;

/// The most clocks of a bit of a serial line.
pub const MOST_BIT: u64 = 65_535;

/// The least divider of the transmitter.
pub const LEAST_DIVIDER: u64 = 1;

/// The most of its divider: a bit takes eight times as many clocks, and at most `MOST_BIT`.
pub const MOST_DIVIDER: u64 = 8_191;

/// The names of the files that a run reads.
#[derive(Clone, Copy, PartialEq)]
pub struct RunFiles<'a> {
    pub source: &'a str,
    pub config: Option<&'a str>,
    pub stimulus: Option<&'a str>,
}

/// The names of the files that a run of two blocks reads.
#[derive(Clone, Copy, PartialEq)]
pub struct PairFiles<'a> {
    pub source: &'a str,
    pub config: &'a str,
    pub second: &'a str,
    pub stimulus: Option<&'a str>,
}

/// A line of one pin, 0 to 31, and the clocks of a bit on it, 2 to 65,535.
#[derive(Clone, Copy, PartialEq)]
pub struct SerialLine {
    pub pin: u8,
    pub bit: u16,
}

/// What the words of a call ask for.
#[derive(Clone, Copy)]
pub enum Order<'a> {
    /// The listing of the programs in a source.
    Asm {
        file: &'a str,
    },
    /// The trace of so many clocks (0 to 10^12) of the programs in a source, under a configuration and a stimulus where
    /// they are named.
    Run {
        files: RunFiles<'a>,
        clocks: u64,
    },
    /// The verdict on each span of a configuration over the programs in a source; without a configuration there are none.
    Check {
        source: &'a str,
        config: Option<&'a str>,
    },
    /// The table of the span of this name, in a configuration over the programs in a source.
    Table {
        source: &'a str,
        config: Option<&'a str>,
        span: &'a str,
    },
    /// Whether the table in a file proves the span of this name, in a configuration over the programs in a source.
    Recheck {
        source: &'a str,
        config: Option<&'a str>,
        span: &'a str,
        table: &'a str,
    },
    /// What each machine shares with each other machine, in a configuration over the programs in a source.
    Shares {
        source: &'a str,
        config: Option<&'a str>,
    },
    /// The summary of so many clocks (0 to 10^12) of the load that a seed (0 to 2^64 - 1) draws.
    Gen {
        seed: u64,
        clocks: u64,
    },
    /// The text of each word of a file, under a rule of so many side-set bits (0 to 5, with `opt` 0 to 4): with `opt`
    /// one bit more says whether a word has a side-set value.
    Dis {
        file: &'a str,
        side: u8,
        opt: bool,
    },
    /// How many clocks each span of a configuration takes in so many clocks (0 to 10^12) of the programs in a source, beside
    /// a stimulus where one is named.
    Measure {
        files: RunFiles<'a>,
        clocks: u64,
    },
    /// The bytes that a pin sends on a line, in so many clocks (0 to 10^12) of the programs in a source, under a configuration
    /// and beside a stimulus where they are named.
    Receive {
        files: RunFiles<'a>,
        clocks: u64,
        line: SerialLine,
    },
    /// What the UART transmitter sends of a file's bytes in so many clocks (0 to 10^12), with a tick every so many clocks
    /// (1 to 8,191).
    Uart {
        send: &'a str,
        divider: u16,
        clocks: u64,
    },
    /// The trace of so many clocks (0 to 10^12) of two blocks on the same pins, each of the programs in a source under its
    /// own configuration, beside a stimulus where one is named.
    Pair {
        files: PairFiles<'a>,
        clocks: u64,
    },
    /// The trace of what is inside the block in so many clocks (0 to 10^12) of the programs in a source, under a configuration
    /// and beside a stimulus where they are named.
    Inspect {
        files: RunFiles<'a>,
        clocks: u64,
    },
}

/// Why words give no order.
#[derive(Clone, Copy, PartialEq)]
pub enum WordsFault {
    /// The words ask for nothing that there is, or for help, or for `--opt` beside `--side 5`.
    Usage,
    /// There was no memory to read them.
    Memory,
}
