//! The nine instructions and their operands; an operand's number is that of its field (RP2040 Datasheet, section 3.4).
ghost use Rattle.std.specs.Prelude.{◌≡◌, ◌<◌};
ghost use Rattle.pio_encode.specs.Word as spec;

/// When a JMP is taken.
#[derive(Clone, Copy, Debug)]
pub enum Condition {
    /// No text: always.
    Always,
    /// `!x`: X is 0.
    XZero,
    /// `x--`: X was not 0; it falls by one in any case.
    XDecrement,
    /// `!y`: Y is 0.
    YZero,
    /// `y--`: Y was not 0; it falls by one in any case.
    YDecrement,
    /// `x!=y`: X and Y differ.
    XNotY,
    /// `pin`: the machine's jump pin is high.
    Pin,
    /// `!osre`: the output count is below the pull threshold.
    OsrNotEmpty,
}

impl Condition {
    /// Bits 7 to 5 of a JMP.
    pub(crate) fn number(self) -> u8
        ensures value { result ≡ spec.condition_number self }
        ensures range { result < 8 }
    {
        self as u8
    }
}

/// What a WAIT looks at.
#[derive(Clone, Copy, Debug)]
pub enum WaitSource {
    /// A pin by its own number.
    Gpio,
    /// A pin counted from the machine's input base.
    Pin,
    /// An IRQ flag.
    Irq,
}

impl WaitSource {
    /// Bits 6 to 5 of a WAIT.
    pub(crate) fn number(self) -> u8
        ensures value { result ≡ spec.wait_source_number self }
        ensures range { result < 4 }
    {
        self as u8
    }
}

/// Where an IN takes its bits from.
#[derive(Clone, Copy, Debug)]
pub enum InSource {
    Pins,
    X,
    Y,
    Null,
    Isr = 6,
    Osr = 7,
}

impl InSource {
    /// Bits 7 to 5 of an IN.
    pub(crate) fn number(self) -> u8
        ensures value { result ≡ spec.in_source_number self }
        ensures range { result < 8 }
    {
        self as u8
    }
}

/// Where an OUT puts its bits.
#[derive(Clone, Copy, Debug)]
pub enum OutDestination {
    Pins,
    X,
    Y,
    Null,
    Pindirs,
    Pc,
    Isr,
    Exec,
}

impl OutDestination {
    /// Bits 7 to 5 of an OUT.
    pub(crate) fn number(self) -> u8
        ensures value { result ≡ spec.out_destination_number self }
        ensures range { result < 8 }
    {
        self as u8
    }
}

/// Where a MOV puts its word.
#[derive(Clone, Copy, Debug)]
pub enum MovDestination {
    Pins,
    X,
    Y,
    Exec = 4,
    Pc = 5,
    Isr = 6,
    Osr = 7,
}

impl MovDestination {
    /// Bits 7 to 5 of a MOV.
    pub(crate) fn number(self) -> u8
        ensures value { result ≡ spec.mov_destination_number self }
        ensures range { result < 8 }
    {
        self as u8
    }
}

/// What a MOV does to the word on its way.
#[derive(Clone, Copy, Debug)]
pub enum MovOperation {
    /// Nothing.
    Plain,
    /// `!`: each bit is inverted.
    Invert,
    /// `::`: the 32 bits are reversed.
    Reverse,
}

impl MovOperation {
    /// Bits 4 to 3 of a MOV.
    pub(crate) fn number(self) -> u8
        ensures value { result ≡ spec.mov_operation_number self }
        ensures range { result < 4 }
    {
        self as u8
    }
}

/// Where a MOV takes its word from.
#[derive(Clone, Copy, Debug)]
pub enum MovSource {
    Pins,
    X,
    Y,
    Null,
    Status = 5,
    Isr = 6,
    Osr = 7,
}

impl MovSource {
    /// Bits 2 to 0 of a MOV.
    pub(crate) fn number(self) -> u8
        ensures value { result ≡ spec.mov_source_number self }
        ensures range { result < 8 }
    {
        self as u8
    }
}

/// What a SET sets.
#[derive(Clone, Copy, Debug)]
pub enum SetDestination {
    Pins,
    X,
    Y,
    Pindirs = 4,
}

impl SetDestination {
    /// Bits 7 to 5 of a SET.
    pub(crate) fn number(self) -> u8
        ensures value { result ≡ spec.set_destination_number self }
        ensures range { result < 8 }
    {
        self as u8
    }
}

/// What an instruction does, apart from its side-set and its delay.
#[derive(Clone, Copy)]
pub enum Act {
    /// Goes to an address (0 to 31) where the condition holds.
    Jmp {
        condition: Condition,
        address: u8,
    },
    /// Stalls until the source has the polarity. The index has five bits; of an IRQ flag bit 4 is `rel`.
    Wait {
        polarity: bool,
        source: WaitSource,
        index: u8,
    },
    /// Shifts bits (1 to 32) into the ISR.
    In {
        source: InSource,
        count: u8,
    },
    /// Shifts bits (1 to 32) out of the OSR.
    Out {
        destination: OutDestination,
        count: u8,
    },
    /// Moves the ISR into the RX FIFO.
    Push {
        if_full: bool,
        block: bool,
    },
    /// Moves a word from the TX FIFO into the OSR.
    Pull {
        if_empty: bool,
        block: bool,
    },
    /// Copies a word.
    Mov {
        destination: MovDestination,
        operation: MovOperation,
        source: MovSource,
    },
    /// Raises or lowers a flag. The index has five bits, of which bit 4 is `rel`.
    Irq {
        clear: bool,
        wait: bool,
        index: u8,
    },
    /// Sets pins, directions, X or Y to a value (0 to 31).
    Set {
        destination: SetDestination,
        value: u8,
    },
    /// A reserved encoding: no operation, with its side-set and delay (choice of this profile).
    Nothing,
}
