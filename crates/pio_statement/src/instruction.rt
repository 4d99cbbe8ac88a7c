//! An instruction as it is written: no range is looked at, and no expression has a value yet.

use pio_encode::{
    Condition, InSource, MovDestination, MovOperation, MovSource, OutDestination, SetDestination,
    WaitSource,
};
use pio_expr::Expr;

/// What an IRQ does.
#[derive(Clone, Copy, Debug)]
pub enum IrqMode {
    /// `set`, `nowait` or no word: raises the flag.
    Raise,
    /// `wait`: raises the flag, and stalls until it is lowered.
    RaiseAndWait,
    /// `clear`: lowers the flag.
    Lower,
}

/// An instruction without its side-set and its delay (Pico SDK manual, section 3.3.6).
#[derive(Drop)]
pub enum Form {
    /// `nop`, which is `mov y, y`.
    Nop,
    Jmp {
        condition: Condition,
        target: Expr,
    },
    Wait {
        polarity: Expr,
        source: WaitSource,
        index: Expr,
        /// `rel`, which only `irq` takes.
        relative: bool,
    },
    In {
        source: InSource,
        count: Expr,
    },
    Out {
        destination: OutDestination,
        count: Expr,
    },
    Push {
        if_full: bool,
        block: bool,
    },
    Pull {
        if_empty: bool,
        block: bool,
    },
    Mov {
        destination: MovDestination,
        operation: MovOperation,
        source: MovSource,
    },
    Irq {
        mode: IrqMode,
        index: Expr,
        relative: bool,
    },
    Set {
        destination: SetDestination,
        value: Expr,
    },
}

/// The side-set and the delay of an instruction, in the order of the text.
#[derive(Drop)]
pub enum Suffix {
    None,
    /// `side E`
    Side(Expr),
    /// `[E]`
    Delay(Expr),
    /// `side E [E]`
    SideDelay { side: Expr, delay: Expr },
    /// `[E] side E`
    DelaySide { delay: Expr, side: Expr },
}

/// An instruction.
#[derive(Drop)]
pub struct Instruction {
    pub form: Form,
    pub suffix: Suffix,
}
