//! How an instruction ends in a tick.

/// What becomes of an instruction after a tick of it, and what it writes to pins, PC or the pending word. A write to
/// pins is the pins and their bits.
#[derive(Clone, Copy)]
pub(crate) enum End {
    /// It isn't finished.
    Stalls,
    /// It is finished, and the next one follows.
    GoesOn,
    /// The same, and it writes levels.
    Levels((u32, u32)),
    /// The same, and it writes directions.
    Directions((u32, u32)),
    /// It is finished, and sets PC.
    Jumps(u8),
    /// It is finished, and makes a word the next instruction.
    Executes(u16),
}
