//! All that a machine can feel or change of its block, in numbers.

/// What a machine touches. In a number bit i is for address, pin or flag i.
///
/// What is said of a reached instruction is so of the word too that the machine executes first. A machine of which one
/// of them sets PC, or the next instruction, from data is taken to reach all words, to read all pins, and to see and
/// change all flags.
#[derive(Clone, Copy)]
pub struct Touches {
    /// The addresses of the instruction memory that its program can come to.
    pub reach: u32,
    /// The pins that a reached instruction reads: WAIT, IN, MOV from PINS, `jmp pin`.
    pub reads: u32,
    /// The pins of its side-set, OUT and SET mappings, whatever its program does.
    pub writes: u32,
    /// The flags that a reached instruction waits for: WAIT, and IRQ with Wait and without Clear.
    pub sees: u8,
    /// The flags that a reached instruction raises or lowers: IRQ, and WAIT for a flag to be up.
    pub changes: u8,
}
