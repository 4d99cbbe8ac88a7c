//! What a state machine keeps from tick to tick, its FIFOs apart (RP2040 Datasheet, sections 3.2.1 and 3.2.4).

/// The registers of a state machine.
#[derive(Clone, Copy)]
pub struct Registers {
    /// The address of the current instruction, 0 to 31. While a word is pending it is that of the instruction after it,
    /// unless that word writes PC.
    pub pc: u8,
    /// The scratch register X.
    pub x: u32,
    /// The scratch register Y.
    pub y: u32,
    /// The input shift register.
    pub isr: u32,
    /// The output shift register.
    pub osr: u32,
    /// How many bits were shifted into the ISR: 0 to 32.
    pub in_count: u8,
    /// How many bits were shifted out of the OSR: 0 to 32.
    pub out_count: u8,
    /// How many ticks of delay are left: 0 to 31.
    pub delay: u8,
    /// The word of an OUT EXEC or MOV EXEC, or that of the setup at the start, which is the next instruction.
    pub pending: Option<u16>,
    /// Whether the current instruction has begun: it stalled in each tick before.
    pub begun: bool,
}
