//! What can be seen of a machine from outside.

/// The values that a trace shows of a machine, and the requests of its FIFOs.
#[derive(Clone, Copy)]
pub struct Shown {
    /// How many words are in TX: 0 to 8.
    pub tx: u8,
    /// How many words are in RX: 0 to 8.
    pub rx: u8,
    /// Whether TX has no room left, as one that is disabled has not.
    pub tx_full: bool,
    /// Whether RX has no word.
    pub rx_empty: bool,
    /// The last word that the system read; 0 before the first.
    pub got: u32,
    /// The sticky FIFO flags.
    pub sticky: u8,
}
