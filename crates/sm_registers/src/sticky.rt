//! A machine's sticky FIFO flags, each as its bit (RP2040 Datasheet, section 3.7, FDEBUG).

/// TXOVER: the system wrote to a full TX.
pub const TX_OVER: u8 = 1;

/// RXUNDER: the system read an empty RX.
pub const RX_UNDER: u8 = 2;

/// TXSTALL: a blocking PULL, or an OUT with autopull, stalled on an empty TX.
pub const TX_STALL: u8 = 4;

/// RXSTALL: a blocking PUSH, or an IN with autopush, stalled on a full RX, or a non-blocking PUSH lost its word.
pub const RX_STALL: u8 = 8;
