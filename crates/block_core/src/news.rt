//! What the caller of a clock has to know of it.

/// What a clock may have changed of what is asked or seen of its block.
#[derive(Clone, Copy)]
pub struct News {
    /// Whether a machine or the system did anything at a FIFO; else the machines ask for what they asked before.
    pub fifos: bool,
    /// Whether what is shown may be new; else it is what the clock before showed.
    pub shown: bool,
}
