//! What the run of a load comes to, in numbers.

/// The summary of a load's run.
#[derive(Clone, Copy)]
pub struct Summary {
    /// How many clocks the run has.
    pub clocks: u64,
    /// How often the output level of pin 0 changes in these clocks.
    pub edges_0: u64,
    /// The same of pin 1.
    pub edges_1: u64,
    /// The same of pin 3.
    pub edges_3: u64,
    /// How many words the feed moved into TX of machine 1.
    pub sent: u64,
    /// How many words the drain moved out of RX of machine 2.
    pub got: u64,
}
