//! What was measured of a span.

/// The pairs of a from-edge and the first to-edge after it, and the clocks between the two, which are 0 where there is no pair.
#[derive(Clone, Copy)]
pub struct SeenDistances {
    /// How many pairs there are.
    pub pairs: u64,
    /// The least distance, in clocks.
    pub least: u64,
    /// The greatest distance, in clocks.
    pub most: u64,
    /// The clock in which X and Y are no longer as the span assumes: only the clocks before it count.
    pub assumed: Option<u64>,
}
