//! What the checker says of a span.
use span_bounds::{Cause, Context, Table};

/// What the checker says of a span.
#[derive(Drop)]
pub enum Verdict {
    /// No other machine's mapping holds a pin of the span, and some closed table is good. This is the least one. `opens` says
    /// whether a step of one of its rows has a from-edge, and `closes` whether one has a to-edge while a from-edge is open.
    Proved {
        table: Table,
        opens: bool,
        closes: bool,
    },
    /// No other machine's mapping holds a pin of the span, and no closed table is good: the first bad context of the least one
    /// in context order, and in it the first cause. In every closed table it has a row that is bad for this cause.
    Unproved(Context, Cause),
    /// The least other machine (0 to 3) one of whose mappings holds a pin of the span.
    Shared(u8),
}
