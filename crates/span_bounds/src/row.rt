//! A row of a table.
use span_step::{Ages, Context};

/// A context that a run may come to, with the ages that it may have there.
#[derive(Clone, Copy)]
pub struct Row {
    pub context: Context,
    pub ages: Ages,
}
