//! What a table says of a context.
use span_step::Ages;

/// No row, or a row with its ages.
#[derive(Clone, Copy)]
pub(crate) enum Entry {
    Absent,
    Present(Ages),
}
