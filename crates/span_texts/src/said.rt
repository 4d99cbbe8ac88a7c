//! What the line of a row says.
use span_bounds::Ages;

/// The numbers of a row's line. One that is above every range counts as 16,777,217.
#[derive(Clone, Copy)]
pub(crate) struct Said {
    pub(crate) address: u32,
    /// X, or `None` for any.
    pub(crate) x: Option<u32>,
    /// Y, or `None` for any.
    pub(crate) y: Option<u32>,
    pub(crate) from: u32,
    pub(crate) to: u32,
    pub(crate) ages: Ages,
}
