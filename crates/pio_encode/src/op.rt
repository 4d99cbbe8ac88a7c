//! An instruction with its side-set and its delay.
use crate::Act;

/// One instruction as a word holds it, apart from the rule that shares bits 12 to 8.
#[derive(Clone, Copy)]
pub struct Op {
    /// The side-set value, where there is one.
    pub side: Option<u8>,
    /// The delay in ticks: 0 to 31, fewer where side-set takes bits.
    pub delay: u8,
    /// What it does.
    pub act: Act,
}
