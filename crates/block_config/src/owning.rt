//! A block's setup, and the pins that it owns where another block is on the same pins.
use pin_matrix::Setup;

/// What a block starts from, and the pins that it owns next to another block; the other one owns all the rest.
#[derive(Drop)]
pub struct OwningSetup {
    pub setup: Setup,
    /// The pins that it owns: bit i is for pin i.
    pub own: u32,
}
