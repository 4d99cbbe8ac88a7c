//! How long a machine idles.

/// When a machine next has a tick that stirs: one that begins or finishes an instruction, or refills the OSR
/// (choice of this profile).
#[derive(Clone, Copy, PartialEq, Eq)]
pub enum Idle {
    /// After so many ticks that don't: 0 to 31.
    Ticks(u64),
    /// Never, unless something outside the machine changes.
    Never,
}
