//! The rule of the load's programs.
ghost use Rattle.std.specs.Prelude.{◌≡◌};
ghost use Rattle.drawn_load.specs.NoSide as spec;

use pio_encode::SideRule;

/// No side-set: bits 12 to 8 are all the delay's.
pub fn no_side_set() -> SideRule
    ensures { result ≡ spec.no_side_set }
{
    SideRule {
        bits: 0,
        opt: false,
        pindirs: false,
    }
}
