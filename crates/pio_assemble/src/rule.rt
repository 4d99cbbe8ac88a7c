//! The rule of a `.side_set`.
ghost use Rattle.std.specs.Prelude.{◌≡◌, ◌≤◌, ◌+◌, if◌then◌else◌};
ghost use Rattle.setup_keys.specs.Rule as keys;
ghost use Rattle.pio_assemble.specs.Rules as spec;

use pio_encode::SideRule;

/// How many side-set bits there may be: `opt` takes one of five.
pub fn most_bits(opt: bool) -> u8
    ensures value { result ≡ keys.most_bits opt }
    ensures fits { result + (if opt then 1 else 0) ≤ 5 }
{
    if opt { 4 } else { 5 }
}

/// So many bits, which are brought into range.
pub fn rule(bits: u8, opt: bool, pindirs: bool) -> SideRule
    ensures { result ≡ spec.rule_of bits opt pindirs }
{
    SideRule {
        bits: bits.min(most_bits(opt)),
        opt,
        pindirs,
    }
}

/// A program without `.side_set`.
pub fn no_side_set() -> SideRule
    ensures { result ≡ spec.no_side_set }
{
    SideRule {
        bits: 0,
        opt: false,
        pindirs: false,
    }
}
