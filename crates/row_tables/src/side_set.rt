//! The rule of side-set that a row has.
use pio_encode::SideRule;

/// A rule of side-set as pioasm spells it: `1 opt pindirs`.
pub fn side_rule_of(value: &str) -> Option<SideRule> {
    let mut words = value.split(' ');
    let bits: u8 = words.next()?.parse().ok()?;
    let mut opt = false;
    let mut pindirs = false;
    for word in words {
        match word {
            "opt" => opt = true,
            "pindirs" => pindirs = true,
            _ => return None,
        }
    }
    if bits > 5 || opt && bits > 4 {
        return None;
    }
    Some(SideRule { bits, opt, pindirs })
}
