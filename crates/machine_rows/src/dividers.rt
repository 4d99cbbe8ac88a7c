//! Rows of a divider of a whole part and a fraction: `ticks 2 128` and `ticks 2 128 6` with a restart, `new 0 1`,
//! `leap 2 128 5` over so many clocks, and `far 1 0` over 2^40.
ghost use Rattle.std.specs.Prelude.{◌≡◌};

use clock_divider::Divider;
use std::alloc::AllocError;

/// Clocks that a body which loops over them doesn't end with.
const FAR: u64 = 1 << 40;

/// Adds the ticks among the first twelve clocks, whether there is such a divider, or what is there after a leap.
pub fn tell_divider(asked: &str, text: &mut String) -> Option<()> {
    let (verb, rest) = asked.split_once(' ')?;
    let (int, rest) = rest.split_once(' ')?;
    let (frac, last) = rest.split_once(' ').unwrap_or((rest, ""));
    let divider = Divider::new(int.parse().ok()?, frac.parse().ok()?);
    match (verb, last) {
        ("new", "") => text
            .push_str(if divider.is_some() { "divides" } else { "none" })
            .ok(),
        ("ticks", "") => tell_ticks(divider?, None, text).ok(),
        ("ticks", clock) => tell_ticks(divider?, Some(clock.parse().ok()?), text).ok(),
        ("leap", clocks) => tell_leap(divider?, clocks.parse().ok()?, text).ok(),
        ("far", "") => tell_far(divider?, text).ok(),
        _ => None,
    }
}

/// Adds the ticks among the first twelve clocks of a divider that may be restarted in one of them.
fn tell_ticks(divider: Divider, restart: Option<u32>, text: &mut String) -> Result<(), AllocError>
    requires { divider.clock ≡ 0 }
{
    let mut divider = divider;
    for clock in 0..12 {
        if restart == Some(clock) {
            divider.restart();
        }
        if divider.ticks_now() {
            let gap = if text.is_empty() { "" } else { " " };
            write!(text, "{gap}{clock}")?;
        }
        divider.step();
    }
    Ok(())
}

/// Adds what is there after so many clocks: whether that is a tick, the clocks to the next tick and to the fourth, and
/// the ticks in the next twelve clocks.
fn tell_leap(divider: Divider, clocks: u32, text: &mut String) -> Result<(), AllocError>
    requires { divider.clock ≡ 0 }
{
    let mut divider = divider;
    divider.leap(u64::from(clocks));
    write!(
        text,
        "{}, next in {}, fourth in {}, {} in twelve",
        tick_text(divider.ticks_now()),
        divider.clocks_to_tick(0),
        divider.clocks_to_tick(3),
        divider.ticks_within(12)
    )
}

fn tick_text(is_tick: bool) -> &'static str {
    if is_tick { "tick" } else { "no tick" }
}

/// Adds the clocks to tick 2^40, the ticks in 2^40 clocks, whether clock 2^40 is one, and whether it is after a
/// restart.
fn tell_far(divider: Divider, text: &mut String) -> Result<(), AllocError>
    requires { divider.clock ≡ 0 }
{
    let mut divider = divider;
    let to_tick = divider.clocks_to_tick(FAR);
    let within = divider.ticks_within(FAR);
    divider.leap(FAR);
    let now = divider.ticks_now();
    divider.restart();
    write!(
        text,
        "far tick in {to_tick}, {within} ticks, {}, restarted {}",
        tick_text(now),
        tick_text(divider.ticks_now())
    )
}
