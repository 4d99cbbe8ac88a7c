//! Where a table starts.
ghost use Rattle.std.specs.Prelude.{◌≡◌, ◌<◌, IsSome, None, Some, slice_index_or, IsTrue};
ghost use Rattle.pin_matrix.specs.Pins as pins;
ghost use Rattle.pin_matrix.specs.Spans as spans;
ghost use Rattle.pin_matrix.specs.Followed.{followed};
ghost use Rattle.span_step.specs.Contexts.{is_placed};
ghost use Rattle.span_step.specs.Narrowing.{followed_to};
ghost use Rattle.span_bounds.specs.Tables as spec;

use pin_matrix::{MachineSetup, PinSignal, Setup, Span, is_high, signal_bits};
use span_step::Context;

/// Where a table starts: the machine's first address, its X and Y where they are followed so far, and of the span's pins
/// the initial levels or directions. The span's machine is configured.
#[tactic(auto, unfolding(crate::specs::Tables::start_context))]
pub fn start_context(setup: &Setup, span: &Span) -> Context
    requires { IsSome (slice_index_or setup.now.machines span.now.machine None) }
    ensures value { result ≡ spec.start_context setup.now span.now }
    ensures placed { IsTrue (is_placed (followed span.now) result.address result.x result.y) }
{
    let follow = span.assume.follow();
    match &setup.machines[usize::from(span.machine)] {
        Some(machine) => Context {
            address: machine.start,
            x: known_of(follow.x, machine.x),
            y: known_of(follow.y, machine.y),
            from: is_high_at_start(setup, span.from_signal, span.from_pin),
            to: is_high_at_start(setup, span.to_signal, span.to_pin),
        },
        None => unreachable!(),
    }
}

/// Whether the watched signal of a pin (0 to 31) is high at first: its level, or its direction.
fn is_high_at_start(setup: &Setup, watched: Option<PinSignal>, pin: u8) -> bool
    requires { pin < 32 }
    ensures { result ≡ pins.is_high (spans.signal_bits watched setup.now.level setup.now.out) pin }
{
    is_high(signal_bits(watched, setup.level, setup.out), pin)
}

/// X or Y, where it is followed so far.
fn known_of(most: u16, value: u32) -> Option<u16>
    ensures { result ≡ followed_to most (Some value) }
{
    if value <= u32::from(most) {
        Some(value as u16)
    } else {
        None
    }
}
