//! Which machines may write a span's pins.
ghost use Rattle.std.specs.Prelude.{◌≡◌, ◌<◌, MatchOption};
ghost use Rattle.span_verdict.specs.Sharing as spec;
ghost use Rattle.span_verdict.specs.Sharing.{NoneShares, IsFirstSharer, IsUnshared, IsLeastSharer};

use pin_matrix::{MachineSetup, Mapping, PinSignal, Setup, Span, is_signal, side_signal};

/// The least machine (0 to 3), other than the span's own, whose OUT, SET or side-set mapping holds the span's from-pin or
/// to-pin. Side-set is asked of a level unless it goes to directions, and of a direction only where it does. An event without a pin
/// asks nothing. `None` exactly where there is no such machine. Mappings are asked, and not what the machine's program writes (choice
/// of this profile).
pub fn shared_by(setup: &Setup, span: &Span) -> Option<u8>
    ensures { MatchOption result (IsUnshared setup.now span.now) (λ machine. IsLeastSharer setup.now span.now machine) }
{
    first_sharer(&setup.machines, span)
}

/// The least of these machines that shares a pin of the span.
fn first_sharer(machines: &[Option<MachineSetup>; 4], span: &Span) -> Option<u8>
    ensures { MatchOption result (NoneShares machines.now span.now) (λ machine. IsFirstSharer machines.now span.now machine) }
{
    (0..4).find(|machine| shares(machines, span, *machine))
}

/// Whether a machine (0 to 3) is configured, isn't the span's own, and may write a pin of the span.
#[tactic(auto, unfolding(crate::specs::Sharing::shares))]
fn shares(machines: &[Option<MachineSetup>; 4], span: &Span, machine: u8) -> bool
    requires { machine < 4 }
    ensures { result ≡ spec.shares machines.now span.now machine }
{
    match &machines[usize::from(machine)] {
        Some(other) => machine != span.machine && writes_span(other, span),
        None => false,
    }
}

/// Whether a mapping of the machine writes what the span watches of a pin.
fn writes_span(machine: &MachineSetup, span: &Span) -> bool
    ensures { result ≡ spec.writes_span machine.now span.now }
{
    writes_pin(machine, span.from_signal, span.from_pin)
        || writes_pin(machine, span.to_signal, span.to_pin)
}

/// Whether a mapping of the machine writes the watched signal of a pin (0 to 31).
fn writes_pin(machine: &MachineSetup, watched: Option<PinSignal>, pin: u8) -> bool
    requires { pin < 32 }
    ensures { result ≡ spec.writes_pin machine.now watched pin }
{
    match watched {
        Some(signal) => {
            holds(&machine.out, pin)
                || holds(&machine.set, pin)
                || (is_signal(side_signal(machine), Some(signal)) && holds(&machine.side, pin))
        }
        None => false,
    }
}

/// Whether a mapping holds a pin (0 to 31).
fn holds(mapping: &Mapping, pin: u8) -> bool
    requires { pin < 32 }
    ensures { result ≡ spec.holds mapping.now pin }
{
    (pin + 32 - mapping.base) % 32 < mapping.count
}
