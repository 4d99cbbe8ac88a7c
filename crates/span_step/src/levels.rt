//! What instructions write to the span's two pins.
ghost use Rattle.std.specs.Prelude.{◌≡◌, ◌<◌};
ghost use Rattle.span_step.specs.Outcomes as outcomes;
ghost use Rattle.span_step.specs.Steps as steps;

use pin_matrix::{MachineSetup, Mapping, PinSignal, Span, is_signal, side_signal, writes_of};

/// What is written to the watched signals of the from-pin and the to-pin: high, low or nothing.
#[derive(Clone, Copy)]
pub(crate) struct Write {
    pub(crate) from: Option<bool>,
    pub(crate) to: Option<bool>,
}

/// The level that a write gives a pin (0 to 31), if it holds the pin.
fn level_at(pin: u8, write: (u32, u32)) -> Option<bool>
    requires { pin < 32 }
    ensures { result ≡ outcomes.level_at pin write }
{
    let (pins, bits) = write;
    if (pins >> pin) % 2 == 1 {
        Some((bits >> pin) % 2 == 1)
    } else {
        None
    }
}

/// What a write of one signal does to the watched signal of a pin (0 to 31).
fn signal_at(
    written: PinSignal,
    watched: Option<PinSignal>,
    pin: u8,
    write: (u32, u32),
) -> Option<bool>
    requires { pin < 32 }
    ensures { result ≡ outcomes.signal_at written watched pin write }
{
    if is_signal(written, watched) {
        level_at(pin, write)
    } else {
        None
    }
}

/// What a value that goes to a mapping, as levels or as directions, writes to the span's pins.
pub(crate) fn written_to(signal: PinSignal, mapping: &Mapping, value: u8, span: &Span) -> Write
    ensures { result ≡ outcomes.written_to signal mapping.now value span.now }
{
    let write = writes_of(mapping, u32::from(value));
    Write {
        from: signal_at(signal, span.from_signal, span.from_pin, write),
        to: signal_at(signal, span.to_signal, span.to_pin, write),
    }
}

/// What side-set writes: levels, unless the machine's rule sends it to directions.
pub(crate) fn side_of(machine: &MachineSetup, span: &Span, side: Option<u8>) -> Write
    ensures { result ≡ steps.side_of machine.now span.now side }
{
    match side {
        Some(value) => written_to(side_signal(machine), &machine.side, value, span),
        None => Write {
            from: None,
            to: None,
        },
    }
}
