//! Levels and directions of pins: which of them is watched, and which is written.
ghost use Rattle.std.specs.Prelude.{◌≡◌};
ghost use Rattle.pin_matrix.specs.Spans as spec;

use crate::machine::MachineSetup;
use crate::span::PinSignal;

/// Of all pins, the watched signal, given the levels and the directions. All are low where none is watched.
pub fn signal_bits(watched: Option<PinSignal>, levels: u32, directions: u32) -> u32
    ensures { result ≡ spec.signal_bits watched levels directions }
{
    match watched {
        Some(PinSignal::Level) => levels,
        Some(PinSignal::Direction) => directions,
        None => 0,
    }
}

/// Whether the written signal is the watched one.
pub fn is_signal(written: PinSignal, watched: Option<PinSignal>) -> bool
    ensures { result ≡ spec.is_signal written watched }
{
    match (written, watched) {
        (PinSignal::Level, Some(PinSignal::Level)) => true,
        (PinSignal::Direction, Some(PinSignal::Direction)) => true,
        _ => false,
    }
}

/// Whether side-set writes levels or directions.
pub fn side_signal(machine: &MachineSetup) -> PinSignal
    ensures { result ≡ spec.side_signal machine.now }
{
    if machine.side_rule.pindirs {
        PinSignal::Direction
    } else {
        PinSignal::Level
    }
}
