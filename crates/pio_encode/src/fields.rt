//! The fields of a word: bits as a number, and the operand with a number (RP2040 Datasheet, section 3.4).
ghost use Rattle.std.specs.Prelude.{◌≡◌, ◌==◌, ◌<◌, ◌≤◌, ◌^◌};
ghost use Rattle.pio_encode.specs.Word as spec;

use crate::act::{Condition, MovDestination, MovOperation, MovSource, OutDestination};

/// `number` bits of a word from bit `low` on.
pub(crate) fn bits(word: u16, low: u16, number: u16) -> u8
    requires place { low < 16 }
    requires size { number ≤ 5 }
    ensures value { result ≡ spec.bits word low number }
    ensures range { result < 2 ^ number }
{
    ((word >> low) % (1 << number)) as u8
}

/// A bit of a word.
pub(crate) fn bit(word: u16, place: u16) -> bool
    requires { place < 16 }
    ensures { result ≡ (spec.bits word place 1 == 1) }
{
    bits(word, place, 1) == 1
}

/// The condition with this number.
pub(crate) fn condition_at(number: u8) -> Condition
    ensures { result ≡ spec.condition_at number }
{
    match number {
        0 => Condition::Always,
        1 => Condition::XZero,
        2 => Condition::XDecrement,
        3 => Condition::YZero,
        4 => Condition::YDecrement,
        5 => Condition::XNotY,
        6 => Condition::Pin,
        _ => Condition::OsrNotEmpty,
    }
}

/// The destination of an OUT with this number.
pub(crate) fn out_destination_at(number: u8) -> OutDestination
    ensures { result ≡ spec.out_destination_at number }
{
    match number {
        0 => OutDestination::Pins,
        1 => OutDestination::X,
        2 => OutDestination::Y,
        3 => OutDestination::Null,
        4 => OutDestination::Pindirs,
        5 => OutDestination::Pc,
        6 => OutDestination::Isr,
        _ => OutDestination::Exec,
    }
}

/// A count's field: 0 is 32.
pub(crate) fn count_at(field: u8) -> u8
    requires { field < 32 }
    ensures value { result ≡ spec.count_at field }
    ensures range { (1 ≤ result) × (result ≤ 32) }
{
    if field == 0 { 32 } else { field }
}

/// The destination of a MOV with this number; 3 is reserved.
pub(crate) fn mov_destination_at(number: u8) -> Option<MovDestination>
    ensures { result ≡ spec.mov_destination_at number }
{
    match number {
        0 => Some(MovDestination::Pins),
        1 => Some(MovDestination::X),
        2 => Some(MovDestination::Y),
        4 => Some(MovDestination::Exec),
        5 => Some(MovDestination::Pc),
        6 => Some(MovDestination::Isr),
        7 => Some(MovDestination::Osr),
        _ => None,
    }
}

/// The operation of a MOV with this number; 3 is reserved.
pub(crate) fn mov_operation_at(number: u8) -> Option<MovOperation>
    ensures { result ≡ spec.mov_operation_at number }
{
    match number {
        0 => Some(MovOperation::Plain),
        1 => Some(MovOperation::Invert),
        2 => Some(MovOperation::Reverse),
        _ => None,
    }
}

/// The source of a MOV with this number; 4 is reserved.
pub(crate) fn mov_source_at(number: u8) -> Option<MovSource>
    ensures { result ≡ spec.mov_source_at number }
{
    match number {
        0 => Some(MovSource::Pins),
        1 => Some(MovSource::X),
        2 => Some(MovSource::Y),
        3 => Some(MovSource::Null),
        5 => Some(MovSource::Status),
        6 => Some(MovSource::Isr),
        7 => Some(MovSource::Osr),
        _ => None,
    }
}
