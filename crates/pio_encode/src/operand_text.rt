//! How pioasm spells the operands (RP2040 Datasheet, section 3.4).
ghost use Rattle.std.specs.Prelude.{◌≡◌, ◌≤◌, length};
ghost use Rattle.pio_encode.specs.Text as spec;

use crate::act::{
    Condition, InSource, MovDestination, MovOperation, MovSource, OutDestination, SetDestination,
    WaitSource,
};

impl Condition {
    /// Its spelling with a comma; none for `Always`.
    pub(crate) fn text(self) -> &'static str
        ensures value { result.now ≡ spec.condition_text self }
        ensures size { length result.now ≤ 7 }
    {
        match self {
            Condition::Always => "",
            Condition::XZero => "!x, ",
            Condition::XDecrement => "x--, ",
            Condition::YZero => "!y, ",
            Condition::YDecrement => "y--, ",
            Condition::XNotY => "x!=y, ",
            Condition::Pin => "pin, ",
            Condition::OsrNotEmpty => "!osre, ",
        }
    }
}

impl WaitSource {
    /// Its spelling.
    pub(crate) fn text(self) -> &'static str
        ensures value { result.now ≡ spec.wait_source_text self }
        ensures size { length result.now ≤ 4 }
    {
        match self {
            WaitSource::Gpio => "gpio",
            WaitSource::Pin => "pin",
            WaitSource::Irq => "irq",
        }
    }
}

impl InSource {
    /// Its spelling.
    pub(crate) fn text(self) -> &'static str
        ensures value { result.now ≡ spec.in_source_text self }
        ensures size { length result.now ≤ 4 }
    {
        match self {
            InSource::Pins => "pins",
            InSource::X => "x",
            InSource::Y => "y",
            InSource::Null => "null",
            InSource::Isr => "isr",
            InSource::Osr => "osr",
        }
    }
}

impl OutDestination {
    /// Its spelling.
    pub(crate) fn text(self) -> &'static str
        ensures value { result.now ≡ spec.out_destination_text self }
        ensures size { length result.now ≤ 7 }
    {
        match self {
            OutDestination::Pins => "pins",
            OutDestination::X => "x",
            OutDestination::Y => "y",
            OutDestination::Null => "null",
            OutDestination::Pindirs => "pindirs",
            OutDestination::Pc => "pc",
            OutDestination::Isr => "isr",
            OutDestination::Exec => "exec",
        }
    }
}

impl MovDestination {
    /// Its spelling.
    pub(crate) fn text(self) -> &'static str
        ensures value { result.now ≡ spec.mov_destination_text self }
        ensures size { length result.now ≤ 4 }
    {
        match self {
            MovDestination::Pins => "pins",
            MovDestination::X => "x",
            MovDestination::Y => "y",
            MovDestination::Exec => "exec",
            MovDestination::Pc => "pc",
            MovDestination::Isr => "isr",
            MovDestination::Osr => "osr",
        }
    }
}

impl MovOperation {
    /// The sign before the source; none for `Plain`.
    pub(crate) fn text(self) -> &'static str
        ensures value { result.now ≡ spec.mov_operation_text self }
        ensures size { length result.now ≤ 2 }
    {
        match self {
            MovOperation::Plain => "",
            MovOperation::Invert => "!",
            MovOperation::Reverse => "::",
        }
    }
}

impl MovSource {
    /// Its spelling.
    pub(crate) fn text(self) -> &'static str
        ensures value { result.now ≡ spec.mov_source_text self }
        ensures size { length result.now ≤ 6 }
    {
        match self {
            MovSource::Pins => "pins",
            MovSource::X => "x",
            MovSource::Y => "y",
            MovSource::Null => "null",
            MovSource::Status => "status",
            MovSource::Isr => "isr",
            MovSource::Osr => "osr",
        }
    }
}

impl SetDestination {
    /// Its spelling.
    pub(crate) fn text(self) -> &'static str
        ensures value { result.now ≡ spec.set_destination_text self }
        ensures size { length result.now ≤ 7 }
    {
        match self {
            SetDestination::Pins => "pins",
            SetDestination::X => "x",
            SetDestination::Y => "y",
            SetDestination::Pindirs => "pindirs",
        }
    }
}
