//! Why a row is bad.
ghost use Rattle.std.specs.Prelude.{◌≡◌};
ghost use Rattle.span_step.specs.Courses as spec;
ghost use Rattle.span_step.specs.Laws as laws;

/// A cause for which a row is bad.
#[derive(Clone, Copy, Debug, PartialEq, Eq)]
pub enum Cause {
    /// An age is above the span's greatest bound.
    U1,
    /// A to-event comes while an age is below the span's least.
    U2,
    /// The machine waits, at an address that the span doesn't name, while a from-event is open. It isn't asked of a span without
    /// a greatest bound.
    U3,
    /// No address is known after the instruction.
    U4,
    /// What is known of X or Y after the instruction is outside the range that the span assumes.
    U6,
}

/// Which causes there are.
#[derive(Clone, Copy)]
pub struct Causes {
    pub u1: bool,
    pub u2: bool,
    pub u3: bool,
    pub u4: bool,
    pub u6: bool,
}

impl Causes {
    /// No cause.
    pub(crate) fn none() -> Causes
        ensures { result ≡ spec.no_causes }
    {
        Causes {
            u1: false,
            u2: false,
            u3: false,
            u4: false,
            u6: false,
        }
    }

    /// The first in the order U1, U2, U3, U4, U6.
    pub fn first(self) -> Option<Cause>
        ensures { result ≡ laws.first_cause self }
    {
        if self.u1 {
            Some(Cause::U1)
        } else if self.u2 {
            Some(Cause::U2)
        } else if self.u3 {
            Some(Cause::U3)
        } else if self.u4 {
            Some(Cause::U4)
        } else if self.u6 {
            Some(Cause::U6)
        } else {
            None
        }
    }

    /// The causes of either.
    pub(crate) fn joined(self, other: Causes) -> Causes
        ensures { result ≡ spec.joined self other }
    {
        Causes {
            u1: self.u1 || other.u1,
            u2: self.u2 || other.u2,
            u3: self.u3 || other.u3,
            u4: self.u4 || other.u4,
            u6: self.u6 || other.u6,
        }
    }
}
