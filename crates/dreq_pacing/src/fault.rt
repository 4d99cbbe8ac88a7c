//! Why a text is no stimulus.
ghost use Rattle.std.specs.Prelude.{◌≡◌, Some};
ghost use Rattle.dreq_pacing.specs.declared.fault.StimFault.TheVariants.{Memory};
ghost use Rattle.dreq_pacing.specs.Fault.{code_of};

use std::alloc::{AllocError, AllocFailed};
use std::fmt;

/// What is wrong with a line of a stimulus.
#[derive(Clone, Copy, Debug)]
pub enum StimKind {
    /// `T1`: no such form in the file's version: an unknown word, a wrong number of fields, or a field that is no
    /// number.
    BadLine,
    /// `T2`: a number outside its range.
    Range,
    /// `T3`: its clock is below that of the line before.
    Backwards,
    /// `T4`: a second access of one kind to a machine in one clock, or a second transfer of one kind in the file.
    Crowded,
    /// `T5`: it is the 1,000,001st line with fields.
    Many,
}

impl StimKind {
    /// Its code.
    pub fn code(self) -> &'static str
        ensures { result.now ≡ code_of self }
    {
        match self {
            StimKind::BadLine => "T1",
            StimKind::Range => "T2",
            StimKind::Backwards => "T3",
            StimKind::Crowded => "T4",
            StimKind::Many => "T5",
        }
    }
}

impl fmt::Display for StimKind {
    ghost output = { λ kind. Some (code_of kind) };

    fn fmt<W: fmt::Write>(&self, f: &mut fmt::Formatter<W>) -> fmt::Result {
        f.write_str(self.code())
    }
}

/// Why `read_stimulus` gave no schedule.
#[derive(Debug, Drop)]
pub enum StimFault {
    /// Memory ran out.
    Memory,
    /// The first faulty line, counted from 1, and what is wrong with it.
    At { line: usize, kind: StimKind },
}

impl From<AllocError> for StimFault {
    ghost from_gives = { λ _ fault. fault ≡ Memory };

    fn from(_error: AllocError) -> Self {
        StimFault::Memory
    }
}

impl<T: Drop> From<AllocFailed<T>> for StimFault {
    ghost from_gives = { λ _ fault. fault ≡ Memory };

    fn from(_error: AllocFailed<T>) -> Self {
        StimFault::Memory
    }
}
