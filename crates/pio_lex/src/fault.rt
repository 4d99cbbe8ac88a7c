//! Why a source has no tokens.
ghost use Rattle.std.specs.Prelude.{◌≡◌, Some};
ghost use Rattle.pio_lex.specs.declared.fault.LexFault.TheVariants.{Memory};
ghost use Rattle.pio_lex.specs.Fault.{code_of};

use std::alloc::{AllocError, AllocFailed};
use std::fmt;

/// What is wrong at a place of a source.
#[derive(Clone, Copy)]
pub enum LexKind {
    /// A byte begins no token.
    BadByte,
    /// A number is of no form, or above 2147483647.
    BadNumber,
    /// A comment has no end.
    OpenComment,
    /// A foreign block has no end.
    OpenBlock,
}

impl LexKind {
    /// Its code: `L1` to `L4`, in the order above.
    pub fn code(&self) -> &'static str
        ensures { result.now ≡ code_of self.now }
    {
        match self {
            LexKind::BadByte => "L1",
            LexKind::BadNumber => "L2",
            LexKind::OpenComment => "L3",
            LexKind::OpenBlock => "L4",
        }
    }
}

impl fmt::Display for LexKind {
    ghost output = { λ kind. Some (code_of kind) };

    fn fmt<W: fmt::Write>(&self, f: &mut fmt::Formatter<W>) -> fmt::Result {
        f.write_str(self.code())
    }
}

/// Why `tokens` gave none.
#[derive(Drop)]
pub enum LexFault {
    /// Memory ran out.
    Memory,
    /// The first fault of the source is on this line, counted from 1: that of its byte, or where a comment or a
    /// block without end opens.
    Found { line: usize, kind: LexKind },
}

impl From<AllocError> for LexFault {
    ghost from_gives = { λ _ fault. fault ≡ Memory };

    fn from(_error: AllocError) -> Self {
        LexFault::Memory
    }
}

impl<T: Drop> From<AllocFailed<T>> for LexFault {
    ghost from_gives = { λ _ fault. fault ≡ Memory };

    fn from(_error: AllocFailed<T>) -> Self {
        LexFault::Memory
    }
}
