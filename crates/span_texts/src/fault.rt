//! Why bytes aren't the text of a table.
ghost use Rattle.std.specs.Prelude.{◌≡◌, Some};
ghost use Rattle.span_texts.specs.declared.fault.TableFault.TheVariants.{Memory};
ghost use Rattle.span_texts.specs.Faults.{code_of};

use std::alloc::AllocError;
use std::fmt;

/// What is wrong with a line of a table file.
#[derive(Clone, Copy)]
pub enum TableKind {
    /// `B1`: it isn't what may be there, or it comes after `end`, or it has no newline.
    BadLine,
    /// `B2`: a number outside its range, or a least age above the greatest.
    Range,
    /// `B3`: its context doesn't come after that of the row before.
    Order,
    /// `B4`: no line is faulty, and none is `end`; this is the number of one line more.
    NoEnd,
}

impl TableKind {
    /// Its code.
    pub fn code(self) -> &'static str
        ensures { result.now ≡ code_of self }
    {
        match self {
            TableKind::BadLine => "B1",
            TableKind::Range => "B2",
            TableKind::Order => "B3",
            TableKind::NoEnd => "B4",
        }
    }
}

impl fmt::Display for TableKind {
    ghost output = { λ kind. Some (code_of kind) };

    fn fmt<W: fmt::Write>(&self, f: &mut fmt::Formatter<W>) -> fmt::Result {
        f.write_str(self.code())
    }
}

/// Why `read_table` gave no table.
#[derive(Drop)]
pub enum TableFault {
    /// Memory ran out.
    Memory,
    /// The first faulty line, counted from 1, and what is wrong with it.
    At { line: usize, kind: TableKind },
}

impl From<AllocError> for TableFault {
    ghost from_gives = { λ _ fault. fault ≡ Memory };

    fn from(_error: AllocError) -> Self {
        TableFault::Memory
    }
}
