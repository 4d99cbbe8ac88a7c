//! Why a source gives no programs.
ghost use Rattle.std.specs.Prelude.{◌≡◌, Some};
ghost use Rattle.pio_assemble.specs.declared.fault.LineFault.TheVariants as line_fault;
ghost use Rattle.pio_assemble.specs.declared.fault.SourceFault.TheVariants as source_fault;
ghost use Rattle.pio_assemble.specs.Fault.{code_of, kind_text};
ghost use Rattle.pio_assemble.specs.Answers.{located};
ghost use Rattle.pio_assemble.specs.Operands.{told_of_value, kind_of_value};
ghost use Rattle.pio_assemble.specs.Source as spec;

use crate::Quantity;
use pio_encode::Name;
use pio_expr::{ValueFault, ValueKind};
use pio_lex::{LexFault, LexKind};
use std::alloc::{AllocError, AllocFailed};
use std::fmt;

/// What is wrong with a line of a source (choice of this profile).
#[derive(Drop)]
pub enum SourceKind {
    /// `L1`: a byte begins no token.
    BadByte,
    /// `L2`: a number is of no form, or above 2147483647.
    BadNumber,
    /// `L3`: a comment has no end.
    OpenComment,
    /// `L4`: a foreign block has no end.
    OpenBlock,
    /// `S1`: the line is no statement.
    Syntax,
    /// `S2`: the statement comes before the first program, and has to be in one.
    Outside,
    /// `S3`: the program has this directive already.
    Twice,
    /// `S4`: a `.side_set` after a word of its program.
    Late,
    /// `S5`: an earlier program has this name, or an earlier symbol of the program.
    Duplicate(Name),
    /// `S6`: the 33rd word of a program.
    TooLong,
    /// `S7`: this number of a statement is out of its range.
    Range { what: Quantity, value: i32 },
    /// `S8`: an instruction without `side` under a `.side_set` that asks for it.
    SideMissing,
    /// `S9`: `side` in a program without `.side_set`.
    SideUnasked,
    /// `S10`: a program without words.
    EmptyProgram,
    /// `S11`: an unknown directive.
    Directive,
    /// `S12`: the 65th program, or the 1,025th symbol.
    Many,
    /// `S13`: a `.wrap` before the first word of its program, or a `.wrap_target` after the last.
    WrapPlace,
    /// `V1`: a name of no symbol.
    Unknown(Name),
    /// `V2`: a name that is looked up while its own value is being worked out.
    Cycle(Name),
    /// `V3`: a division by zero.
    DivZero,
    /// `V4`: a result that is no signed number of 32 bits.
    Overflow,
    /// `V5`: more than 64 parentheses and signs are open at once.
    TooDeep,
    /// `V6`: a `::` next to a sign or an operation in its parenthesis.
    Ambiguous,
}

impl SourceKind {
    /// Its code, as `S1`.
    pub fn code(&self) -> &'static str
        ensures { result.now ≡ code_of self.now }
    {
        match self {
            SourceKind::BadByte => "L1",
            SourceKind::BadNumber => "L2",
            SourceKind::OpenComment => "L3",
            SourceKind::OpenBlock => "L4",
            SourceKind::Syntax => "S1",
            SourceKind::Outside => "S2",
            SourceKind::Twice => "S3",
            SourceKind::Late => "S4",
            SourceKind::Duplicate(_) => "S5",
            SourceKind::TooLong => "S6",
            SourceKind::Range { .. } => "S7",
            SourceKind::SideMissing => "S8",
            SourceKind::SideUnasked => "S9",
            SourceKind::EmptyProgram => "S10",
            SourceKind::Directive => "S11",
            SourceKind::Many => "S12",
            SourceKind::WrapPlace => "S13",
            SourceKind::Unknown(_) => "V1",
            SourceKind::Cycle(_) => "V2",
            SourceKind::DivZero => "V3",
            SourceKind::Overflow => "V4",
            SourceKind::TooDeep => "V5",
            SourceKind::Ambiguous => "V6",
        }
    }
}

/// Its code, and after it the name, or the number's name and its value.
impl fmt::Display for SourceKind {
    ghost output = { λ kind. Some (kind_text kind) };

    fn fmt<W: fmt::Write>(&self, f: &mut fmt::Formatter<W>) -> fmt::Result {
        match self {
            SourceKind::Duplicate(name) => write!(f, "S5 {name}"),
            SourceKind::Unknown(name) => write!(f, "V1 {name}"),
            SourceKind::Cycle(name) => write!(f, "V2 {name}"),
            SourceKind::Range { what, value } => write!(f, "S7 {what} {value}"),
            other => f.write_str(other.code()),
        }
    }
}

/// What keeps a line from its meaning.
#[derive(Drop)]
pub enum LineFault {
    /// Memory ran out.
    Memory,
    /// The line's first fault.
    Found(SourceKind),
}

impl From<AllocError> for LineFault {
    ghost from_gives = { λ _ fault. fault ≡ line_fault.Memory };

    fn from(_error: AllocError) -> Self {
        LineFault::Memory
    }
}

impl<T: Drop> From<AllocFailed<T>> for LineFault {
    ghost from_gives = { λ _ fault. fault ≡ line_fault.Memory };

    fn from(_error: AllocFailed<T>) -> Self {
        LineFault::Memory
    }
}

/// Why an expression has no value.
impl From<ValueFault> for LineFault {
    ghost from_gives = { λ fault told. told ≡ told_of_value fault };

    fn from(fault: ValueFault) -> Self {
        match fault {
            ValueFault::Memory => LineFault::Memory,
            ValueFault::Found(kind) => LineFault::Found(kind_of_value(kind)),
        }
    }
}

fn kind_of_value(kind: ValueKind) -> SourceKind
    ensures { result ≡ kind_of_value kind }
{
    match kind {
        ValueKind::Unknown(name) => SourceKind::Unknown(name),
        ValueKind::Cycle(name) => SourceKind::Cycle(name),
        ValueKind::DivZero => SourceKind::DivZero,
        ValueKind::Overflow => SourceKind::Overflow,
    }
}

/// Why `assemble` gave no programs.
#[derive(Drop)]
pub enum SourceFault {
    /// Memory ran out.
    Memory,
    /// The first fault of the source: its line, counted from 1, and its kind.
    Found { line: usize, kind: SourceKind },
}

impl From<AllocError> for SourceFault {
    ghost from_gives = { λ _ fault. fault ≡ source_fault.Memory };

    fn from(_error: AllocError) -> Self {
        SourceFault::Memory
    }
}

impl<T: Drop> From<AllocFailed<T>> for SourceFault {
    ghost from_gives = { λ _ fault. fault ≡ source_fault.Memory };

    fn from(_error: AllocFailed<T>) -> Self {
        SourceFault::Memory
    }
}

/// What keeps a source without tokens from its programs.
pub fn of_tokens(fault: LexFault) -> SourceFault
    ensures { result ≡ spec.told_of_lex fault }
{
    match fault {
        LexFault::Memory => SourceFault::Memory,
        LexFault::Found { line, kind } => SourceFault::Found {
            line,
            kind: kind_of_lex(kind),
        },
    }
}

fn kind_of_lex(kind: LexKind) -> SourceKind
    ensures { result ≡ spec.kind_of_lex kind }
{
    match kind {
        LexKind::BadByte => SourceKind::BadByte,
        LexKind::BadNumber => SourceKind::BadNumber,
        LexKind::OpenComment => SourceKind::OpenComment,
        LexKind::OpenBlock => SourceKind::OpenBlock,
    }
}

/// What keeps a source from its programs, where it is on this line.
pub fn at_line(line: usize, fault: LineFault) -> SourceFault
    ensures { result ≡ located line fault }
{
    match fault {
        LineFault::Memory => SourceFault::Memory,
        LineFault::Found(kind) => SourceFault::Found { line, kind },
    }
}
