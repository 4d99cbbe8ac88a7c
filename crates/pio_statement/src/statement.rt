//! A statement: what one line of a pioasm source says (Pico SDK manual, section 3.3).

use crate::Instruction;
use pio_encode::Name;
use pio_expr::Expr;

/// What gives a word of a program's code.
#[derive(Drop)]
pub enum Code {
    /// `.word E`
    Word(Expr),
    Instruction(Instruction),
}

/// A statement. No expression has a value yet, and no range is looked at.
#[derive(Drop)]
pub enum Statement {
    /// An empty line.
    Nothing,
    /// `.program NAME`
    Program(Name),
    /// `.define [public] NAME E`
    Define {
        public: bool,
        name: Name,
        value: Expr,
    },
    /// `.origin E`
    Origin(Expr),
    /// `.side_set E [opt] [pindirs]`
    SideSet {
        bits: Expr,
        opt: bool,
        pindirs: bool,
    },
    /// `.wrap_target`
    WrapTarget,
    /// `.wrap`
    Wrap,
    /// `.lang_opt`, whatever comes after it.
    LangOpt,
    /// `.pio_version E`
    PioVersion(Expr),
    /// `[public] NAME :`, alone or with code after it.
    Label {
        public: bool,
        name: Name,
        code: Option<Code>,
    },
    /// An instruction or a word without a label.
    Code(Code),
}
