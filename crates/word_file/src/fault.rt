//! What can be wrong with a file of words.
ghost use Rattle.std.specs.Prelude.{◌≡◌};
ghost use Rattle.word_file.specs.Fault.{code_of};

/// What is wrong with a line.
#[derive(Clone, Copy)]
pub enum WordKind {
    /// `H1`: it is neither a word nor blank.
    BadWord,
    /// `H2`: it has the 33rd word.
    TooMany,
}

impl WordKind {
    /// Its code.
    pub fn code(self) -> &'static str
        ensures { result.now ≡ code_of self }
    {
        match self {
            WordKind::BadWord => "H1",
            WordKind::TooMany => "H2",
        }
    }
}

/// The first fault of a file of words.
#[derive(Clone, Copy)]
pub struct WordFault {
    /// The line, counted from 1.
    pub line: usize,
    /// What is wrong with it.
    pub kind: WordKind,
}
