//! The keywords of pioasm, which are no symbols (Pico SDK manual, section 3.3).
ghost use Rattle.std.specs.Prelude.{◌≡◌};
ghost use Rattle.pio_lex.specs.Words.{keyword_of};

use crate::table::beside;

/// A word that pioasm keeps for itself.
#[derive(Clone, Copy, Debug)]
pub enum Keyword {
    Nop,
    Jmp,
    Wait,
    In,
    Out,
    Push,
    Pull,
    Mov,
    Irq,
    Set,
    /// `iffull`; `if_full` is taken too.
    IfFull,
    /// `ifempty`; `if_empty` is taken too.
    IfEmpty,
    Block,
    NoBlock,
    Pins,
    Pindirs,
    Pin,
    Gpio,
    X,
    Y,
    Null,
    Isr,
    Osr,
    Osre,
    Exec,
    Pc,
    Status,
    Rel,
    Clear,
    NoWait,
    /// `side`; `sideset` and `side_set` are taken too.
    Side,
    /// `opt`; `optional` is taken too.
    Opt,
    Public,
}

/// Each spelling in lower case, with the keyword that it is.
static SPELLINGS: [(&str, Keyword); 38] = [
    ("nop", Keyword::Nop),
    ("jmp", Keyword::Jmp),
    ("wait", Keyword::Wait),
    ("in", Keyword::In),
    ("out", Keyword::Out),
    ("push", Keyword::Push),
    ("pull", Keyword::Pull),
    ("mov", Keyword::Mov),
    ("irq", Keyword::Irq),
    ("set", Keyword::Set),
    ("iffull", Keyword::IfFull),
    ("if_full", Keyword::IfFull),
    ("ifempty", Keyword::IfEmpty),
    ("if_empty", Keyword::IfEmpty),
    ("block", Keyword::Block),
    ("noblock", Keyword::NoBlock),
    ("pins", Keyword::Pins),
    ("pindirs", Keyword::Pindirs),
    ("pin", Keyword::Pin),
    ("gpio", Keyword::Gpio),
    ("x", Keyword::X),
    ("y", Keyword::Y),
    ("null", Keyword::Null),
    ("isr", Keyword::Isr),
    ("osr", Keyword::Osr),
    ("osre", Keyword::Osre),
    ("exec", Keyword::Exec),
    ("pc", Keyword::Pc),
    ("status", Keyword::Status),
    ("rel", Keyword::Rel),
    ("clear", Keyword::Clear),
    ("nowait", Keyword::NoWait),
    ("side", Keyword::Side),
    ("sideset", Keyword::Side),
    ("side_set", Keyword::Side),
    ("opt", Keyword::Opt),
    ("optional", Keyword::Opt),
    ("public", Keyword::Public),
];

impl Keyword {
    /// The keyword that the text is, in any case of letters.
    pub fn of(text: &[u8]) -> Option<Keyword>
        ensures { result ≡ keyword_of text.now }
    {
        beside(&SPELLINGS, text)
    }
}
