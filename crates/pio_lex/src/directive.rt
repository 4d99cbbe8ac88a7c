//! The directives of pioasm (Pico SDK manual, section 3.3).
ghost use Rattle.std.specs.Prelude.{◌≡◌};
ghost use Rattle.pio_lex.specs.Words.{directive_of};

use crate::table::beside;

/// The name after the `.` of a directive.
#[derive(Clone, Copy, Debug)]
pub enum Directive {
    Program,
    Define,
    Origin,
    SideSet,
    WrapTarget,
    Wrap,
    Word,
    LangOpt,
    PioVersion,
    /// Any other name.
    Other,
}

/// Each known directive's name in lower case.
static NAMES: [(&str, Directive); 9] = [
    ("program", Directive::Program),
    ("define", Directive::Define),
    ("origin", Directive::Origin),
    ("side_set", Directive::SideSet),
    ("wrap_target", Directive::WrapTarget),
    ("wrap", Directive::Wrap),
    ("word", Directive::Word),
    ("lang_opt", Directive::LangOpt),
    ("pio_version", Directive::PioVersion),
];

impl Directive {
    /// The directive of a name, in any case of letters.
    pub(crate) fn of(name: &[u8]) -> Directive
        ensures { result ≡ directive_of name.now }
    {
        beside(&NAMES, name).unwrap_or(Directive::Other)
    }
}
