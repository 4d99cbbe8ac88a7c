//! The words of a stimulus.
ghost use Rattle.std.specs.Prelude.{◌≡◌};
ghost use Rattle.std.specs.Str.{bytes_eq};
ghost use Rattle.dreq_pacing.specs.Form as spec;

/// The word after a line's clock.
#[derive(Clone, Copy)]
pub enum Verb {
    Pin,
    Tx,
    Rx,
    Feed,
    Drain,
    Enable,
    Disable,
    Restart,
}

/// The word of this name, in a file of version 1 or 2.
pub fn verb_of(name: &[u8], two: bool) -> Option<Verb>
    ensures { result ≡ spec.verb_of two name.now }
{
    if is_word(name, b"pin") {
        Some(Verb::Pin)
    } else if is_word(name, b"tx") {
        Some(Verb::Tx)
    } else if is_word(name, b"rx") {
        Some(Verb::Rx)
    } else if is_word(name, b"feed") {
        Some(Verb::Feed)
    } else if is_word(name, b"drain") {
        Some(Verb::Drain)
    } else if two {
        second_verb_of(name)
    } else {
        None
    }
}

/// The word of this name that version 2 adds.
fn second_verb_of(name: &[u8]) -> Option<Verb>
    ensures { result ≡ spec.second_verb_of name.now }
{
    if is_word(name, b"enable") {
        Some(Verb::Enable)
    } else if is_word(name, b"disable") {
        Some(Verb::Disable)
    } else if is_word(name, b"restart") {
        Some(Verb::Restart)
    } else {
        None
    }
}

/// Whether a name is this word.
fn is_word(name: &[u8], word: &[u8]) -> bool
    ensures { result ≡ bytes_eq name.now word.now }
{
    name == word
}
