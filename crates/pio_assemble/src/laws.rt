//! Laws of the definitions.
ghost use Rattle.std.specs.Prelude.{◌≡◌, ℕ, ◌<◌, ◌^◌, List, None};
ghost use Rattle.pio_assemble.specs.declared.line.SourceLine.{SourceLine};
ghost use Rattle.pio_assemble.specs.Checks.{first_fault, nothing_before};
ghost use Rattle.pio_assemble.specs.Manual.{manual_programs_of};
ghost use Rattle.pio_assemble.specs.Source.{programs_of};
ghost use Rattle.pio_assemble.specs.Texts.{IsReadAs};
ghost use Rattle.pio_encode.specs.Spelling.{spelled};
ghost use Rattle.pio_encode.specs.declared.rule.SideRule.{SideRule};

/// The text of a word is one line of code, and the word of this code under the same rule is that word.
pub fn a_spelled_word_is_read_back()
    ensures { (word : ℕ) (rule : SideRule) → word < 2 ^ 16 → IsReadAs word rule (spelled word rule) }
{}

/// Where no statement has a fault, the programs are those of the manual's reading: no word is one too many, no program is
/// empty, no wrap comes after its program, no symbol is a second of its name, and no `side` that is asked for is missing.
pub fn nothing_is_clipped()
    ensures { (lines : List SourceLine) → first_fault nothing_before lines ≡ None → programs_of lines ≡ manual_programs_of lines }
{}
