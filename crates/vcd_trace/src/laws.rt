//! What holds of the text as a whole, after its definition.
ghost use Rattle.std.specs.Prelude.{◌≡◌, ◌≢◌, ℕ, Option, List, false, [], ◌++◌, length};
ghost use Rattle.pio_edge.specs.Edge.{TakesPrefix};
ghost use Rattle.block_core.specs.declared.sample.Sample.{Sample as Values};
ghost use Rattle.block_core.specs.Sample.{values_of, same_sample};
ghost use Rattle.vcd_trace.specs.Shows.{IsSample};
ghost use Rattle.sample_trace.specs.Told.{IsNext, held_to, told_at};
ghost use Rattle.vcd_trace.specs.VcdText.{variables, changes_text, open_text, vcd_text, clock_line};

/// There are 88 variables.
pub fn there_are_88_variables()
    ensures { length variables ≡ 88 }
{}

/// Samples that show the same values have no line between them.
pub fn same_values_have_no_lines()
    ensures { (before now : Values) → values_of before ≡ values_of now
        → changes_text before now ≡ [] }
{}

/// Samples that differ have a line between them, so that no clock's line is alone but the last.
pub fn different_samples_have_lines()
    ensures { (before now : Values) → IsSample before → IsSample now
        → same_sample before now ≡ false → changes_text before now ≢ [] }
{}

/// Clocks that repeat the last sample add nothing to the text, however many they are.
pub fn repeated_samples_add_nothing()
    ensures { (clock : ℕ) (told : List Values) → open_text (held_to clock told) ≡ open_text told }
{}

/// What was written stays: each further sample only adds after it.
pub fn text_only_grows()
    ensures { (clock : ℕ) (now : Values) (told : List Values) → IsNext told clock
        → (more : List ℕ) × (open_text (told_at clock now told) ≡ open_text told ++ more) }
{}

/// A sink that failed while some samples were told has a first part of the whole text of these and
/// any further ones.
pub fn failing_early_leaves_a_first_part()
    ensures { (before now : Option (List ℕ)) (told more : List Values)
        → TakesPrefix before (open_text told) now → TakesPrefix before (vcd_text (told ++ more)) now }
{}

/// Where samples were told, the whole text ends with the line of the clock after them.
pub fn the_text_ends_with_its_length()
    ensures { (told : List Values) → told ≢ []
        → vcd_text told ≡ open_text told ++ clock_line (length told) }
{}
