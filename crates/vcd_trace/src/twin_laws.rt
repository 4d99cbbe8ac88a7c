//! What holds of the text of two blocks as a whole, after its definition.
ghost use Rattle.std.specs.Prelude.{◌≡◌, ◌≢◌, ℕ, Option, List, false, [], ◌++◌, length};
ghost use Rattle.pio_edge.specs.Edge.{TakesPrefix};
ghost use Rattle.block_core.specs.declared.sample.Sample.{Sample as Values};
ghost use Rattle.vcd_trace.specs.Shows.{AreSamples};
ghost use Rattle.sample_trace.specs.Told.{IsNext, held_to, told_at};
ghost use Rattle.vcd_trace.specs.VcdText.{clock_line, identifier};
ghost use Rattle.vcd_trace.specs.TwinText.{same_samples, twin_changes_text, twin_open_text, twin_text};

/// No two variables share an identifier, whichever their scopes.
pub fn each_variable_has_its_own_identifier()
    ensures { (one other : ℕ) → identifier one ≡ identifier other → one ≡ other }
{}

/// Pairs of samples that differ have a line between them, so that no clock's line is alone but the last.
pub fn different_pairs_have_lines()
    ensures { (before now : Values × Values) → AreSamples before → AreSamples now
        → same_samples before now ≡ false → twin_changes_text before now ≢ [] }
{}

/// Clocks that repeat the last pair of samples add nothing to the text, however many they are.
pub fn repeated_pairs_add_nothing()
    ensures { (clock : ℕ) (told : List (Values × Values))
        → twin_open_text (held_to clock told) ≡ twin_open_text told }
{}

/// What was written of two blocks stays: each further pair of samples only adds after it.
pub fn twin_text_only_grows()
    ensures { (clock : ℕ) (now : Values × Values) (told : List (Values × Values)) → IsNext told clock
        → (more : List ℕ) × (twin_open_text (told_at clock now told) ≡ twin_open_text told ++ more) }
{}

/// A sink that failed while some pairs of samples were told has a first part of the whole text of these and any further
/// ones.
pub fn failing_early_leaves_a_first_part_of_two()
    ensures { (before now : Option (List ℕ)) (told more : List (Values × Values))
        → TakesPrefix before (twin_open_text told) now → TakesPrefix before (twin_text (told ++ more)) now }
{}

/// Where pairs of samples were told, the whole text ends with the line of the clock after them.
pub fn the_text_of_two_ends_with_its_length()
    ensures { (told : List (Values × Values)) → told ≢ []
        → twin_text told ≡ twin_open_text told ++ clock_line (length told) }
{}
