//! What holds of the text of what is inside a block as a whole, after its definition.
ghost use Rattle.std.specs.Prelude.{◌≡◌, ◌≢◌, ℕ, Bool, Option, List, false, [], ◌++◌, length};
ghost use Rattle.pio_edge.specs.Edge.{TakesPrefix};
ghost use Rattle.block_core.specs.declared.inside.Inside.{Inside as Values};
ghost use Rattle.vcd_trace.specs.Shows.{AreInside};
ghost use Rattle.sample_trace.specs.Told.{IsNext, held_to, told_at};
ghost use Rattle.vcd_trace.specs.VcdText.{clock_line};
ghost use Rattle.vcd_trace.specs.InsideText.{inside_changes_text, inside_open_text, inside_text, same_inside};

/// Where something else is inside, there is a line for it, so that no clock's line is alone but the last.
pub fn different_insides_have_lines()
    ensures { (before now : Values) → AreInside before now → same_inside before now ≡ false
        → inside_changes_text before now ≢ [] }
{}

/// Clocks in which the same is inside add nothing to the text, however many they are.
pub fn repeated_insides_add_nothing()
    ensures { (configured : List Bool) (clock : ℕ) (told : List Values)
        → inside_open_text configured (held_to clock told) ≡ inside_open_text configured told }
{}

/// What was written of what is inside stays: each further clock only adds after it.
pub fn inside_text_only_grows()
    ensures { (configured : List Bool) (clock : ℕ) (now : Values) (told : List Values) → IsNext told clock
        → (more : List ℕ)
        × (inside_open_text configured (told_at clock now told) ≡ inside_open_text configured told ++ more) }
{}

/// A sink that failed while what is inside was told of some clocks has a first part of the whole text of these and
/// any further ones.
pub fn failing_early_leaves_a_first_part_of_what_is_inside()
    ensures { (configured : List Bool) (before now : Option (List ℕ)) (told more : List Values)
        → TakesPrefix before (inside_open_text configured told) now
        → TakesPrefix before (inside_text configured (told ++ more)) now }
{}

/// Where clocks were told, the whole text of what is inside ends with the line of the clock after them.
pub fn the_text_of_what_is_inside_ends_with_its_length()
    ensures { (configured : List Bool) (told : List Values) → told ≢ []
        → inside_text configured told ≡ inside_open_text configured told ++ clock_line (length told) }
{}
