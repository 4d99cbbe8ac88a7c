//! Laws of a run's samples and of how many of its clocks are worked out, each on a function that does nothing.
ghost use Rattle.std.specs.Prelude.{◌≡◌, ℕ, ◌+◌, ◌≤◌, List, ◌++◌};
ghost use Rattle.dreq_pacing.specs.declared.line.Line.{Line};
ghost use Rattle.block_core.specs.declared.sample.Sample.{Sample};
ghost use Rattle.block_core.specs.Block.{Run};
ghost use Rattle.block_core.specs.Hosted.{samples};
ghost use Rattle.block_core.specs.HostedTwin.{twin_samples, twin_stirring};
ghost use Rattle.block_core.specs.Inside.{insides};
ghost use Rattle.block_core.specs.Stirring.{stirring};
ghost use Rattle.block_core.specs.Twin.{TwinRun};
ghost use Rattle.idle_engine.specs.Stops.{LeavesFirstPart, run_after, twin_after};
ghost use Rattle.idle_engine.specs.Worked.{worked_in, twin_worked_in};

/// The clocks that are worked out are no more than all of them, and no more than those that stir and clock 0.
pub fn few_clocks_are_worked_out()
    ensures clocks { (start : Run) (lines : List Line) (clocks : ℕ) → worked_in start lines clocks ≤ clocks }
    ensures stirring { (start : Run) (lines : List Line) (clocks : ℕ) →
        worked_in start lines clocks ≤ stirring start lines clocks + 1 }
    ensures twin_clocks { (start : TwinRun) (first second : List Line) (clocks : ℕ) →
        twin_worked_in start first second clocks ≤ clocks }
    ensures twin_stirring { (start : TwinRun) (first second : List Line) (clocks : ℕ) →
        twin_worked_in start first second clocks ≤ twin_stirring start first second clocks + 1 }
{}

/// The samples of more clocks are those of fewer and then later ones.
pub fn later_samples_follow()
    ensures { (start : Run) (lines : List Line) (clocks more : ℕ) → (later : List Sample)
        × (samples start lines (clocks + more) ≡ samples start lines clocks ++ later) }
{}

/// A run that stopped while a text was written, to a sink that took a first part of the text so far, has written a first part
/// of the whole text, where the text's first parts stay first parts.
pub fn a_stopped_run_leaves_a_first_part()
    ensures samples { (start : Run) (lines : List Line)
        → LeavesFirstPart (run_after start lines) (samples start lines) }
    ensures insides { (start : Run) (lines : List Line)
        → LeavesFirstPart (run_after start lines) (insides start lines) }
    ensures twin { (start : TwinRun) (first second : List Line)
        → LeavesFirstPart (twin_after start first second) (twin_samples start first second) }
{}
