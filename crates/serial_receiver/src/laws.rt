//! Laws of the frames in samples, each on a function that does nothing.
ghost use Rattle.std.specs.Prelude.{ℕ, Bool, Option, List, ◌++◌};
ghost use Rattle.pio_edge.specs.Edge.{TakesPrefix};
ghost use Rattle.block_core.specs.declared.sample.Sample.{Sample as Values};
ghost use Rattle.serial_receiver.specs.Frames.{frames, levels_of};
ghost use Rattle.serial_receiver.specs.FrameText.{frames_text};

/// A sink that has a first part of the text of the frames in some samples has a first part of that in these and any
/// further ones.
pub fn stopping_early_leaves_a_first_part()
    ensures { (pin bit : ℕ) (level : Bool) (before now : Option (List ℕ)) (told more : List Values)
        → TakesPrefix before (frames_text (frames bit level (levels_of pin told))) now
        → TakesPrefix before (frames_text (frames bit level (levels_of pin (told ++ more)))) now }
{}
