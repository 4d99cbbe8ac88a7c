//! What is on the pads.
ghost use Rattle.std.specs.Prelude.{◌≡◌};
ghost use Rattle.pin_matrix.specs.Pads as spec;

/// The pads: of each pin its level where its direction is out, else the outside value.
pub fn pad_of(level: u32, direction: u32, outside: u32) -> u32
    ensures { result ≡ spec.pads_of level direction outside }
{
    (level & direction) | (outside & !direction)
}
