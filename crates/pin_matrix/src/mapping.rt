//! Pins in a row, onto which a machine's OUT, SET or side-set is mapped.
ghost use Rattle.std.specs.Prelude.{◌<◌, ◌≤◌};

/// Pins in a row; pin 0 follows on pin 31 (RP2040 Datasheet, section 3.5.6).
#[derive(Clone, Copy)]
pub struct Mapping {
    /// The first pin: 0 to 31.
    pub base: u8,
    /// How many pins: 0 to 32.
    pub count: u8,
    pub ghost base_is_a_pin: { base < 32 },
    pub ghost count_fits: { count ≤ 32 },
}
