//! How bits 12 to 8 of a program's words are shared between side-set and delay.
ghost use Rattle.std.specs.Prelude.{◌+◌, ◌≤◌, if◌then◌else◌};

/// A program's side-set rule (RP2040 Datasheet, section 3.5.1; `.side_set` of pioasm).
#[derive(Clone, Copy)]
pub struct SideRule {
    /// How many bits carry the side-set value: 0 to 5, and 0 to 4 under `opt`.
    pub bits: u8,
    /// Whether an enable bit says if an instruction has side-set.
    pub opt: bool,
    /// Whether side-set writes pin directions instead of levels.
    pub pindirs: bool,
    pub ghost fits: { bits + (if opt then 1 else 0) ≤ 5 },
}

impl SideRule {
    ghost use Rattle.std.specs.Prelude.{◌≡◌, ◌+◌, if◌then◌else◌};
    ghost use Rattle.pio_encode.specs.Ranges as spec;

    /// How many of bits 12 to 8 carry the delay.
    pub(crate) fn delay_bits(&self) -> u8
        ensures value { result ≡ spec.delay_bits self.now }
        ensures rest { result + (self.now.bits + (if self.now.opt then 1 else 0)) ≡ 5 }
    {
        5 - self.bits - u8::from(self.opt)
    }
}
