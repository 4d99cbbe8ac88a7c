//! The flags as a byte, bit i for flag i, and the number of the flag that an instruction means.
ghost use Rattle.std.specs.Prelude.{◌≡◌, ℕ, ◌<◌, ◌≤◌};
ghost use Rattle.std.specs.Int.{bit_at};
ghost use Rattle.irq_flags.specs.Flags.{flag_of, lowered_flags, merged_flag, merged_flags};

/// The flags of a block. Bit i of `up` is set where flag i is up.
#[derive(Clone, Copy)]
pub struct Flags {
    pub up: u8,
}

impl Flags {
    /// One clock on: lowers the flags in `clears`, then raises those in `sets`.
    pub fn merge(&mut self, clears: u8, sets: u8)
        ensures value { self.new.up ≡ merged_flags self.old.up clears sets }
        ensures each { (i : ℕ) → i < 8 →
            bit_at self.new.up i ≡ merged_flag self.old.up clears sets i }
    {
        self.up = sets | lowered(self.up, clears);
    }
}

// The flags that are up and are not lowered.
fn lowered(up: u8, clears: u8) -> u8
    ensures { result ≡ lowered_flags up clears }
{
    if clears == 0 { up } else { up & !clears }
}

/// The flag, 0 to 7, that an instruction's index of five bits means on this machine.
///
/// With bit 4 the machine's number is added to bits 1..0 modulo 4. Bit 3 doesn't count.
pub fn resolve(index: u8, machine: u8) -> u8
    requires index_in_range { index ≤ 31 }
    requires machine_in_range { machine ≤ 3 }
    ensures value { result ≡ flag_of index machine }
    ensures below { result < 8 }
{
    if index >> 4 & 1 == 1 {
        (index >> 2 & 1) * 4 + (index % 4 + machine) % 4
    } else {
        index % 8
    }
}
