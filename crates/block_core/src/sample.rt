//! What is seen of a block after a clock: 88 values, in the order in which a trace writes them.
ghost use Rattle.std.specs.Prelude.{◌≡◌, ◌+◌, ◌*◌, ◌^◌, ◌<◌, false};
ghost use Rattle.block_core.specs.Shown.{with_shown};

use sm_registers::{Outputs, Shown};

/// The state of a block after one clock, as a trace shows it (choice of this profile).
///
/// In a `u32` or a `u8` of pins or flags bit i is that of pin or flag i.
#[derive(Clone, Copy, Debug, PartialEq, Eq)]
pub struct Sample {
    /// The output level of each of the 32 pins.
    pub level: u32,
    /// The direction of each of the 32 pins: 1 is out.
    pub direction: u32,
    /// The eight IRQ flags.
    pub flags: u8,
    /// The level of each machine's TX FIFO: 0 to 8 words.
    pub tx: [u8; 4],
    /// The level of each machine's RX FIFO: 0 to 8 words.
    pub rx: [u8; 4],
    /// The last word that the system read from each machine, 0 where it has read none.
    pub got: [u32; 4],
    /// Each machine's sticky flags: 1 TXOVER, 2 RXUNDER, 4 TXSTALL, 8 RXSTALL.
    pub sticky: [u8; 4],
}

impl Sample {
    /// Puts in the pins; all else stays. True where it is another sample then.
    #[inline(always)]
    pub(crate) fn show_pins(&mut self, outputs: &Outputs) -> bool
        ensures after { self.new
            ≡ record self.old { level = outputs.now.levels; direction = outputs.now.directions } }
        ensures same { result ≡ false → self.new ≡ self.old }
    {
        let same = both(self.level, self.direction) == both(outputs.levels, outputs.directions);
        if !same {
            self.level = outputs.levels;
            self.direction = outputs.directions;
        }
        !same
    }

    /// Puts in what is seen of a place; all else stays.
    #[tactic(auto, unfolding(crate::specs::Shown::with_shown))]
    pub(crate) fn show(&mut self, place: usize, seen: &Shown)
        requires { place < 4 }
        ensures { self.new ≡ with_shown place seen.now self.old }
    {
        self.tx[place] = seen.tx;
        self.rx[place] = seen.rx;
        self.got[place] = seen.got;
        self.sticky[place] = seen.sticky;
    }
}

/// Levels and directions as one number, so that one test compares both.
#[inline(always)]
fn both(levels: u32, directions: u32) -> u64
    ensures { result ≡ levels + 2 ^ 32 * directions }
{
    u64::from(levels) + (u64::from(directions) << 32)
}
