//! The edges that the outside drives on pin 2.
ghost use Rattle.std.specs.Prelude.{◌≡◌, ℕ, ◌++◌, IfOk};
ghost use Rattle.drawn_load.specs.Draws.{state_at};
ghost use Rattle.drawn_load.specs.Loads.{pin_lines};

use crate::draws::Draws;
use dreq_pacing::{Line, LineAct};
use std::alloc::AllocError;

/// Appends the 1,000 lines of pin 2. The draws have given the letters and the words. The error is out of memory.
pub fn put_pin_lines(lines: &mut Vec<Line>, draws: &mut Draws) -> Result<(), AllocError>
    ensures { IfOk result (λ _. (seed : ℕ) → draws.old ≡ state_at seed 519
        → lines.new.items ≡ lines.old.items ++ pin_lines seed) }
{
    let mut clock = 0;
    for j in 0..1000_u32 {
        clock += u64::from(1 + draws.below(2000));
        lines.push(Line {
            clock,
            act: LineAct::Pin {
                pin: 2,
                level: j % 2 == 0,
            },
        })?;
    }
    Ok(())
}
