//! The feed of a transmitter.
ghost use Rattle.std.specs.Prelude.{◌≡◌, IfOk};
ghost use Rattle.pio_uart.specs.Feeding.{fed};

use dreq_pacing::{Line, LineAct, Schedule, Words};
use std::alloc::{AllocError, Global};

/// A stimulus that feeds these bytes to machine 0 from clock 0 on, a word each, one a clock where there is room. The
/// error is want of memory.
pub fn feed(alloc: Global, bytes: &[u8]) -> Result<Schedule, AllocError>
    ensures { IfOk result (λ schedule. schedule ≡ fed bytes.now) }
{
    if bytes.is_empty() {
        return Ok(Schedule::empty(alloc));
    }
    let words = words_of(alloc, bytes)?;
    let mut lines = Vec::new(alloc);
    lines.push(feed_line(words))?;
    Ok(Schedule::of(lines))
}

/// The line that feeds words to machine 0.
fn feed_line(words: Vec<u32>) -> Line
    ensures clock { result.clock ≡ 0 }
    ensures act { result.act ≡ LineAct.Feed 0 1 words.items }
{
    Line {
        clock: 0,
        act: LineAct::Feed {
            machine: 0,
            every: 1,
            words: Words::new(words),
        },
    }
}

/// The bytes, a word each.
fn words_of(alloc: Global, bytes: &[u8]) -> Result<Vec<u32>, AllocError>
    ensures { IfOk result (λ words. words.items ≡ bytes.now) }
{
    let mut words = Vec::new(alloc);
    for byte in bytes {
        words.push(u32::from(*byte))?;
    }
    Ok(words)
}
