//! The whole load: the setup of a block, and its stimulus.
ghost use Rattle.std.specs.Prelude.{◌≡◌, ℕ, IfOk};
ghost use Rattle.drawn_load.specs.Draws.{letters_of, numbers_of, state_at};
ghost use Rattle.drawn_load.specs.Loads.{lines_of, feed_line, drain_line};
ghost use Rattle.drawn_load.specs.SettingUp.{IsLoad};
ghost use Rattle.drawn_load.specs.Setups.{setup_of};

use crate::draws::Draws;
use crate::first::draw_letters;
use crate::letters::Letters;
use crate::machines::{answer, bits, pulse, reader};
use crate::programs::memory_from;
use crate::pulses::put_pin_lines;
use crate::words::draw_words;
use dreq_pacing::{Line, LineAct, Schedule, Words};
use pin_matrix::{Setup, Spans};
use setup_keys::{
    a_block_in_range_is_not_clipped, setups_that_say_the_same_are_one,
    what_a_setup_says_is_in_range,
};
use std::alloc::{AllocError, Global};

/// A block of four busy machines, and what the system does meanwhile.
#[derive(Drop)]
pub struct Load {
    pub setup: Setup,
    pub schedule: Schedule,
}

/// The load of a seed, whatever the seed is. The error is out of memory, and no other end is free.
pub fn draw_load(alloc: Global, seed: u64) -> Result<Load, AllocError>
    ensures setup { IfOk result (λ load. load.setup ≡ setup_of seed) }
    ensures schedule { IfOk result (λ load. load.schedule ≡ lines_of seed) }
{
    setups_that_say_the_same_are_one();
    what_a_setup_says_is_in_range();
    a_block_in_range_is_not_clipped();
    let mut draws = Draws::new(seed);
    let letters = draw_letters(&mut draws);
    let lines = draw_lines(alloc, &letters, &mut draws)?;
    Ok(Load {
        setup: setup_from(alloc, &letters),
        schedule: Schedule::of(lines),
    })
}

/// The setup of the block. It takes no memory.
fn setup_from(alloc: Global, letters: &Letters) -> Setup
    ensures { IsLoad (numbers_of letters.now) result }
{
    Setup {
        memory: memory_from(letters),
        machines: [
            Some(pulse()),
            Some(bits(letters)),
            Some(reader()),
            Some(answer()),
        ],
        high: 0,
        level: 0,
        out: 0b1011,
        bypass: 0,
        spans: Spans::empty(alloc),
    }
}

/// The lines of the stimulus. The draws have given the letters.
fn draw_lines(alloc: Global, letters: &Letters, draws: &mut Draws) -> Result<Vec<Line>, AllocError>
    ensures { IfOk result (λ lines. (seed : ℕ) → numbers_of letters.now ≡ letters_of seed
        → draws.old ≡ state_at seed 7 → lines.items ≡ lines_of seed) }
{
    let words = draw_words(alloc, draws)?;
    let mut lines = Vec::new(alloc);
    lines.push(feed_of(letters, words))?;
    lines.push(drain_of(letters))?;
    put_pin_lines(&mut lines, draws)?;
    Ok(lines)
}

/// The feed of machine 1.
fn feed_of(letters: &Letters, words: Vec<u32>) -> Line
    ensures { result ≡ feed_line (numbers_of letters.now) words.items }
{
    Line {
        clock: 0,
        act: LineAct::Feed {
            machine: 1,
            every: u32::from(letters.e),
            words: Words::new(words),
        },
    }
}

/// The drain of machine 2.
fn drain_of(letters: &Letters) -> Line
    ensures { result ≡ drain_line (numbers_of letters.now) }
{
    Line {
        clock: 0,
        act: LineAct::Drain {
            machine: 2,
            every: u32::from(letters.g),
        },
    }
}
