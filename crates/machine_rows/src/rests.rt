//! When a block next stirs after its first clock, and after the leap to there, with both kinds of FIFO.
ghost use Rattle.std.specs.Prelude.{◌≤◌};

use crate::lines::only;
use crate::setup::RowSetup;
use block_core::Block;
use fifo_pair::{Fifo, PlainFifo, RingFifo};
use pin_matrix::Setup;
use std::alloc::{AllocError, Global};

/// Adds what a row says of its block, and what is seen of it.
pub fn tell_rest(
    alloc: Global,
    lines: &str,
    expected: &mut String,
    seen: &mut String,
) -> Option<()> {
    let setup = RowSetup::of(alloc, lines)?.setup(alloc);
    let says = only(lines, "stirs")?;
    for _ in 0..2 {
        expected.push_str(says).ok()?;
    }
    tell_stirs(stirs::<PlainFifo>(alloc, &setup).ok()?, seen).ok()?;
    tell_stirs(stirs::<RingFifo>(alloc, &setup).ok()?, seen).ok()
}

fn tell_stirs(
    (first, then): (Option<u64>, Option<u64>),
    text: &mut String,
) -> Result<(), AllocError> {
    tell_stir(first, text)?;
    text.push_str(", then ")?;
    tell_stir(then, text)
}

fn tell_stir(stir: Option<u64>, text: &mut String) -> Result<(), AllocError> {
    match stir {
        Some(clocks) => write!(text, "{clocks}"),
        None => text.push_str("none"),
    }
}

/// When the block of a setup next stirs after its first clock, and after the leap to there.
#[tactic(auto, unfolding(block_core::specs::Block::next))]
fn stirs<F: Fifo>(alloc: Global, setup: &Setup) -> Result<(Option<u64>, Option<u64>), AllocError> {
    let mut block = Block::<F>::new(alloc, setup)?;
    block.quiet_clock();
    let first = block.next_stir();
    leap_idle(&mut block);
    Ok((first, block.next_stir()))
}

/// Leaps to the next clock that stirs, or over a million million clocks where there is none.
fn leap_idle<F: Fifo>(block: &mut Block<F>)
    requires { block.old.run.clock ≤ 1 }
{
    match block.next_stir() {
        Some(clocks) if clocks <= 100 => block.leap(clocks),
        Some(_) => {}
        None => block.leap(1_000_000_000_000),
    }
}
