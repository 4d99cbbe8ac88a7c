//! How many edges pin 0 has in the first clocks of the load of seed 7.
ghost use Rattle.std.specs.Prelude.{◌≡◌};

use drawn_load::summarise;
use std::alloc::Global;
use std::marker::Brand;
use std::sync::ledger::{Blank, Ledger};
use step_count::Steps;

/// Adds the edges of pin 0 in so many clocks.
pub fn tell_edges(alloc: Global, asked: &str, text: &mut String) -> Option<()> {
    let clocks: u32 = asked.parse().ok()?;
    let edges = edges_of::<Brand>(alloc, clocks, Blank::new(1))?;
    write!(text, "{edges}").ok()
}

fn edges_of<L: Ledger>(alloc: Global, clocks: u32, blank: Blank) -> Option<u64>
    requires name { blank.name ≡ L.name }
    requires parts { blank.parts ≡ L.parts }
    requires whole { blank.parts ≡ 1 }
{
    let mut steps = Steps::<L>::new(blank);
    let summary = summarise(alloc, 7, u64::from(clocks), &mut steps).ok()?;
    Some(summary.edges_0)
}
