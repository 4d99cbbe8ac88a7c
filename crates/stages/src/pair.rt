//! What a run of two blocks reads before it requires spans: the setups of both, and the lines of a stimulus for each.
ghost use Rattle.std.specs.Prelude.{IfOk, option_map};
ghost use Rattle.stages.specs.Stages.{KeepsPlan, pair_plan};
ghost use Rattle.stages.specs.Configured.{AreConfigured};

use crate::second::read_second_setup;
use crate::setup::read_setup;
use crate::source::read_source;
use crate::stimulus::read_schedules;
use command_line::PairFiles;
use dreq_pacing::Schedule;
use fault_lines::Fault;
use pin_matrix::Setup;
use pio_edge::Shelf;
use std::alloc::Global;

/// What two blocks on one set of pins start from, and what the system does at each.
#[derive(Drop)]
pub struct TwoBlocks {
    pub first: Setup,
    pub second: Setup,
    /// The pins that the second block owns: bit i is for pin i.
    pub own: u32,
    pub first_lines: Schedule,
    pub second_lines: Schedule,
}

/// The setups of the source's programs under both configurations, and then the lines of the stimulus.
#[tactic(auto, unfolding(crate::specs::Judged::pair_at))]
pub fn prepare_pair<F: Shelf>(
    alloc: Global,
    shelf: &mut F,
    files: PairFiles,
) -> Result<TwoBlocks, Fault>
    ensures plan { KeepsPlan F.Shelf
        (pair_plan files.entry.source.now files.entry.config.now files.entry.second.now
        (option_map (λ t. t.now) files.entry.stimulus))
        (λ p. p) shelf.old shelf.new result }
    ensures first { IfOk result (λ p. AreConfigured p.first) }
    ensures second { IfOk result (λ p. AreConfigured p.second) }
{
    let programs = read_source(alloc, shelf, files.source)?;
    let first = read_setup(alloc, shelf, Some(files.config), &programs)?;
    let second = read_second_setup(alloc, shelf, files.second, &programs)?;
    let lines = read_schedules(alloc, shelf, files.stimulus)?;
    Ok(TwoBlocks {
        first,
        second: second.setup,
        own: second.own,
        first_lines: lines.0,
        second_lines: lines.1,
    })
}
