//! What a command reads before it requires spans: a setup, and of a run the lines of a stimulus.
ghost use Rattle.std.specs.Prelude.{IfOk, None, [], option_map};
ghost use Rattle.stages.specs.Stages.{KeepsPlan, run_plan};
ghost use Rattle.stages.specs.Configured.{AreConfigured};

use crate::setup::read_setup;
use crate::source::read_source;
use crate::stimulus::read_schedule;
use command_line::RunFiles;
use dreq_pacing::Schedule;
use fault_lines::Fault;
use pin_matrix::Setup;
use pio_edge::Shelf;
use std::alloc::Global;

/// The setup of the source's programs, for a command without a stimulus.
#[tactic(auto, unfolding(crate::specs::Judged::prepared_at))]
pub fn prepare_setup<F: Shelf>(
    alloc: Global,
    shelf: &mut F,
    source: &str,
    config: Option<&str>,
) -> Result<Setup, Fault>
    ensures plan { KeepsPlan F.Shelf (run_plan source.now (option_map (λ t. t.now) config.entry) None)
        (λ setup. (setup, [])) shelf.old shelf.new result }
    ensures configured { IfOk result AreConfigured }
{
    let programs = read_source(alloc, shelf, source)?;
    let setup = read_setup(alloc, shelf, config, &programs)?;
    Ok(setup)
}

/// The setup of the source's programs, and then the lines of the stimulus.
#[tactic(auto, unfolding(crate::specs::Judged::prepared_at))]
pub fn prepare<F: Shelf>(
    alloc: Global,
    shelf: &mut F,
    files: RunFiles,
) -> Result<(Setup, Schedule), Fault>
    ensures plan { KeepsPlan F.Shelf
        (run_plan files.entry.source.now (option_map (λ t. t.now) files.entry.config)
        (option_map (λ t. t.now) files.entry.stimulus))
        (λ p. (p.0, p.1)) shelf.old shelf.new result }
    ensures configured { IfOk result (λ p. AreConfigured p.0) }
{
    let programs = read_source(alloc, shelf, files.source)?;
    let setup = read_setup(alloc, shelf, files.config, &programs)?;
    let schedule = read_schedule(alloc, shelf, files.stimulus)?;
    Ok((setup, schedule))
}
