//! From a stimulus's name to its lines.
ghost use Rattle.std.specs.Prelude.{Some, option_map};
ghost use Rattle.stages.specs.Stages.{KeepsPlan, schedule_plan, schedules_plan};

use crate::fetch::fetch_file;
use dreq_pacing::{Schedule, StimFault, read_pair_stimulus, read_stimulus};
use fault_lines::{Fault, File};
use pio_edge::Shelf;
use std::alloc::Global;

/// The lines of a stimulus, and none where no stimulus is named.
pub fn read_schedule<F: Shelf>(
    alloc: Global,
    shelf: &mut F,
    name: Option<&str>,
) -> Result<Schedule, Fault>
    ensures { KeepsPlan F.Shelf (schedule_plan (option_map (λ t. t.now) name.entry))
        (λ schedule. schedule) shelf.old shelf.new result }
{
    match name {
        Some(name) => read_named(alloc, shelf, name),
        None => Ok(Schedule::empty(alloc)),
    }
}

/// The lines of the stimulus of this name.
#[tactic(auto, unfolding(crate::specs::Judged::stimulus_at))]
fn read_named<F: Shelf>(alloc: Global, shelf: &mut F, name: &str) -> Result<Schedule, Fault>
    ensures { KeepsPlan F.Shelf (schedule_plan (Some name.now))
        (λ schedule. schedule) shelf.old shelf.new result }
{
    let bytes = fetch_file(alloc, shelf, File::Stimulus, name)?;
    match read_stimulus(alloc, &bytes) {
        Ok(schedule) => Ok(schedule),
        Err(StimFault::Memory) => Err(Fault::Memory),
        Err(StimFault::At { line, kind }) => Err(Fault::Stim(line, kind)),
    }
}

/// The lines of each block in the stimulus of two, and none where no stimulus is named.
pub fn read_schedules<F: Shelf>(
    alloc: Global,
    shelf: &mut F,
    name: Option<&str>,
) -> Result<(Schedule, Schedule), Fault>
    ensures { KeepsPlan F.Shelf (schedules_plan (option_map (λ t. t.now) name.entry))
        (λ lines. (lines.0, lines.1)) shelf.old shelf.new result }
{
    match name {
        Some(name) => read_named_pair(alloc, shelf, name),
        None => Ok((Schedule::empty(alloc), Schedule::empty(alloc))),
    }
}

/// The lines of each block in the stimulus of this name.
#[tactic(auto, unfolding(crate::specs::Judged::pair_stimulus_at))]
fn read_named_pair<F: Shelf>(
    alloc: Global,
    shelf: &mut F,
    name: &str,
) -> Result<(Schedule, Schedule), Fault>
    ensures { KeepsPlan F.Shelf (schedules_plan (Some name.now))
        (λ lines. (lines.0, lines.1)) shelf.old shelf.new result }
{
    let bytes = fetch_file(alloc, shelf, File::Stimulus, name)?;
    match read_pair_stimulus(alloc, &bytes) {
        Ok(lines) => Ok(lines),
        Err(StimFault::Memory) => Err(Fault::Memory),
        Err(StimFault::At { line, kind }) => Err(Fault::Stim(line, kind)),
    }
}
