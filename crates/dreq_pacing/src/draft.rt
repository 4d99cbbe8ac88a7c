//! The lines of a stimulus as they are read one after the other: their order, and which accesses they have taken.
ghost use Rattle.std.specs.Prelude.{◌≡◌, ◌≤◌, ◌<◌, false, IfOk, IfSome, MatchOption, length, []};
ghost use Rattle.dreq_pacing.specs.Lines as spec;
ghost use Rattle.dreq_pacing.specs.Lines.{IsLineOf, IsScheduleOf, is_crowded};
ghost use Rattle.dreq_pacing.specs.Drafts.{first_draft, objection, with_line, taken_at, marked, still_taken};

use crate::fault::StimKind;
use crate::line::{Line, LineAct};
use std::alloc::{AllocFailed, Global};
use std::marker::Model;

/// The lines read so far, beside so many machines, 1 to 8, and the clock of the last of them.
#[derive(Drop)]
pub struct StimulusDraft {
    machines: u8,
    lines: Vec<Line>,
    clock: u64,
    /// The transfers that the file has: the machines' feeds, then their drains.
    transfers: [bool; 16],
    /// The accesses that the clock has: the machines' words, reads, enablings or disablings, restarts.
    accesses: [bool; 32],
}

impl Model for StimulusDraft {
    ghost use Rattle.dreq_pacing.specs.Drafts.{Lines, IsDraft};

    ghost Value = { Lines };

    ghost view = { λ d. record { machines = d.machines; lines = d.lines.items; clock = d.clock } };

    ghost invariant = { λ d. IsDraft d.machines d.lines.items d.clock d.transfers d.accesses };
}

impl StimulusDraft {
    /// No line so far, beside so many machines, 1 to 8. It takes no memory.
    pub fn new(alloc: Global, machines: u8) -> StimulusDraft
        requires { (1 ≤ machines) × (machines ≤ 8) }
        ensures { result ≡ first_draft machines }
    {
        StimulusDraft {
            machines,
            lines: Vec::new(alloc),
            clock: 0,
            transfers: [false; 16],
            accesses: [false; 32],
        }
    }

    /// How many machines lines may name, 1 to 8.
    pub fn machines(&self) -> u8
        ensures value { result ≡ self.now.machines }
        ensures some { 1 ≤ result }
    {
        self.machines
    }

    /// One line more, or what is wrong with it beside those before. The error is want of memory.
    pub fn add(&mut self, line: Line) -> Result<Option<StimKind>, AllocFailed<Line>>
        requires { IsLineOf self.old.machines line }
        ensures kind { IfOk result (λ kind. kind ≡ objection self.old line) }
        ensures after { IfOk result (λ kind. MatchOption kind (self.new ≡ with_line self.old line)
            (λ _. self.new ≡ self.old)) }
    {
        if line.clock < self.clock {
            return Ok(Some(StimKind::Backwards));
        }
        if self.is_crowded(&line) {
            return Ok(Some(StimKind::Crowded));
        }
        self.put(line)?;
        Ok(None)
    }

    /// The lines.
    pub fn finish(self) -> Vec<Line>
        ensures value { result.items ≡ self.lines }
        ensures schedule { IsScheduleOf self.machines result.items }
    {
        self.lines
    }

    /// Whether the line is a second transfer in the file, or a second access in its clock.
    fn is_crowded(&self, line: &Line) -> bool
        requires line { IsLineOf self.now.machines line.now }
        requires in_order { self.now.clock ≤ line.now.clock }
        ensures { result ≡ is_crowded self.now.lines line.now }
    {
        self.has_transfer(&line.act) || self.has_access(line.clock, &line.act)
    }

    fn has_transfer(&self, act: &LineAct) -> bool
        requires { spec.IsActOf self.now.machines act.now }
        ensures { result ≡ spec.has_transfer (spec.transfer_of act.now) self.now.lines }
    {
        has_place(&self.transfers, transfer_of(act))
    }

    fn has_access(&self, clock: u64, act: &LineAct) -> bool
        requires act { spec.IsActOf self.now.machines act.now }
        requires in_order { self.now.clock ≤ clock }
        ensures { result ≡ spec.has_access (spec.access_of act.now) clock self.now.lines }
    {
        if clock == self.clock {
            has_place(&self.accesses, access_of(act))
        } else {
            false
        }
    }

    /// One line more, which is in order and crowds none.
    fn put(&mut self, line: Line) -> Result<(), AllocFailed<Line>>
        requires line { IsLineOf self.old.machines line }
        requires in_order { self.old.clock ≤ line.clock }
        requires apart { is_crowded self.old.lines line ≡ false }
        ensures { IfOk result (λ _. self.new ≡ with_line self.old line) }
    {
        let clock = line.clock;
        let same_clock = clock == self.clock;
        let transfer = transfer_of(&line.act);
        let access = access_of(&line.act);
        self.lines.push(line)?;
        mark(&mut self.transfers, transfer);
        keep_if(&mut self.accesses, same_clock);
        mark(&mut self.accesses, access);
        self.clock = clock;
        Ok(())
    }
}

/// The place of a transfer among those of a file.
fn transfer_of(act: &LineAct) -> Option<usize>
    requires { spec.IsActOf 8 act.now }
    ensures place { result ≡ spec.transfer_of act.now }
    ensures below { IfSome result (λ place. place < 16) }
{
    match act {
        LineAct::Feed { machine, .. } => Some(usize::from(*machine)),
        LineAct::Drain { machine, .. } => Some(8 + usize::from(*machine)),
        _ => None,
    }
}

/// The place of another access among those of a clock.
fn access_of(act: &LineAct) -> Option<usize>
    requires { spec.IsActOf 8 act.now }
    ensures place { result ≡ spec.access_of act.now }
    ensures below { IfSome result (λ place. place < 32) }
{
    match act {
        LineAct::Tx { machine, .. } => Some(usize::from(*machine)),
        LineAct::Rx { machine } => Some(8 + usize::from(*machine)),
        LineAct::Enable { machine } | LineAct::Disable { machine } => Some(
            16 + usize::from(*machine),
        ),
        LineAct::Restart { machine } => Some(24 + usize::from(*machine)),
        _ => None,
    }
}

/// Whether a place is taken.
fn has_place(taken: &[bool], place: Option<usize>) -> bool
    requires { IfSome place (λ p. p < length taken.now) }
    ensures { result ≡ taken_at place taken.now }
{
    match place {
        Some(place) => taken[place],
        None => false,
    }
}

/// Marks a place as taken.
fn mark(taken: &mut [bool], place: Option<usize>)
    requires { IfSome place (λ p. p < length taken.old) }
    ensures { taken.new ≡ marked place taken.old }
{
    if let Some(place) = place {
        taken[place] = true;
    }
}

/// Frees all places before the first line of a clock, and none before a later one.
fn keep_if(taken: &mut [bool; 32], same_clock: bool)
    ensures { taken.new ≡ still_taken same_clock taken.old }
{
    if !same_clock {
        *taken = [false; 32];
    }
}
