//! A stimulus, line by line: its version, and then its lines in order (choice of this profile).
ghost use Rattle.std.specs.Prelude.{◌≡◌, ◌∷◌, ◌<◌, ◌≤◌, Ok, Err, IfOk, IfErr, MatchOption};
ghost use Rattle.answers.specs.Answers.{Answers, Gives};
ghost use Rattle.dreq_pacing.specs.declared.fault.StimFault.TheVariants.{Memory};
ghost use Rattle.dreq_pacing.specs.Lines.{IsScheduleOf};
ghost use Rattle.dreq_pacing.specs.Form.{line_of};
ghost use Rattle.dreq_pacing.specs.Reading as spec;
ghost use Rattle.dreq_pacing.specs.Reading.{after_line, stimulus_of, told};
ghost use Rattle.dreq_pacing.specs.Blocks.{pair_stimulus_of};

use crate::blocks::split;
use crate::draft::StimulusDraft;
use crate::fault::{StimFault, StimKind};
use crate::fields::Fields;
use crate::form::read_line;
use crate::line::Line;
use crate::number::{in_range, is_number};
use crate::schedule::Schedule;
use std::alloc::Global;

/// The lines of a stimulus of one block, or its first fault. A machine is 0 to 3.
///
/// A file holds at most 1,000,000 lines with fields; how long it may be is up to the caller. It takes memory in
/// proportion to its lines with fields and to the words of its feeds.
#[tactic(auto, unfolding(crate::specs::Reading::stimulus_of))]
pub fn read_stimulus(alloc: Global, text: &[u8]) -> Result<Schedule, StimFault>
    ensures { Answers told result (stimulus_of text.now) }
{
    let lines = read_lines(alloc, 4, text)?;
    Ok(Schedule::of(lines))
}

/// The lines of a stimulus of two blocks on the same pins, for each block, or its first fault. A machine is 0 to 7,
/// where 4 to 7 are 0 to 3 of the second block. A line that drives a pin is for both.
///
/// All else is as for one block: clocks never fall from a line to the next, whichever block they are for, and a file
/// holds at most 1,000,000 lines with fields. It takes memory in proportion to them and to the words of the feeds.
#[tactic(auto, unfolding(crate::specs::Blocks::pair_stimulus_of))]
pub fn read_pair_stimulus(alloc: Global, text: &[u8]) -> Result<(Schedule, Schedule), StimFault>
    ensures { Answers told result (pair_stimulus_of text.now) }
{
    let lines = read_lines(alloc, 8, text)?;
    Ok(split(alloc, lines)?)
}

/// The lines of a text, beside so many machines, or its first fault.
fn read_lines(alloc: Global, machines: u8, text: &[u8]) -> Result<Vec<Line>, StimFault>
    requires { (1 ≤ machines) × (machines ≤ 8) }
    ensures value { Gives told (λ lines. lines.items) result (spec.read_of machines text.now) }
    ensures schedule { IfOk result (λ lines. IsScheduleOf machines lines.items) }
{
    let mut reader = Reader::new(alloc, machines);
    let mut rest = Some(text);
    let mut number = 1;
    while let Some(text) = rest {
        let mut fields = Fields::of_text(text);
        match reader.read(alloc, &mut fields)? {
            None => {}
            Some(kind) => return Err(StimFault::At { line: number, kind }),
        }
        rest = fields.after_line();
        number += 1;
    }
    Ok(reader.draft.finish())
}

/// What was read so far: how many lines with fields, whether the file is of version 2, and the lines.
#[derive(Drop)]
pub struct Reader {
    pub count: usize,
    pub two: bool,
    pub draft: StimulusDraft,
}

impl Reader {
    /// Nothing so far, beside so many machines. It takes no memory.
    fn new(alloc: Global, machines: u8) -> Reader
        requires { (1 ≤ machines) × (machines ≤ 8) }
        ensures { result ≡ spec.first_reader machines }
    {
        Reader {
            count: 0,
            two: false,
            draft: StimulusDraft::new(alloc, machines),
        }
    }

    /// One line on, or what is wrong with it. The error is want of memory.
    fn read(&mut self, alloc: Global, fields: &mut Fields) -> Result<Option<StimKind>, StimFault>
        ensures said { IfOk result (λ kind. MatchOption kind
            (after_line self.old fields.old.fields ≡ Ok self.new)
            (λ k. after_line self.old fields.old.fields ≡ Err k)) }
        ensures left { IfOk result (λ _. fields.new.left ≡ fields.old.left) }
        ensures machines { IfOk result (λ _. self.new.draft.machines ≡ self.old.draft.machines) }
        ensures memory { IfErr result (λ fault. fault ≡ Memory) }
    {
        let Some(first) = fields.next() else {
            return Ok(None);
        };
        if self.count >= 1_000_000 {
            return Ok(Some(StimKind::Many));
        }
        if self.count == 0 && first == b"version".as_slice() {
            return Ok(self.take_version(fields));
        }
        self.take_line(alloc, first, fields)
    }

    /// The version line, by the fields after its word.
    fn take_version(&mut self, args: &Fields) -> Option<StimKind>
        requires { self.old.count < 1000000 }
        ensures said { MatchOption result (spec.with_version self.old (spec.version_of args.now.fields) ≡ Ok self.new)
            (λ k. spec.with_version self.old (spec.version_of args.now.fields) ≡ Err k) }
        ensures machines { self.new.draft.machines ≡ self.old.draft.machines }
    {
        match version_of(args) {
            Ok(two) => {
                self.count += 1;
                self.two = two;
                None
            }
            Err(kind) => Some(kind),
        }
    }

    /// Another line, by its first field and those after it.
    fn take_line(
        &mut self,
        alloc: Global,
        first: &[u8],
        after: &mut Fields,
    ) -> Result<Option<StimKind>, StimFault>
        requires { self.old.count < 1000000 }
        ensures said { IfOk result (λ kind. MatchOption kind
            (spec.with_said self.old (line_of self.old.draft.machines self.old.two
            (first.now ∷ after.old.fields)) ≡ Ok self.new)
            (λ k. spec.with_said self.old (line_of self.old.draft.machines self.old.two
            (first.now ∷ after.old.fields)) ≡ Err k)) }
        ensures left { IfOk result (λ _. after.new.left ≡ after.old.left) }
        ensures machines { IfOk result (λ _. self.new.draft.machines ≡ self.old.draft.machines) }
        ensures memory { IfErr result (λ fault. fault ≡ Memory) }
    {
        match read_line(alloc, self.draft.machines(), self.two, first, after)? {
            Ok(line) => {
                let objection = self.draft.add(line)?;
                self.count += 1;
                Ok(objection)
            }
            Err(kind) => Ok(Some(kind)),
        }
    }
}

/// Whether the version is 2, by the fields after the word `version`.
fn version_of(args: &Fields) -> Result<bool, StimKind>
    ensures { result ≡ spec.version_of args.now.fields }
{
    let mut rest = args.again();
    let Some(number) = rest.next() else {
        return Err(StimKind::BadLine);
    };
    if rest.next().is_some() || !is_number(number) {
        return Err(StimKind::BadLine);
    }
    match in_range(number, 1, 2) {
        Some(version) => Ok(version == 2),
        None => Err(StimKind::Range),
    }
}
