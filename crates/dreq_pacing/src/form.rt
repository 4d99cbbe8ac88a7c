//! One line of a stimulus: first its form, then its ranges (choice of this profile).
ghost use Rattle.std.specs.Prelude.{◌≡◌, ◌≤◌, ◌∷◌, false, Some, IfOk, length, min};
ghost use Rattle.dreq_pacing.specs.Lines.{IsLineOf};
ghost use Rattle.dreq_pacing.specs.Form as spec;
ghost use Rattle.dreq_pacing.specs.Short as short;
ghost use Rattle.dreq_pacing.specs.declared.verb.Verb.TheVariants.{Feed};

use crate::act::{read_feed, short_act};
use crate::fault::StimKind;
use crate::fields::Fields;
use crate::line::Line;
use crate::number::{in_range, is_number, number_of, within};
use crate::verb::{Verb, verb_of};
use std::alloc::{AllocError, Global};

/// The last clock that a line may have.
const LAST_CLOCK: u64 = 1_000_000_000_000;

/// The line of a clock's field and those after it, beside so many machines, in a file of version 1 or 2. The error is
/// want of memory.
pub fn read_line(
    alloc: Global,
    machines: u8,
    two: bool,
    clock: &[u8],
    after: &mut Fields,
) -> Result<Result<Line, StimKind>, AllocError>
    requires { 1 ≤ machines }
    ensures value { IfOk result (λ said. said ≡ spec.line_of machines two (clock.now ∷ after.old.fields)) }
    ensures left { after.new.left ≡ after.old.left }
    ensures line { IfOk result (λ said. IfOk said (IsLineOf machines)) }
{
    let Some(name) = after.next() else {
        return Ok(Err(StimKind::BadLine));
    };
    match verb_of(name, two) {
        Some(Verb::Feed) => read_feed_line(alloc, machines, clock, &after.again()),
        Some(verb) => Ok(read_short_line(machines, verb, clock, after)),
        None => Ok(Err(StimKind::BadLine)),
    }
}

/// The line with the word `feed`, by its clock's field and those after the word.
fn read_feed_line(
    alloc: Global,
    machines: u8,
    clock: &[u8],
    args: &Fields,
) -> Result<Result<Line, StimKind>, AllocError>
    requires { 1 ≤ machines }
    ensures value { IfOk result (λ said. said ≡ spec.line_by machines Feed clock.now args.now.fields) }
    ensures line { IfOk result (λ said. IfOk said (IsLineOf machines)) }
{
    if !is_feed(clock, args) {
        return Ok(Err(StimKind::BadLine));
    }
    let Some(clock) = in_range(clock, 0, LAST_CLOCK) else {
        return Ok(Err(StimKind::Range));
    };
    match read_feed(alloc, machines, args)? {
        Some(act) => Ok(Ok(Line { clock, act })),
        None => Ok(Err(StimKind::Range)),
    }
}

/// Whether all fields are numbers, and at least three come after the word.
fn is_feed(clock: &[u8], args: &Fields) -> bool
    ensures { result ≡ spec.has_form Feed clock.now args.now.fields }
{
    is_number(clock) && count_to_three(args) == 3 && are_numbers(args)
}

fn are_numbers(fields: &Fields) -> bool
    ensures { result ≡ spec.are_numbers fields.now.fields }
{
    let mut rest = fields.again();
    while let Some(field) = rest.next() {
        if !is_number(field) {
            return false;
        }
    }
    true
}

/// How many fields there are, or three where there are more.
fn count_to_three(fields: &Fields) -> usize
    ensures { result ≡ min (length fields.now.fields) 3 }
{
    let mut rest = fields.again();
    let mut count = 0;
    while count < 3 && rest.next().is_some() {
        count += 1;
    }
    count
}

/// The line with another word, by its clock's field and those after the word. Each number is worked out once.
#[tactic(auto, using(crate::proofs::Shorts::short_is))]
fn read_short_line(
    machines: u8,
    verb: Verb,
    clock: &[u8],
    args: &mut Fields,
) -> Result<Line, StimKind>
    requires some { 1 ≤ machines }
    requires short { spec.fits verb 3 ≡ false }
    ensures value { result ≡ spec.line_by machines verb clock.now args.old.fields }
    ensures left { args.new.left ≡ args.old.left }
    ensures line { IfOk result (IsLineOf machines) }
{
    short_line(machines, verb, number_of(clock), one_or_two(args))
}

/// The numbers of one field or two, if there are so many and they are numbers.
fn one_or_two(fields: &mut Fields) -> Option<(u64, Option<u64>)>
    ensures numbers { result ≡ short.one_or_two fields.old.fields }
    ensures left { fields.new.left ≡ fields.old.left }
{
    let first = number_of(fields.next()?)?;
    let Some(second) = fields.next() else {
        return Some((first, None));
    };
    if !fields.is_done() {
        return None;
    }
    Some((first, Some(number_of(second)?)))
}

/// The line of these numbers, or what is wrong with it.
fn short_line(
    machines: u8,
    verb: Verb,
    clock: Option<u64>,
    numbers: Option<(u64, Option<u64>)>,
) -> Result<Line, StimKind>
    requires { 1 ≤ machines }
    ensures value { result ≡ short.short_line machines verb clock numbers }
    ensures line { IfOk result (IsLineOf machines) }
{
    let (Some(clock), Some((first, second))) = (clock, numbers) else {
        return Err(StimKind::BadLine);
    };
    if !fits(verb, second) {
        return Err(StimKind::BadLine);
    }
    let Some(clock) = within(Some(clock), 0, LAST_CLOCK) else {
        return Err(StimKind::Range);
    };
    match short_act(machines, verb, Some(first), second) {
        Some(act) => Ok(Line { clock, act }),
        None => Err(StimKind::Range),
    }
}

/// Whether a word wants one field or two after it, as there are.
fn fits(verb: Verb, second: Option<u64>) -> bool
    ensures { result ≡ spec.fits verb (short.count_of second) }
{
    match verb {
        Verb::Pin | Verb::Tx | Verb::Drain => second.is_some(),
        Verb::Rx | Verb::Enable | Verb::Disable | Verb::Restart => second.is_none(),
        Verb::Feed => false,
    }
}
