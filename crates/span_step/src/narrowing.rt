//! How far X and Y are followed after a row, and in which ranges they are assumed to be.
ghost use Rattle.std.specs.Prelude.{◌≡◌, ◌<◌, ◌≤◌, None, length, slice_index_or};
ghost use Rattle.span_step.specs.Narrowing as spec;

use crate::context::Context;
use crate::outcome::ContextOutcome;
use crate::stepped::Next;
use pin_matrix::{Assumption, Follow, Range, Span};

/// What is known of X and Y after a row is narrowed by this.
#[derive(Clone, Copy)]
pub struct Narrowing {
    /// How far they are followed.
    pub follow: Follow,
    /// Where X is assumed to be. A range without a number is one that nothing meets.
    pub x: Option<Range>,
    /// Where Y is.
    pub y: Option<Range>,
}

impl Narrowing {
    /// Where nothing is assumed.
    pub(crate) fn wide() -> Narrowing {
        Narrowing {
            follow: Follow { x: 31, y: 31 },
            x: None,
            y: None,
        }
    }

    /// After the instruction at an address.
    #[tactic(auto, unfolding(crate::specs::Narrowing::narrowing_after))]
    pub(crate) fn after(span: &Span, address: u8) -> Narrowing
        ensures { result ≡ spec.narrowing_after span.now address }
    {
        let (x, y) = assumed_at(span.assume.as_slice(), address);
        Narrowing {
            follow: span.assume.follow(),
            x,
            y,
        }
    }

    /// Whether nothing is assumed.
    pub fn is_wide(&self) -> bool
        ensures { result ≡ spec.is_wide self.now }
    {
        self.x.is_none() && self.y.is_none()
    }

    /// Whether nothing that is known at the end of a course is so as it is assumed.
    pub(crate) fn is_unmet(&self, end: &Next) -> bool
        ensures { result ≡ spec.is_unmet self.now end.now }
    {
        self.xs(end).len() == 0 || self.ys(end).len() == 0
    }

    /// What may be known of X after the end of a course.
    pub(crate) fn xs(&self, end: &Next) -> Values
        ensures { spec.values_of result ≡ spec.kept self.now.x end.now.context.x }
    {
        kept(self.x, end.context.x)
    }

    /// The same of Y.
    pub(crate) fn ys(&self, end: &Next) -> Values
        ensures { spec.values_of result ≡ spec.kept self.now.y end.now.context.y }
    {
        kept(self.y, end.context.y)
    }

    /// What an instruction does, with what is known of X and Y at the end of its courses.
    pub(crate) fn held(&self, outcome: &ContextOutcome) -> ContextOutcome
        ensures { result ≡ spec.with_held self.now outcome.now }
    {
        ContextOutcome {
            x: held(self.follow.x, self.x, outcome.x),
            y: held(self.follow.y, self.y, outcome.y),
            ..*outcome
        }
    }
}

/// The ranges in which X and Y are assumed to be at an address: where several assumptions are of it, what they have in
/// common.
#[tactic(auto, unfolding(crate::specs::Narrowing::with_assumptions))]
fn assumed_at(assumptions: &[Assumption], address: u8) -> (Option<Range>, Option<Range>)
    ensures { result ≡ spec.assumed_at assumptions.now address }
{
    let mut x = None;
    let mut y = None;
    for assumption in assumptions {
        if assumption.address == address {
            x = meet(x, assumption.x);
            y = meet(y, assumption.y);
        }
    }
    (x, y)
}

/// What two ranges have in common.
fn meet(range: Option<Range>, other: Option<Range>) -> Option<Range>
    ensures { result ≡ spec.meet range other }
{
    match (range, other) {
        (None, _) => other,
        (_, None) => range,
        (Some(range), Some(other)) => Some(Range {
            lo: range.lo.max(other.lo),
            hi: range.hi.min(other.hi),
        }),
    }
}

/// What may be known of X or Y: one, or each number of a range.
#[derive(Clone, Copy)]
pub(crate) enum Values {
    One(Option<u16>),
    Each(Range),
}

impl Values {
    /// How many.
    pub(crate) fn len(self) -> usize
        ensures value { result ≡ length (spec.values_of self) }
        ensures few { result ≤ 65536 }
    {
        match self {
            Values::One(_) => 1,
            Values::Each(range) => numbers_in(range),
        }
    }

    /// The one at a place.
    pub(crate) fn at(self, place: usize) -> Option<u16>
        requires { place < length (spec.values_of self) }
        ensures { result ≡ slice_index_or (spec.values_of self) place None }
    {
        match self {
            Values::One(known) => known,
            Values::Each(range) => Some((usize::from(range.lo) + place) as u16),
        }
    }
}

/// What is known of X or Y that is followed so far and may be assumed to be in a range.
fn held(limit: u16, range: Option<Range>, known: Option<u16>) -> Option<u16>
    ensures { result ≡ spec.held limit range known }
{
    match range {
        None => followed_to(limit, known),
        Some(_) => known,
    }
}

/// What may be known of X or Y that may be assumed to be in a range.
fn kept(range: Option<Range>, known: Option<u16>) -> Values
    ensures { spec.values_of result ≡ spec.kept range known }
{
    match range {
        None => Values::One(known),
        Some(range) => match known {
            None => Values::Each(range),
            Some(number) if range.lo <= number && number <= range.hi => Values::One(known),
            Some(_) => Values::Each(Range { lo: 1, hi: 0 }),
        },
    }
}

/// How many numbers a range has.
fn numbers_in(range: Range) -> usize
    ensures { result ≡ spec.numbers_in range }
{
    (usize::from(range.hi) + 1).saturating_sub(usize::from(range.lo))
}

/// What is known, as far as it is followed.
pub fn followed_to(limit: u16, known: Option<u16>) -> Option<u16>
    ensures { result ≡ spec.followed_to limit known }
{
    match known {
        Some(number) if number <= limit => known,
        _ => None,
    }
}

/// The end of a course where this is known of X and Y.
pub(crate) fn knowing(end: &Next, x: Option<u16>, y: Option<u16>) -> Next
    ensures { result ≡ spec.knowing end.now x y }
{
    Next {
        context: Context {
            x,
            y,
            ..end.context
        },
        ages: end.ages,
        passes: end.passes,
    }
}
