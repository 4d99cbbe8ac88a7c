//! What a span assumes of X and Y, and how far they are followed for it.
ghost use Rattle.std.specs.Prelude.{◌≡◌, max};
ghost use Rattle.pin_matrix.specs.Assumptions as spec;
ghost use Rattle.pin_matrix.specs.Assumptions.{most_in};

use std::alloc::Global;
use std::marker::Model;

/// The most assumptions of a span.
const MOST_ASSUMPTIONS: usize = 16;

/// The most pairs of what may be known of X and of Y, each number or any.
const MOST_PAIRS: u32 = 131_072;

/// The numbers from the first to the second.
#[derive(Clone, Copy)]
pub struct Range {
    pub lo: u16,
    pub hi: u16,
}

/// In which ranges X and Y are once the instruction at an address has finished, with its delay.
#[derive(Clone, Copy)]
pub struct Assumption {
    /// 0 to 31.
    pub address: u8,
    /// `None` where nothing is assumed.
    pub x: Option<Range>,
    /// As of X.
    pub y: Option<Range>,
}

/// How far X and Y are followed: up to these numbers.
#[derive(Clone, Copy)]
pub struct Follow {
    pub x: u16,
    pub y: u16,
}

/// The assumptions of a span: at most 16, each with ranges that have a number, and with few enough pairs.
#[derive(Drop)]
pub struct Assumptions {
    items: Vec<Assumption>,
    follow: Follow,
}

impl Model for Assumptions {
    ghost use Rattle.std.specs.Prelude.{◌≡◌, List, IsTrue};
    ghost use Rattle.pin_matrix.specs.declared.assume.Assumption.{Assumption};
    ghost use Rattle.pin_matrix.specs.Assumptions.{are_assumptions, follow_of};

    ghost Value = { List Assumption };

    ghost view = { λ a. a.items.items };

    ghost invariant = { λ a. IsTrue (are_assumptions a.items.items) × (a.follow ≡ follow_of a.items.items) };
}

impl Assumptions {
    ghost use Rattle.std.specs.Prelude.{◌≡◌, if◌then◌else◌, Some, None, [], IsTrue};
    ghost use Rattle.pin_matrix.specs.Assumptions.{are_assumptions, follow_of};

    /// These assumptions, unless there are too many, or one is of no address or of a range without a number, or there are too many
    /// pairs. It takes no memory.
    pub fn new(items: Vec<Assumption>) -> Option<Assumptions>
        ensures { result ≡ (if are_assumptions items.items then Some items.items else None) }
    {
        if are_assumptions(&items) {
            let follow = follow_of(&items);
            Some(Assumptions { items, follow })
        } else {
            None
        }
    }

    /// No assumptions. It takes no memory.
    pub fn empty(alloc: Global) -> Assumptions
        ensures { result ≡ [] }
    {
        Assumptions {
            items: Vec::new(alloc),
            follow: Follow { x: 31, y: 31 },
        }
    }

    /// The assumptions in their order.
    pub fn as_slice(&self) -> &[Assumption]
        ensures list { result.now ≡ self.now }
        ensures kept { IsTrue (are_assumptions self.now) }
    {
        self.items.as_slice()
    }

    /// How far X and Y are followed.
    pub fn follow(&self) -> Follow
        ensures { result ≡ follow_of self.now }
    {
        self.follow
    }

    /// The list that it was made of, with its memory.
    pub fn into_vec(self) -> Vec<Assumption>
        ensures { result.items ≡ self }
    {
        self.items
    }
}

/// Whether a span may have these assumptions.
fn are_assumptions(items: &[Assumption]) -> bool
    ensures { result ≡ spec.are_assumptions items.now }
{
    are_few(items) && are_few_pairs(most_x(items), most_y(items))
}

/// Whether there are at most 16, each as a span may have it.
fn are_few(items: &[Assumption]) -> bool
    ensures { result ≡ spec.are_few items.now }
{
    items.len() <= MOST_ASSUMPTIONS && is_each_one(items)
}

/// Whether each is one that a span may have.
fn is_each_one(items: &[Assumption]) -> bool
    ensures { result ≡ spec.is_each_one items.now }
{
    items.iter().all(|item| is_assumption(item))
}

/// Whether the address is one, and each range has a number.
fn is_assumption(item: &Assumption) -> bool
    ensures { result ≡ spec.is_assumption item.now }
{
    item.address < 32 && has_number(item.x) && has_number(item.y)
}

/// Whether a range has a number.
fn has_number(range: Option<Range>) -> bool
    ensures { result ≡ spec.has_number range }
{
    match range {
        Some(range) => range.lo <= range.hi,
        None => true,
    }
}

/// The greatest number of the ranges of X, 0 where there are none.
fn most_x(items: &[Assumption]) -> u16
    ensures { result ≡ spec.most_x items.now }
{
    let mut most = 0;
    for item in items {
        most = greater(most, end_of(item.x));
    }
    most
}

/// The same of Y.
fn most_y(items: &[Assumption]) -> u16
    ensures { result ≡ spec.most_y items.now }
{
    let mut most = 0;
    for item in items {
        most = greater(most, end_of(item.y));
    }
    most
}

/// The greater of two numbers.
fn greater(number: u16, other: u16) -> u16
    ensures { result ≡ max number other }
{
    number.max(other)
}

/// The greatest number of a range, 0 where there is none.
fn end_of(range: Option<Range>) -> u16
    ensures { result ≡ most_in range }
{
    match range {
        Some(range) => range.hi,
        None => 0,
    }
}

/// Whether X and Y up to these have few enough pairs.
pub fn are_few_pairs(x: u16, y: u16) -> bool
    ensures { result ≡ spec.are_few_pairs x y }
{
    (u64::from(x) + 2) * (u64::from(y) + 2) <= u64::from(MOST_PAIRS)
}

/// How far X and Y are followed by a span with these assumptions.
#[tactic(auto, unfolding(crate::specs::Assumptions::follow_of))]
fn follow_of(items: &[Assumption]) -> Follow
    ensures { result ≡ spec.follow_of items.now }
{
    let x = most_x(items);
    let y = most_y(items);
    Follow {
        x: x.max(usual_beside(y)),
        y: y.max(usual_beside(x)),
    }
}

/// How far a register without ranges is followed where the other one is up to this.
fn usual_beside(other: u16) -> u16
    ensures { result ≡ spec.usual_beside other }
{
    let fitting = MOST_PAIRS / (u32::from(other) + 2);
    fitting.saturating_sub(2).min(31) as u16
}
