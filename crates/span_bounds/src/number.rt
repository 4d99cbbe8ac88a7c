//! The contexts in order.
ghost use Rattle.std.specs.Prelude.{◌≡◌, ◌<◌, ◌≤◌, ◌+◌, ◌^◌, IsTrue};
ghost use Rattle.span_step.specs.Contexts as places;
ghost use Rattle.span_bounds.specs.Numbers as spec;

use pin_matrix::{Follow, Span};
use span_step::Context;

/// How many contexts there are: an address, X and Y with any, two levels.
#[tactic(auto, unfolding(crate::specs::Numbers::contexts))]
pub(crate) fn contexts(follow: Follow) -> usize
    ensures { result ≡ spec.contexts follow }
{
    4 * ((usize::from(follow.y) + 2) * ((usize::from(follow.x) + 2) * 32))
}

/// How many a span has: what it assumes has few enough pairs of X and Y.
pub(crate) fn contexts_of(span: &Span) -> usize
    ensures value { result ≡ spec.contexts_of span.now }
    ensures fits { result ≤ 2 ^ 24 }
{
    // A clause of this call, `kept`, bounds the pairs of X and Y.
    let _kept = span.assume.as_slice();
    contexts(span.assume.follow())
}

/// A context's place in the order: by address, X and Y, where any comes after the last that is followed, and then the levels.
pub fn number_of(follow: Follow, context: &Context) -> usize
    requires { IsTrue (places.is_placed follow context.now.address context.now.x context.now.y) }
    ensures value { result ≡ spec.number_of follow context.now }
    ensures below { result < spec.contexts follow }
{
    let x = known_number(follow.x, context.x);
    let y = known_number(follow.y, context.y);
    ((usize::from(context.address) * (usize::from(follow.x) + 2) + x) * (usize::from(follow.y) + 2)
        + y)
        * 4
        + 2 * usize::from(context.from)
        + usize::from(context.to)
}

/// Whether what is known of X and Y is followed so far.
pub(crate) fn is_placed(follow: Follow, context: &Context) -> bool
    ensures { result ≡ places.is_placed follow context.now.address context.now.x context.now.y }
{
    is_small(follow.x, context.x) && is_small(follow.y, context.y)
}

/// Whether what is known is no more than this.
fn is_small(most: u16, known: Option<u16>) -> bool
    ensures { result ≡ places.is_small most known }
{
    match known {
        Some(number) => number <= most,
        None => true,
    }
}

/// The place of what is known of X or Y.
fn known_number(most: u16, known: Option<u16>) -> usize
    requires { IsTrue (places.is_small most known) }
    ensures value { result ≡ spec.known_number most known }
    ensures below { result < most + 2 }
{
    match known {
        Some(number) => usize::from(number),
        None => usize::from(most) + 1,
    }
}

/// The context at a place.
#[tactic(auto, unfolding(crate::specs::Numbers::context_at))]
pub(crate) fn context_at(follow: Follow, number: usize) -> Context
    requires { number < spec.contexts follow }
    ensures { result ≡ spec.context_at follow number }
{
    let height = usize::from(follow.y) + 2;
    let width = usize::from(follow.x) + 2;
    let place = number / 4;
    let row = place / height;
    Context {
        address: (row / width) as u8,
        x: known_at(follow.x, row % width),
        y: known_at(follow.y, place % height),
        from: number / 2 % 2 == 1,
        to: number % 2 == 1,
    }
}

/// What is known of X or Y at a place.
fn known_at(most: u16, number: usize) -> Option<u16>
    requires { number < most + 2 }
    ensures { result ≡ spec.known_at most number }
{
    if number == usize::from(most) + 1 {
        None
    } else {
        Some(number as u16)
    }
}
