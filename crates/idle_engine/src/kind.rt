//! What a run has to offer so that `run` can run it: one block with a stimulus, or two with one each.
ghost use Rattle.std.specs.Prelude.{◌≡◌, ℕ, ◌+◌, ◌<◌, ◌≤◌, ◌^◌, Bool, true, false};
ghost use Rattle.std.specs.Cow.{cow_value};
ghost use Rattle.dreq_pacing.specs.Ports.{IsFirst};
ghost use Rattle.idle_engine.specs.Kinds.{Course, RunKind, IsKind, IsUntil, IsCalm};

use block_core::News;
use std::borrow::Cow;

/// A run with ports P that shows a V after each clock.
pub(crate) trait Runs<V, P> {
    /// The states of a run, with what is left of the transfers.
    ghost Hosted: { Type 0 };

    /// The lines that it runs with.
    ghost Lines: { Type 0 };

    /// What happens in its clocks.
    ghost kind: { RunKind Hosted Lines V };

    /// Its state now.
    ghost hosted: { Self → P → Hosted };

    /// Its run from now on, if it is in clock 0.
    ghost course: { Self → P → Course Hosted V };

    /// The lines of the ports.
    ghost lines: { P → Lines };

    /// The ports may be asked of this clock next: no line of a clock before it is left out.
    ghost may_ask: { P → ℕ → Type 0 };

    /// How many clocks were worked out singly.
    ghost calls: { Self → ℕ };

    /// The laws of the kind, and that the ports needn't be asked of clocks in which the system doesn't act. This call does nothing.
    fn is_of_its_kind(&self, ports: &P)
        ensures kind { IsKind kind }
        ensures waits { (p : P) (h : Hosted) (n m : ℕ) → may_ask p n → n ≤ m
            → ((c : ℕ) → n ≤ c → c < m → kind.acts (lines p) h c ≡ false) → may_ask p m };

    /// What it shows, lent where it is kept as one value.
    fn shown(&self, ports: &P) -> Cow<'_, V>
        ensures { cow_value result ≡ kind.shown (hosted self.now ports.now) };

    /// Works out a clock for which the ports are asked.
    fn asked_clock(&mut self, ports: &mut P, clock: u64)
        requires clock { kind.in_clock (hosted self.old ports.old) clock }
        requires within { clock < 2 ^ 40 }
        requires may_ask { may_ask ports.old clock }
        ensures run { hosted self.new ports.new ≡ kind.next (lines ports.old) (hosted self.old ports.old) }
        ensures lines { lines ports.new ≡ lines ports.old }
        ensures may_ask { may_ask ports.new (clock + 1) }
        ensures calls { calls self.new ≡ calls self.old + 1 };

    /// Works out a clock in which the system does nothing, and returns what it may have changed.
    fn quiet_clock(&mut self, ports: &P, clock: u64) -> News
        requires clock { kind.in_clock (hosted self.old ports.now) clock }
        requires within { clock < 2 ^ 40 }
        ensures run { hosted self.new ports.now ≡ kind.quiet_next (hosted self.old ports.now) }
        ensures asks { result.fifos ≡ false → (l : Lines) (n : ℕ)
            → kind.acts l (hosted self.new ports.now) n ≡ kind.acts l (hosted self.old ports.now) n }
        ensures shown { result.shown ≡ false
            → kind.shown (hosted self.new ports.now) ≡ kind.shown (hosted self.old ports.now) }
        ensures calls { calls self.new ≡ calls self.old + 1 };

    /// The first clock from this one on in which the system acts, while the machines ask for what they ask now, or the end.
    fn next_due(&self, ports: &P, clock: u64, end: u64) -> u64
        requires may_ask { may_ask ports.now clock }
        requires ahead { clock ≤ end }
        requires within { end ≤ 10 ^ 12 }
        ensures { IsUntil (kind.acts (lines ports.now) (hosted self.now ports.now)) end clock result };

    /// True only if it moves on in the present clock, if the system does nothing in it; false says nothing. No machine
    /// is asked what it sees.
    fn begins_or_changes(&self, ports: &P) -> bool
        ensures { result ≡ true → kind.moves_on (hosted self.now ports.now) ≡ true };

    /// How many clocks go by before the first in which it moves on, if the system does nothing, up to the most.
    fn next_stir(&self, ports: &P, most: u64) -> u64
        ensures { IsUntil (λ n. kind.moves_on (kind.quiet_from (hosted self.now ports.now) n))
            most 0 result };

    /// So many clocks at once, in none of which it moves on, and in which the system does nothing.
    fn leap(&mut self, ports: &P, clock: u64, clocks: u64)
        requires clock { kind.in_clock (hosted self.old ports.now) clock }
        requires within { clock + clocks ≤ 2 ^ 40 }
        requires rests { (n : ℕ) → n < clocks
            → kind.moves_on (kind.quiet_from (hosted self.old ports.now) n) ≡ false }
        ensures run { hosted self.new ports.now ≡ kind.quiet_from (hosted self.old ports.now) clocks }
        ensures calm { IsCalm kind (hosted self.old ports.now) clocks }
        ensures calls { calls self.new ≡ calls self.old };
}

/// The first number that passes a test, or the end where that comes first.
#[inline]
pub(crate) fn until(first: Option<u64>, end: u64) -> u64
    ensures { (test : ℕ → Bool) (from : ℕ) → from ≤ end → IsFirst test from first
        → IsUntil test end from result }
{
    match first {
        Some(first) => first.min(end),
        None => end,
    }
}
