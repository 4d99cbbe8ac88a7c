//! The clocks of a run: those that are worked out singly, and those between, which are leapt over.
ghost use Rattle.std.specs.Prelude.{◌≡◌, ℕ, ◌+◌, ◌-◌, ◌<◌, ◌≤◌, ◌^◌, false, true};
ghost use Rattle.idle_engine.specs.Kinds.{IsUntil, IsCalm};

use crate::kind::Runs;

/// What one clock leaves to the clocks after it.
#[derive(Clone, Copy)]
pub(crate) struct Stepped {
    /// The clock up to which the system does nothing, or the end.
    pub until: u64,
    /// Whether what is shown may be new.
    pub is_new: bool,
}

/// Works out one clock, before the run's `end`. The system does nothing up to `until`, so before that clock the ports
/// aren't asked. The result has that clock as seen from the next one: the same where nobody did anything at a FIFO.
// A part of each run's loop: as a call of its own it costs a fifth of the instructions of a clock with its text.
#[inline(always)]
pub(crate) fn step<V, P, R: Runs<V, P>>(
    runs: &mut R,
    ports: &mut P,
    clock: u64,
    until: u64,
    end: u64,
) -> Stepped
    requires clock { R.kind.in_clock (R.hosted runs.old ports.old) clock }
    requires inside { clock < end }
    requires within { end ≤ 10 ^ 12 }
    requires may_ask { R.may_ask ports.old clock }
    requires until { IsUntil (R.kind.acts (R.lines ports.old) (R.hosted runs.old ports.old)) end clock until }
    ensures run { R.hosted runs.new ports.new
        ≡ R.kind.next (R.lines ports.old) (R.hosted runs.old ports.old) }
    ensures lines { R.lines ports.new ≡ R.lines ports.old }
    ensures may_ask { R.may_ask ports.new (clock + 1) }
    ensures until { IsUntil (R.kind.acts (R.lines ports.new) (R.hosted runs.new ports.new))
        end (clock + 1) result.until }
    ensures shown { result.is_new ≡ false
        → R.kind.shown (R.hosted runs.new ports.new) ≡ R.kind.shown (R.hosted runs.old ports.old) }
    ensures calls { R.calls runs.new ≡ R.calls runs.old + 1 }
{
    runs.is_of_its_kind(ports);
    if clock >= until {
        runs.asked_clock(ports, clock);
        return Stepped {
            until: runs.next_due(ports, clock + 1, end),
            is_new: true,
        };
    }
    let news = runs.quiet_clock(ports, clock);
    if news.fifos {
        Stepped {
            until: runs.next_due(ports, clock + 1, end),
            is_new: news.shown,
        }
    } else {
        Stepped {
            until,
            is_new: news.shown,
        }
    }
}

/// Leaps over the clocks from this one on in which nothing can move, and gives the first that it leaves: one that stirs, or
/// that up to which the system does nothing.
#[inline(always)]
pub(crate) fn leap<V, P, R: Runs<V, P>>(runs: &mut R, ports: &P, clock: u64, until: u64) -> u64
    requires clock { R.kind.in_clock (R.hosted runs.old ports.now) clock }
    requires within { until ≤ 10 ^ 12 }
    requires ahead { clock ≤ until }
    ensures from { clock ≤ result }
    ensures until { result ≤ until }
    ensures run { R.hosted runs.new ports.now
        ≡ R.kind.quiet_from (R.hosted runs.old ports.now) (result - clock) }
    ensures calm { IsCalm R.kind (R.hosted runs.old ports.now) (result - clock) }
    ensures moves_on { result < until → R.kind.moves_on (R.hosted runs.new ports.now) ≡ true }
    ensures calls { R.calls runs.new ≡ R.calls runs.old }
{
    runs.is_of_its_kind(ports);
    if runs.begins_or_changes(ports) || clock >= until {
        return clock;
    }
    let clocks = runs.next_stir(ports, until - clock);
    if clocks == 0 {
        return clock;
    }
    runs.leap(ports, clock, clocks);
    clock + clocks
}
