//! What is known of what a span assumes of X and Y, clock by clock.
ghost use Rattle.std.specs.Prelude.{◌≡◌, ◌+◌};
ghost use Rattle.pin_matrix.specs.Assumptions as assumptions;
ghost use Rattle.span_meter.specs.Assumed as spec;
ghost use Rattle.span_meter.specs.SpokenMeters.{clocks_gone};

use block_core::MachineConduct;
use pin_matrix::{Assumption, Range};

/// What is known of the assumptions of one span.
#[derive(Clone, Copy)]
pub(crate) struct Assumed {
    /// Whether an instruction left X or Y otherwise than assumed.
    missed: bool,
    /// The clock in which the machine's delay is over, if no line acts on it any more.
    rests: Option<u64>,
}

impl Assumed {
    /// What is known before the first clock.
    pub(crate) fn new() -> Assumed
        ensures { result ≡ spec.nothing_missed }
    {
        Assumed {
            missed: false,
            rests: None,
        }
    }

    /// What is known after a clock in which the machine did this.
    pub(crate) fn after(
        self,
        clock: u64,
        assume: &[Assumption],
        did: &Option<MachineConduct>,
    ) -> Assumed
        ensures { result ≡ spec.assumed_where assume.now clock did.now self }
    {
        match did {
            Some(did) => {
                if self.is_over_before(clock) {
                    return self;
                }
                Assumed {
                    missed: self.missed || misses(assume, did),
                    rests: not_before(clock, did.rests),
                }
            }
            None => self,
        }
    }

    /// Whether X and Y are no longer as assumed, by a clock before this one.
    fn is_over_before(self, clock: u64) -> bool
        ensures { result ≡ spec.is_over_before clock self }
    {
        self.missed && ends_before(clock, self.rests)
    }

    /// The same of this clock or one before it.
    pub(crate) fn is_over_by(self, clock: u64) -> bool
        ensures { result ≡ spec.is_over_before (clock + 1) self }
    {
        self.missed && ends_by(clock, self.rests)
    }

    /// The clock in which they no longer are, where it is the last one that has gone by or one before it.
    pub(crate) fn end(self, gone: Option<u64>) -> Option<u64>
        ensures { result ≡ spec.end_before (clocks_gone gone) self }
    {
        match gone {
            Some(clock) if self.is_over_by(clock) => self.rests,
            _ => None,
        }
    }
}

/// Whether a machine finishes an instruction and leaves X or Y otherwise than assumed.
fn misses(assume: &[Assumption], did: &MachineConduct) -> bool
    ensures { result ≡ spec.misses assume.now did.now }
{
    did.finishes && !keeps(assume, did.pc, did.x, did.y)
}

/// Whether the instruction at an address that leaves these in X and Y leaves them as assumed.
fn keeps(assume: &[Assumption], address: u8, x: u32, y: u32) -> bool
    ensures { result ≡ assumptions.keeps assume.now address x y }
{
    assume.iter().all(|a| !(a.address == address) || (is_within(a.x, x) && is_within(a.y, y)))
}

fn is_within(range: Option<Range>, number: u32) -> bool
    ensures { result ≡ assumptions.is_within range number }
{
    match range {
        Some(range) => u32::from(range.lo) <= number && number <= u32::from(range.hi),
        None => true,
    }
}

/// The end of a delay, or this clock, whichever is later.
fn not_before(clock: u64, rests: Option<u64>) -> Option<u64>
    ensures { result ≡ spec.not_before clock rests }
{
    match rests {
        Some(rests) => Some(clock.max(rests)),
        None => None,
    }
}

fn ends_before(clock: u64, rests: Option<u64>) -> bool
    ensures { result ≡ spec.ends_before clock rests }
{
    match rests {
        Some(rests) => rests < clock,
        None => false,
    }
}

fn ends_by(clock: u64, rests: Option<u64>) -> bool
    ensures { result ≡ spec.ends_before (clock + 1) rests }
{
    match rests {
        Some(rests) => rests <= clock,
        None => false,
    }
}
