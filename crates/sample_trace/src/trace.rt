//! What a trace promises: what it was told of from clock 0 on, as the samples of a block or of two, and whether its end
//! was told.
ghost use Rattle.std.specs.Prelude.{◌≡◌, ℕ, Bool, true, false, Option, List, [], is_err, OnOk, OnErr};
ghost use Rattle.std.specs.Borrow.{GName};
ghost use Rattle.pio_edge.specs.Edge.{PutCounts};
ghost use Rattle.sample_trace.specs.Told.{IsNext, held_to, told_at};

/// A call failed. The trace is broken from then on, and its count of faults rose.
#[derive(Clone, Copy, Debug, PartialEq, Eq)]
pub struct TraceFailed;

/// Who is told what is shown after the clocks of a run, in their order: of a block a `Sample`, of two a pair of them.
///
/// A V is told at its clock. Clocks left out repeat the one before them.
pub trait Trace<V> {
    /// Which place it has borrowed, where it has.
    ghost name: { Self → GName };

    /// How many faults there were.
    ghost faults: { Self → ℕ };

    /// Whether one of its calls has failed.
    ghost has_failed: { Self → Bool };

    /// What its sink has taken so far, where that is told.
    ghost ready: { Self → Option (List ℕ) → Type 0 };

    /// It was told these since `begin`, after what its sink had taken before, and whether `end` was told.
    ghost holds: { Self → Option (List ℕ) → List V → Bool → Type 0 };

    /// It failed on the way there.
    ghost broken: { Self → Option (List ℕ) → List V → Bool → Type 0 };

    /// Begins with nothing told.
    fn begin(&mut self) -> Result<(), TraceFailed>
        requires { has_failed self.old ≡ false }
        ensures ok { OnOk result ((b : Option (List ℕ)) → ready self.old b → holds self.new b [] false) }
        ensures err { OnErr result ((b : Option (List ℕ)) → ready self.old b → broken self.new b [] false) }
        ensures cause { PutCounts (faults self.old) (faults self.new) result }
        ensures failed { has_failed self.new ≡ is_err result }
        ensures same { name self.new ≡ name self.old };

    /// Tells what is shown after a clock. The clock is above the last one told since `begin`, and 0 the first time.
    fn sample(&mut self, clock: u64, shown: &V) -> Result<(), TraceFailed>
        requires { has_failed self.old ≡ false }
        ensures ok { OnOk result ((b : Option (List ℕ)) (l : List V) → holds self.old b l false
            → IsNext l clock → holds self.new b (told_at clock shown.now l) false) }
        ensures err { OnErr result ((b : Option (List ℕ)) (l : List V) → holds self.old b l false
            → IsNext l clock → broken self.new b (told_at clock shown.now l) false) }
        ensures cause { PutCounts (faults self.old) (faults self.new) result }
        ensures failed { has_failed self.new ≡ is_err result }
        ensures same { name self.new ≡ name self.old };

    /// Tells that the clocks end before this one, which is above the last one told since `begin`, and 0 where
    /// none was.
    fn end(&mut self, clock: u64) -> Result<(), TraceFailed>
        requires { has_failed self.old ≡ false }
        ensures ok { OnOk result ((b : Option (List ℕ)) (l : List V) → holds self.old b l false
            → IsNext l clock → holds self.new b (held_to clock l) true) }
        ensures err { OnErr result ((b : Option (List ℕ)) (l : List V) → holds self.old b l false
            → IsNext l clock → broken self.new b (held_to clock l) true) }
        ensures cause { PutCounts (faults self.old) (faults self.new) result }
        ensures failed { has_failed self.new ≡ is_err result }
        ensures same { name self.new ≡ name self.old };

    /// Whether one of the three has failed.
    fn failed(&self) -> bool
        ensures { result ≡ has_failed self.now };
}
