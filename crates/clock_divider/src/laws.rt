//! Laws of the definitions: what the test for a tick means, and how counts of ticks add up.
//! Each is the contract of a function that does nothing.
ghost use Rattle.std.specs.Prelude.{◌≡◌, ℕ, ◌+◌, ◌<◌, ◌↔◌, IsTrue};
ghost use Rattle.clock_divider.specs.Ticks.{IsTickClock, is_tick, tick_count};

/// The test is true exactly of the ticks.
pub fn tick_test()
    ensures { (restarted period clock : ℕ) → 0 < period →
        (IsTrue (is_tick restarted period clock)) ↔ (IsTickClock restarted period clock) }
{}

/// The ticks in some clocks and those in the clocks after them are the ticks in all of these.
pub fn ticks_add()
    ensures { (restarted period clock m n : ℕ) → tick_count restarted period clock (m + n)
        ≡ tick_count restarted period clock m + tick_count restarted period (clock + m) n }
{}
