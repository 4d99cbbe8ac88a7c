//! A divider of 16 whole and 8 fractional bits. Times are in clocks, and within them in 1/256 clocks.
//! A clock costs no division: the divider keeps the time that is left until its next tick.
ghost use Rattle.std.specs.Prelude.{◌≡◌, ◌+◌, ◌*◌, ◌^◌, ◌<◌, ◌≤◌, ◌↔◌, true, IsTrue, IsNone, IfSome};
ghost use Rattle.clock_divider.specs.Timing.{Timing, period_of, first, stepped, after_steps, resumed};
ghost use Rattle.clock_divider.specs.Ticks.{IsTickClock, is_tick, tick_count};

use std::marker::Model;

/// A divider in some clock. Tick k falls in the clock `restarted + floor(k * period / 256)`.
#[derive(Drop)]
pub struct Divider {
    clock: u64,
    restarted: u64,
    period: u32,
    // From the start of the present clock to the time of the next tick, in 1/256 clocks.
    left: u32,
}

impl Model for Divider {
    ghost use Rattle.clock_divider.specs.Timing.{Timing};
    ghost use Rattle.clock_divider.specs.Left.{IsRunning};

    ghost Value = { Timing };

    ghost view = { λ d. record { clock = d.clock; restarted = d.restarted; period = d.period } };

    ghost invariant = { λ d. IsRunning d.clock d.restarted d.period d.left };
}

impl Divider {
    /// A divider by `int + frac / 256` in clock 0, whose first tick is now. `int` 0 means 65,536 and takes no
    /// fraction: with one there is no such divider.
    pub fn new(int: u16, frac: u8) -> Option<Divider>
        ensures none { IsNone result ↔ ((int ≡ 0) × (0 < frac)) }
        ensures value { IfSome result (λ d. d ≡ first (period_of int frac)) }
    {
        if int == 0 && frac > 0 {
            return None;
        }
        let whole = if int == 0 { 65_536 } else { u32::from(int) };
        Some(Divider {
            clock: 0,
            restarted: 0,
            period: 256 * whole + u32::from(frac),
            left: 0,
        })
    }

    /// Whether the present clock is a tick.
    pub fn ticks_now(&self) -> bool
        ensures value { result ≡ is_tick self.now.restarted self.now.period self.now.clock }
        ensures tick { IsTrue result
            ↔ (IsTickClock self.now.restarted self.now.period self.now.clock) }
    {
        self.left < 256
    }

    /// One clock on.
    pub fn step(&mut self)
        requires { self.old.clock < 2 ^ 40 }
        ensures { self.new ≡ stepped self.old }
    {
        self.left = if self.left < 256 {
            self.left + self.period - 256
        } else {
            self.left - 256
        };
        self.clock += 1;
    }

    /// One clock on from a tick, which asks for no test.
    #[inline(always)]
    pub fn step_from_tick(&mut self)
        requires tick { is_tick self.old.restarted self.old.period self.old.clock ≡ true }
        requires clock { self.old.clock < 2 ^ 40 }
        ensures { self.new ≡ stepped self.old }
    {
        self.left = self.left + self.period - 256;
        self.clock += 1;
    }

    /// The clocks from the present one to tick `n` of those from here on, where tick 0 is the one now or next.
    pub fn clocks_to_tick(&self, n: u64) -> u64
        requires { n ≤ 2 ^ 40 }
        ensures tick { IsTickClock self.now.restarted self.now.period (self.now.clock + result) }
        ensures test { IsTrue (is_tick self.now.restarted self.now.period (self.now.clock + result)) }
        ensures count { tick_count self.now.restarted self.now.period self.now.clock result ≡ n }
        ensures bound { result ≤ 2 ^ 16 * (n + 1) }
    {
        let period = u64::from(self.period);
        n * (period / 256) + (u64::from(self.left) + n * (period % 256)) / 256
    }

    /// How many of the `n` clocks from the present one on are ticks.
    pub fn ticks_within(&self, n: u64) -> u64
        requires { n ≤ 2 ^ 40 }
        ensures count { result ≡ tick_count self.now.restarted self.now.period self.now.clock n }
        ensures bound { result ≤ n }
    {
        let period = u64::from(self.period);
        (n * 256 + (period - 1 - u64::from(self.left))) / period
    }

    /// `n` clocks on at once, as by `n` steps.
    pub fn leap(&mut self, n: u64)
        requires { self.old.clock + n ≤ 2 ^ 40 }
        ensures clock { self.new ≡ record self.old { clock = self.old.clock + n } }
        ensures steps { self.new ≡ after_steps n self.old }
    {
        let period = u64::from(self.period);
        let over = (n * 256 + (period - 1 - u64::from(self.left))) % period;
        self.left = (period - 1 - over) as u32;
        self.clock += n;
    }

    /// Restarts it in the present clock, which is then a tick.
    pub fn restart(&mut self)
        ensures { self.new ≡ resumed self.old }
    {
        self.restarted = self.clock;
        self.left = 0;
    }
}
