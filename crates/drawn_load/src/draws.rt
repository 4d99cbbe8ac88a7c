//! The generator of numbers: one draw after another of a seed (choice of this profile).
ghost use Rattle.std.specs.Prelude.{◌≡◌, ◌+◌, ◌<◌, ◌≤◌};
ghost use Rattle.drawn_load.specs.Draws.{next_state, number_of};

use std::marker::Model;

/// A linear congruential generator of 64 bits. Contracts see its state.
#[derive(Drop)]
pub struct Draws {
    state: u64,
}

impl Model for Draws {
    ghost use Rattle.std.specs.Prelude.{ℕ};

    ghost Value = { ℕ };

    ghost view = { λ d. d.state };
}

impl Draws {
    /// The draws of a seed, none of which is taken.
    pub fn new(seed: u64) -> Draws
        ensures { result ≡ seed }
    {
        Draws { state: seed }
    }

    /// The next draw: a number below `n`, which is 1 or more.
    pub fn below(&mut self, n: u32) -> u32
        requires { 1 ≤ n }
        ensures state { self.new ≡ next_state self.old }
        ensures value { result ≡ number_of n self.new }
        ensures range { result < n }
    {
        self.state = next(self.state);
        ((self.state >> 33) % u64::from(n)) as u32
    }
}

/// The state that follows on a state.
fn next(state: u64) -> u64
    ensures { result ≡ next_state state }
{
    state
        .wrapping_mul(6_364_136_223_846_793_005)
        .wrapping_add(1_442_695_040_888_963_407)
}
