//! What is drawn first: the numbers that the programs and setups of the load take.
ghost use Rattle.std.specs.Prelude.{◌<◌, ◌≤◌};

/// The letters of a load.
#[derive(Clone, Copy)]
pub struct Letters {
    /// For how many ticks pin 0 is high besides the one that sets it: 0 to 31.
    pub a: u8,
    /// The same while it is low: 0 to 31.
    pub b: u8,
    /// The delay of machines 1 and 3 in ticks: 0 to 15.
    pub c: u8,
    /// The whole part of machine 1's divider: 1 to 8.
    pub i: u8,
    /// Its fraction in 1/256.
    pub f: u8,
    /// The period of the feed in clocks: 1 to 64.
    pub e: u8,
    /// The period of the drain in clocks: 1 to 64.
    pub g: u8,
    pub ghost a_is_a_delay: { a < 32 },
    pub ghost b_is_a_delay: { b < 32 },
    pub ghost c_is_a_delay: { c < 16 },
    pub ghost i_divides: { 1 ≤ i },
    pub ghost i_is_small: { i ≤ 8 },
    pub ghost e_passes: { 1 ≤ e },
    pub ghost e_is_small: { e ≤ 64 },
    pub ghost g_passes: { 1 ≤ g },
    pub ghost g_is_small: { g ≤ 64 },
}
