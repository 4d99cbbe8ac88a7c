//! What the transmitter does, as laws on functions that do nothing.
ghost use Rattle.std.specs.Prelude.{ℕ, ◌≤◌};
ghost use Rattle.pin_matrix.specs.declared.setup.Setup.{Setup};
ghost use Rattle.pio_ws2812.specs.Feeding.{SendsAll, SendsInTime};
ghost use Rattle.pio_ws2812.specs.Sending.{SendsWhatItIsFed};
ghost use Rattle.pio_ws2812.specs.Transmitter.{IsTransmitter};

use pin_matrix::each_mapped_pin;
use program_runs::{
    a_feed_never_lets_tx_run_dry, a_machine_goes_tick_by_tick, accepted_words_have_32_bits,
    samples_tell_the_levels,
};

/// A transmitter whose divider is this whole number sends the upper 24 bits of each word that it is fed, a bit in ten
/// times as many clocks: whatever the stimulus, where it leaves the machines' ticks alone and has words of 32 bits, and
/// whatever the length of the run.
pub fn lights_get_what_they_are_fed()
    ensures { (int pin : ℕ) (u : Setup) → 1 ≤ int → IsTransmitter int pin u → SendsWhatItIsFed int pin u }
{
    a_machine_goes_tick_by_tick();
    accepted_words_have_32_bits();
    each_mapped_pin();
    samples_tell_the_levels();
}

/// Fed by one feed with a word a clock, such a transmitter sends all its bits as one frame: the pin rises for bit j in
/// clock
/// `int * (5 + 10 * j)`, and is low after it for no longer than a bit asks for. With clocks enough a light reads all bits.
pub fn lights_get_a_feed_in_one_frame()
    ensures pulses { (int pin : ℕ) (u : Setup) → 1 ≤ int → IsTransmitter int pin u → SendsInTime int pin u }
    ensures whole { (int pin : ℕ) (u : Setup) → 1 ≤ int → IsTransmitter int pin u → SendsAll int pin u }
{
    a_feed_never_lets_tx_run_dry();
    a_machine_goes_tick_by_tick();
    accepted_words_have_32_bits();
    each_mapped_pin();
    samples_tell_the_levels();
}
