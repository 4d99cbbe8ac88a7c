//! What the transmitter does, as a law on a function that does nothing.
ghost use Rattle.std.specs.Prelude.{◌≡◌, ℕ, ◌*◌, ◌≤◌};
ghost use Rattle.pin_matrix.specs.declared.machine.MachineSetup.{MachineSetup};
ghost use Rattle.pin_matrix.specs.declared.setup.Setup.{Setup};
ghost use Rattle.sm_registers.specs.declared.registers.Registers.{Registers};
ghost use Rattle.sm_registers.specs.View.{View};
ghost use Rattle.sm_registers.specs.Queues.{Queues};
ghost use Rattle.sm_registers.specs.State.{first_registers};
ghost use Rattle.sm_registers.specs.Tick.{tick_of};
ghost use Rattle.pio_uart.specs.Phases.{IsOnCourse, MovesOn, phase_of};
ghost use Rattle.pio_uart.specs.Transmitter.{uart_memory, IsTransmitter, IsUartMachine};
ghost use Rattle.pio_uart.specs.Sending.{SendsWhatItIsFed};
ghost use Rattle.pio_uart.specs.Feeding.{SendsAll, SendsInTime};

use program_runs::{
    a_feed_never_lets_tx_run_dry, a_machine_goes_tick_by_tick, samples_tell_the_levels,
};

/// A transmitter whose divider is this whole number sends what it is fed, a bit in eight times as many
/// clocks: whatever the stimulus, where it leaves the machines' ticks alone, and whatever the length of the
/// run.
pub fn a_transmitter_sends_what_it_is_fed()
    ensures { (int : ℕ) (u : Setup) → 1 ≤ int → IsTransmitter int u → SendsWhatItIsFed (8 * int) u }
{
    a_machine_goes_tick_by_tick();
    samples_tell_the_levels();
}

/// Fed by one feed with a word a clock, such a transmitter sends exactly these words, each frame at its
/// clock: frame j begins in clock `int * (9 + 80 * j)`. With clocks enough it sends all of them.
pub fn a_transmitter_sends_in_time()
    ensures frames { (int : ℕ) (u : Setup) → 1 ≤ int → IsTransmitter int u → SendsInTime int u }
    ensures whole { (int : ℕ) (u : Setup) → 1 ≤ int → IsTransmitter int u → SendsAll int u }
{
    a_feed_never_lets_tx_run_dry();
    a_machine_goes_tick_by_tick();
    samples_tell_the_levels();
}

/// The machine has 80 phases. It begins at phase 0, the PULL, and each tick moves it to the next one modulo 80,
/// or it stalls at phase 0 where TX is empty.
pub fn a_tick_moves_the_phase()
    ensures start { (int : ℕ) (s : MachineSetup) → IsUartMachine int s → IsOnCourse (first_registers s) }
    ensures first { (int : ℕ) (s : MachineSetup) → IsUartMachine int s → phase_of (first_registers s) ≡ 0 }
    ensures tick { (int : ℕ) (s : MachineSetup) (v : View) (q : Queues) (r : Registers) → IsUartMachine int s
        → v.memory ≡ uart_memory → IsOnCourse r → MovesOn q.front r (tick_of s v q r).0 }
{}
