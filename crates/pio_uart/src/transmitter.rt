//! The setup that transmits.
ghost use Rattle.std.specs.Prelude.{◌≡◌, ℕ, ◌*◌, ◌≤◌};
ghost use Rattle.pio_uart.specs.Feeding.{SendsAll, SendsInTime};
ghost use Rattle.pio_uart.specs.OneSetup.{transmitter_of};
ghost use Rattle.pio_uart.specs.Sending.{SendsWhatItIsFed};
ghost use Rattle.pio_uart.specs.Transmitter.{IsTransmitter, IsUartMachine};

use crate::laws::{a_transmitter_sends_in_time, a_transmitter_sends_what_it_is_fed};
use pin_matrix::{MachineSetup, Mapping, Setup, Spans};
use pio_encode::SideRule;
use setup_keys::{
    a_block_in_range_is_not_clipped, setups_that_say_the_same_are_one,
    what_a_setup_says_is_in_range,
};
use std::alloc::Global;

/// The program's words: `pull side 1 [7]`, `set x, 7 side 0 [7]`, `out pins, 1`, `jmp x--, 2 [6]`.
const WORDS: [u16; 4] = [0x9fa0, 0xf727, 0x6001, 0x0642];

/// A block whose machine 0 sends the low byte of each word that its TX gets on pin 0 (8n1), a bit every
/// `8 * int` clocks. It takes no memory.
pub fn uart_setup(alloc: Global, int: u16) -> Setup
    requires some { 1 ≤ int }
    ensures setup { IsTransmitter int result }
    ensures same { result ≡ transmitter_of int }
    ensures sends { SendsWhatItIsFed (8 * int) result }
    ensures in_time { SendsInTime int result }
    ensures whole { SendsAll int result }
{
    a_transmitter_sends_what_it_is_fed();
    a_transmitter_sends_in_time();
    setups_that_say_the_same_are_one();
    what_a_setup_says_is_in_range();
    a_block_in_range_is_not_clipped();
    block_of(alloc, machine(int))
}

/// The block of this machine alone.
fn block_of(alloc: Global, machine: MachineSetup) -> Setup
    requires { machine.id ≡ 0 }
    ensures { (int : ℕ) → IsUartMachine int machine → IsTransmitter int result }
{
    let mut memory = [0; 32];
    memory[0] = WORDS[0];
    memory[1] = WORDS[1];
    memory[2] = WORDS[2];
    memory[3] = WORDS[3];
    Setup {
        memory,
        machines: [Some(machine), None, None, None],
        high: 0,
        level: 1,
        out: 1,
        bypass: 0,
        spans: Spans::empty(alloc),
    }
}

/// The machine that runs the program.
fn machine(int: u16) -> MachineSetup
    requires some { 1 ≤ int }
    ensures { IsUartMachine int result }
{
    let rule = SideRule {
        bits: 1,
        opt: true,
        pindirs: false,
    };
    let mut machine = MachineSetup::of(0, rule);
    machine.int = int;
    machine.wrap_top = 3;
    machine.out = Mapping { base: 0, count: 1 };
    machine
}
