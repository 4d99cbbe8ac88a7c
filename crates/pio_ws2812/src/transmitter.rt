//! The setup that transmits.
ghost use Rattle.std.specs.Prelude.{◌≡◌, ℕ, ◌<◌, ◌≤◌};
ghost use Rattle.pio_ws2812.specs.Feeding.{SendsAll, SendsInTime};
ghost use Rattle.pio_ws2812.specs.Sending.{SendsWhatItIsFed};
ghost use Rattle.pio_ws2812.specs.Transmitter.{IsLightMachine, IsTransmitter};

use crate::laws::{lights_get_a_feed_in_one_frame, lights_get_what_they_are_fed};
use pin_matrix::{MachineSetup, Mapping, Setup, Spans};
use pio_encode::SideRule;
use std::alloc::Global;

/// The program's words: `out x, 1 side 0 [2]`, `jmp !x, 3 side 1 [1]`, `jmp 0 side 1 [4]`, `nop side 0 [4]`.
const WORDS: [u16; 4] = [0x6221, 0x1123, 0x1400, 0xa442];

/// A block whose machine 0 sends the upper 24 bits of each word that its TX gets on a pin, 0 to 31, the top one first,
/// a bit every
/// `10 * int` clocks. It takes no memory.
pub fn ws2812_setup(alloc: Global, int: u16, pin: u8) -> Setup
    requires some { 1 ≤ int }
    requires is_pin { pin < 32 }
    ensures setup { IsTransmitter int pin result }
    ensures sends { SendsWhatItIsFed int pin result }
    ensures in_time { SendsInTime int pin result }
    ensures whole { SendsAll int pin result }
{
    lights_get_what_they_are_fed();
    lights_get_a_feed_in_one_frame();
    block_of(alloc, machine(int, pin), pin)
}

/// The block of this machine alone.
fn block_of(alloc: Global, machine: MachineSetup, pin: u8) -> Setup
    requires number { machine.id ≡ 0 }
    requires is_pin { pin < 32 }
    ensures { (int : ℕ) → IsLightMachine int pin machine → IsTransmitter int pin result }
{
    let mut memory = [0; 32];
    memory[0] = WORDS[0];
    memory[1] = WORDS[1];
    memory[2] = WORDS[2];
    memory[3] = WORDS[3];
    Setup {
        memory,
        machines: [Some(machine), None, None, None],
        high: 0,
        level: 0,
        out: 1 << pin,
        bypass: 0,
        spans: Spans::empty(alloc),
    }
}

/// The machine that runs the program.
fn machine(int: u16, pin: u8) -> MachineSetup
    requires some { 1 ≤ int }
    requires is_pin { pin < 32 }
    ensures { IsLightMachine int pin result }
{
    let rule = SideRule {
        bits: 1,
        opt: false,
        pindirs: false,
    };
    let mut machine = MachineSetup::of(0, rule);
    machine.int = int;
    machine.wrap_top = 3;
    machine.side = Mapping {
        base: pin,
        count: 1,
    };
    machine.out_right = false;
    machine.autopull = true;
    machine.pull_threshold = 24;
    machine
}
