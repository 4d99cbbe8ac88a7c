//! The blocks that are timed, each set up by hand.
ghost use Rattle.std.specs.Prelude.{◌<◌, ◌≤◌, ◌==◌, ◌||◌, not, IsTrue};

use pin_matrix::{MachineSetup, Mapping, Setup, Spans};
use pio_encode::SideRule;

/// No side-set.
const NO_SIDE_SET: SideRule = SideRule {
    bits: 0,
    opt: false,
    pindirs: false,
};

/// A square wave: `set pindirs, 1`, `set pins, 1 [1]`, `set pins, 0`, `jmp 1`.
const WAVE: [u16; 4] = [0xe081, 0xe101, 0xe000, 0x0001];

/// One machine that makes a square wave on pin 0.
pub(crate) fn square_wave(spans: Spans) -> Setup {
    let mut setup = Setup::of(memory_of(&WAVE), spans);
    setup.place(MachineSetup::of(0, NO_SIDE_SET));
    setup
}

/// `mov osr, y`, `set x, 31`, `out pins, 1`, `jmp x--, 2`.
const SHIFT: [u16; 4] = [0xa0e2, 0xe03f, 0x6001, 0x0042];

/// One machine that shifts the 32 bits of Y to pin 0, over and over.
pub(crate) fn shifted_word(spans: Spans) -> Setup {
    let mut setup = Setup::of(memory_of(&SHIFT), spans);
    setup.out = 1;
    let mut machine = looped(0, 0, 3);
    machine.y = 0x0f33_a5c9;
    machine.out = Mapping { base: 0, count: 1 };
    setup.place(machine);
    setup
}

/// Side-set on one pin, where an instruction says so.
const OPTIONAL_SIDE_SET: SideRule = SideRule {
    bits: 1,
    opt: true,
    pindirs: false,
};

/// `pull side 1 [7]`, `set x, 7 side 0 [7]`, `out pins, 1`, `jmp x--, 2 [6]`.
const UART: [u16; 4] = [0x9fa0, 0xf727, 0x6001, 0x0642];

/// A serial transmitter on pin 0, of 115,200 bits a second at 125 MHz: eight ticks a bit.
pub(crate) fn uart(spans: Spans) -> Setup {
    let mut setup = Setup::of(memory_of(&UART), spans);
    setup.level = 1;
    setup.out = 1;
    let mut machine = MachineSetup::of(0, OPTIONAL_SIDE_SET);
    machine.wrap_top = 3;
    machine.out = Mapping { base: 0, count: 1 };
    machine.side = Mapping { base: 0, count: 1 };
    setup.place(divided(machine, 135, 162));
    setup
}

/// `pull side 0`, `set x, 8`, `out pins, 1 [7]`, `nop side 1 [2]`, `wait 1 pin 1 [4]`, `in pins, 1 [7]`,
/// `jmp x--, 2 side 0 [7]`, `push`.
const I2C: [u16; 8] = [
    0x90a0, 0xe028, 0x6701, 0xba42, 0x24a1, 0x4701, 0x1742, 0x8020,
];

/// The bytes of an I2C controller on pins 0 and 1, of 400,000 bits a second at 125 MHz: 32 ticks a bit. The lines are
/// the pins 2 and 3, which stay high.
pub(crate) fn i2c(spans: Spans) -> Setup {
    let mut setup = Setup::of(memory_of(&I2C), spans);
    setup.level = 0b01;
    setup.high = 0b1100;
    setup.out = 0b11;
    let mut machine = setting(MachineSetup::of(0, OPTIONAL_SIDE_SET), 0, 0);
    machine.wrap_top = 7;
    machine.in_base = 2;
    machine.in_right = false;
    machine.out_right = false;
    machine.out = Mapping { base: 0, count: 1 };
    machine.side = Mapping { base: 1, count: 1 };
    setup.place(divided(machine, 9, 196));
    setup
}

/// `set pins, 1 [31]`, `set pins, 0 [31]`.
const DELAYS: [u16; 2] = [0xff01, 0xff00];

/// Long delays under a tick of a microsecond at 125 MHz.
pub(crate) fn delays(spans: Spans) -> Setup {
    let mut setup = Setup::of(memory_of(&DELAYS), spans);
    setup.out = 1;
    setup.place(divided(setting(looped(0, 0, 1), 0, 1), 125, 0));
    setup
}

/// `wait 1 pin 0`.
const WAITS: [u16; 1] = [0x20a0];

/// Four machines of different dividers that wait for a pin, which stays low.
pub(crate) fn waiting(spans: Spans) -> Setup {
    let mut setup = Setup::of(memory_of(&WAITS), spans);
    setup.place(looped(0, 0, 0));
    setup.place(divided(looped(1, 0, 0), 3, 85));
    setup.place(divided(looped(2, 0, 0), 0, 0));
    setup.place(looped(3, 0, 0));
    setup
}

/// `set pins, 1 [30]`, `irq nowait 0`, `set pins, 0 [31]`; `out pins, 1 [1]`; `wait 1 pin 0`, `in pins, 8`, `wait 0 pin 0`;
/// `wait 1 irq 0`, `set pins, 1 [1]`, `set pins, 0`.
const FOUR: [u16; 10] = [
    0xfe01, 0xc000, 0xff00, 0x6101, 0x20a0, 0x4008, 0x2020, 0x20c0, 0xe101, 0xe000,
];

/// Four machines at work, as `bench/four_machines` writes them from the seed 7: a pulse that raises a flag, a shifted
/// row of bits, a reader of pins, and one that answers the flag.
pub(crate) fn four_machines(spans: Spans) -> Setup {
    let mut setup = Setup::of(memory_of(&FOUR), spans);
    setup.out = 0b1011;
    setup.place(setting(looped(0, 0, 2), 0, 1));
    setup.place(bits());
    setup.place(reader());
    setup.place(setting(looped(3, 7, 9), 3, 1));
    setup
}

/// A row of bits, shifted out to pin 1.
fn bits() -> MachineSetup {
    let mut machine = divided(setting(looped(1, 3, 3), 0, 0), 2, 233);
    machine.out = Mapping { base: 1, count: 1 };
    machine.autopull = true;
    machine
}

/// A reader of pins from pin 2 on.
fn reader() -> MachineSetup {
    let mut machine = setting(looped(2, 4, 6), 0, 0);
    machine.in_base = 2;
    machine.autopush = true;
    machine
}

/// A machine that starts at an address and wraps after another.
fn looped(id: u8, first: u8, last: u8) -> MachineSetup
    requires id { id < 4 }
    requires first { first < 32 }
    requires last { last < 32 }
{
    let mut machine = MachineSetup::of(id, NO_SIDE_SET);
    machine.start = first;
    machine.wrap_bottom = first;
    machine.wrap_top = last;
    machine
}

/// The machine with another divider.
fn divided(machine: MachineSetup, int: u16, frac: u8) -> MachineSetup
    requires { IsTrue (not (int == 0) || frac == 0) }
{
    let mut divided = machine;
    divided.int = int;
    divided.frac = frac;
    divided
}

/// The machine with SET on other pins.
fn setting(machine: MachineSetup, base: u8, count: u8) -> MachineSetup
    requires base { base < 32 }
    requires count { count ≤ 5 }
{
    let mut setting = machine;
    setting.set = Mapping { base, count };
    setting
}

/// Memory with the words from address 0 on.
fn memory_of(words: &[u16]) -> [u16; 32] {
    let mut memory = [0; 32];
    for (place, &word) in memory.iter_mut().zip(words) {
        *place = word;
    }
    memory
}
