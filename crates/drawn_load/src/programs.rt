//! The programs of the load, as words in memory.
ghost use Rattle.std.specs.Prelude.{◌≡◌, ◌<◌};
ghost use Rattle.drawn_load.specs.Draws.{numbers_of};
ghost use Rattle.drawn_load.specs.Machines.{memory_of, word_with};
ghost use Rattle.pio_encode.specs.Ranges.{IsInstruction, IsInRange};
ghost use Rattle.pio_encode.specs.declared.act.Act.TheVariants.{Set, Wait};
ghost use Rattle.pio_encode.specs.declared.act.SetDestination.TheVariants.{Pins};

use crate::letters::Letters;
use crate::no_side::no_side_set;
use pio_encode::{Act, InSource, Op, OutDestination, SetDestination, WaitSource, encode};

/// The memory: the four programs one after another from address 0 on.
pub fn memory_from(letters: &Letters) -> [u16; 32]
    ensures { result ≡ memory_of (numbers_of letters.now) }
{
    let mut memory = [0; 32];
    memory[0] = word(set_pins(1), letters.a);
    memory[1] = word(RAISE, 0);
    memory[2] = word(set_pins(0), letters.b);
    memory[3] = word(SHIFT_OUT, letters.c);
    memory[4] = word(wait(true, WaitSource::Pin), 0);
    memory[5] = word(READ, 0);
    memory[6] = word(wait(false, WaitSource::Pin), 0);
    memory[7] = word(wait(true, WaitSource::Irq), 0);
    memory[8] = word(set_pins(1), letters.c);
    memory[9] = word(set_pins(0), 0);
    memory
}

/// `irq nowait 0`
const RAISE: Act = Act::Irq {
    clear: false,
    wait: false,
    index: 0,
};

/// `out pins, 1`
const SHIFT_OUT: Act = Act::Out {
    destination: OutDestination::Pins,
    count: 1,
};

/// `in pins, 8`
const READ: Act = Act::In {
    source: InSource::Pins,
    count: 8,
};

/// A SET of the pins.
fn set_pins(value: u8) -> Act
    ensures { result ≡ Set Pins value }
{
    Act::Set {
        destination: SetDestination::Pins,
        value,
    }
}

/// A WAIT for pin 0 or flag 0.
fn wait(polarity: bool, source: WaitSource) -> Act
    ensures { result ≡ Wait polarity source 0 }
{
    Act::Wait {
        polarity,
        source,
        index: 0,
    }
}

/// The word of an instruction without side-set, with its delay in ticks.
fn word(act: Act, delay: u8) -> u16
    requires instruction { IsInstruction act }
    requires range { IsInRange act }
    requires delay { delay < 32 }
    ensures { result ≡ word_with delay act }
{
    let op = Op {
        side: None,
        delay,
        act,
    };
    encode(&op, &no_side_set())
}
