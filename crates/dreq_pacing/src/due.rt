//! What a machine's FIFOs ask of the system, and what the system does in a clock.
ghost use Rattle.std.specs.Prelude.{◌≡◌, ◌<◌};
ghost use Rattle.dreq_pacing.specs.Lines.{IsAct};
ghost use Rattle.dreq_pacing.specs.Due as spec;

use crate::line::LineAct;

/// The requests of each machine for paced transfers, as at the clock's start.
#[derive(Clone, Copy)]
pub struct Requests {
    /// TX isn't full.
    pub tx: [bool; 4],
    /// RX isn't empty.
    pub rx: [bool; 4],
}

/// What the system does in a clock. In `pins` and `values` bit p is for pin p.
#[derive(Clone, Copy)]
pub struct Due {
    /// The pins that lines set from the outside.
    pub pins: u32,
    /// Their levels. Another pin has 0 here.
    pub values: u32,
    /// The word that is written to each machine's TX.
    pub word: [Option<u32>; 4],
    /// Whether each machine's RX is read.
    pub read: [bool; 4],
    /// Whether the word is a paced transfer's.
    pub word_paced: [bool; 4],
    /// Whether the read is a paced transfer's.
    pub read_paced: [bool; 4],
    /// The machines that are enabled.
    pub enable: [bool; 4],
    /// The machines that are disabled.
    pub disable: [bool; 4],
    /// The machines whose divider restarts.
    pub restart: [bool; 4],
}

impl Due {
    /// Nothing.
    pub fn quiet() -> Due
        ensures { result ≡ spec.quiet }
    {
        Due {
            pins: 0,
            values: 0,
            word: [None; 4],
            read: [false; 4],
            word_paced: [false; 4],
            read_paced: [false; 4],
            enable: [false; 4],
            disable: [false; 4],
            restart: [false; 4],
        }
    }

    /// What a line does beside what those before it did. A transfer begins in its own place.
    pub(crate) fn add(&mut self, act: &LineAct)
        requires { IsAct act.now }
        ensures { self.new ≡ spec.with_act act.now self.old }
    {
        match act {
            LineAct::Pin { pin, level } => self.set_pin(*pin, *level),
            LineAct::Tx { machine, word } => self.word[*machine as usize] = Some(*word),
            LineAct::Rx { machine } => self.read[*machine as usize] = true,
            LineAct::Enable { machine } => self.enable[*machine as usize] = true,
            LineAct::Disable { machine } => self.disable[*machine as usize] = true,
            LineAct::Restart { machine } => self.restart[*machine as usize] = true,
            LineAct::Feed { .. } | LineAct::Drain { .. } => {}
        }
    }

    fn set_pin(&mut self, pin: u8, level: bool)
        requires { pin < 32 }
        ensures { self.new ≡ spec.with_pin pin level self.old }
    {
        let bit = bit_of(pin);
        self.pins |= bit;
        self.values = if level {
            self.values | bit
        } else {
            self.values & !bit
        };
    }
}

/// The mask of a pin.
fn bit_of(pin: u8) -> u32
    requires { pin < 32 }
    ensures { result ≡ spec.bit_of pin }
{
    1 << pin
}
