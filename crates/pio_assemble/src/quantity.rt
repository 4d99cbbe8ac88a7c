//! The numbers of statements that have a range.
ghost use Rattle.std.specs.Prelude.{◌≡◌, Some};
ghost use Rattle.pio_assemble.specs.Fault.{quantity_text};

use std::fmt;

/// A number of a statement, with the word that a message has for it.
#[derive(Clone, Copy)]
pub enum Quantity {
    /// The target of a JMP: 0 to 31.
    Jmp,
    /// The level that a WAIT waits for: 0 or 1.
    Polarity,
    /// The index of a WAIT or an IRQ: 0 to 31, of a flag 0 to 7.
    Index,
    /// The bits of an IN or an OUT: 1 to 32.
    Count,
    /// The value of a SET: 0 to 31.
    Data,
    /// A side-set value, within the program's side-set bits.
    Side,
    /// A delay, within the bits that side-set leaves of five.
    Delay,
    /// The address of an `.origin`: 0 to 31.
    Origin,
    /// The bits of a `.side_set`: 0 to 5, with `opt` 0 to 4.
    SideSet,
    /// A `.word`: 0 to 65535.
    Word,
    /// The version of `.pio_version`: 0.
    PioVersion,
}

impl Quantity {
    /// Its word in a message.
    pub fn text(self) -> &'static str
        ensures { result.now ≡ quantity_text self }
    {
        match self {
            Quantity::Jmp => "jmp",
            Quantity::Polarity => "polarity",
            Quantity::Index => "index",
            Quantity::Count => "count",
            Quantity::Data => "data",
            Quantity::Side => "side",
            Quantity::Delay => "delay",
            Quantity::Origin => "origin",
            Quantity::SideSet => "side_set",
            Quantity::Word => "word",
            Quantity::PioVersion => "pio_version",
        }
    }
}

impl fmt::Display for Quantity {
    ghost output = { λ what. Some (quantity_text what) };

    fn fmt<W: fmt::Write>(&self, f: &mut fmt::Formatter<W>) -> fmt::Result {
        f.write_str(self.text())
    }
}
