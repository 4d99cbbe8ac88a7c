//! Why a configuration gives no setup.
ghost use Rattle.std.specs.Prelude.{◌≡◌, ◌<◌, Some};
ghost use Rattle.block_config.specs.declared.fault.ConfigFault.TheVariants.{Memory};
ghost use Rattle.block_config.specs.Fault.{code_of, kind_text};

use pio_encode::Name;
use std::alloc::{AllocError, AllocFailed};
use std::fmt;

/// What is wrong with a key of a configuration (choice of this profile).
#[derive(Clone, Copy, Debug)]
pub enum ConfigKind {
    /// `C1`: the file is no TOML.
    NotToml,
    /// `C2`: the table has a key that it doesn't know.
    UnknownKey,
    /// `C3`: a value of another type, or an array with an element of another type.
    WrongType,
    /// `C4`: a value outside its range, an unknown word, a name of another form, bounds that cross, labels of which there
    /// are too few or may be none, ranges of too many pairs, or a program that is loaded already.
    Range,
    /// `C5`: no such program, or none that is loaded; a machine that isn't configured.
    NoProgram,
    /// `C6`: no label of the program.
    NoLabel,
    /// `C7`: an earlier load covers this address (0 to 31), the least of those that both cover.
    Overlap(u8),
    /// `C8`: the program asks for another origin, or a word or a jump's target would pass address 31.
    DoesNotFit,
    /// `C9`: an earlier table has the machine's number.
    MachineTwice,
    /// `C10`: the machine's FIFOs are joined both ways.
    BothJoins,
    /// `C11`: a fraction with a divider of 0, which means 65,536.
    Divider,
    /// `C12`: more than 64 spans, or more than 16 labels or tables of a key.
    Many,
    /// `C13`: the key is required.
    Missing,
    /// `C14`: the table has another key that this one excludes.
    Excluded,
}

impl ConfigKind {
    /// Its code.
    pub fn code(self) -> &'static str
        ensures { result.now ≡ code_of self }
    {
        match self {
            ConfigKind::NotToml => "C1",
            ConfigKind::UnknownKey => "C2",
            ConfigKind::WrongType => "C3",
            ConfigKind::Range => "C4",
            ConfigKind::NoProgram => "C5",
            ConfigKind::NoLabel => "C6",
            ConfigKind::Overlap(_) => "C7",
            ConfigKind::DoesNotFit => "C8",
            ConfigKind::MachineTwice => "C9",
            ConfigKind::BothJoins => "C10",
            ConfigKind::Divider => "C11",
            ConfigKind::Many => "C12",
            ConfigKind::Missing => "C13",
            ConfigKind::Excluded => "C14",
        }
    }
}

impl fmt::Display for ConfigKind {
    ghost output = { λ kind. Some (kind_text kind) };

    fn fmt<W: fmt::Write>(&self, f: &mut fmt::Formatter<W>) -> fmt::Result {
        match self {
            ConfigKind::Overlap(address) => write!(f, "C7 {address}"),
            other => f.write_str(other.code()),
        }
    }
}

/// Why there is no setup.
#[derive(Drop)]
pub enum ConfigFault {
    /// Memory ran out.
    Memory,
    /// The first fault: the path of its key, as `machine[0].fraction`, and what is wrong there.
    At { key: Name, kind: ConfigKind },
}

impl From<AllocError> for ConfigFault {
    ghost from_gives = { λ _ fault. fault ≡ Memory };

    fn from(_error: AllocError) -> Self {
        ConfigFault::Memory
    }
}

impl<T: Drop> From<AllocFailed<T>> for ConfigFault {
    ghost from_gives = { λ _ fault. fault ≡ Memory };

    fn from(_error: AllocFailed<T>) -> Self {
        ConfigFault::Memory
    }
}
