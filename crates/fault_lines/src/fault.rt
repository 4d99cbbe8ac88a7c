//! Everything that keeps a command from its text, with the line and the status that tell it.

ghost use Rattle.std.specs.Prelude.{◌≡◌};
ghost use Rattle.fault_lines.specs.declared.fault.Fault.TheVariants.{Out, Memory};

use block_config::ConfigKind;
use dreq_pacing::StimKind;
use pio_assemble::SourceKind;
use pio_edge::SinkFailed;
use pio_encode::Name;
use span_texts::{Refusal, TableKind};
use span_verdict::Flaw;
use std::alloc::AllocError;
use word_file::WordKind;

/// A file that a command reads.
#[derive(Clone, Copy, Debug)]
pub enum File {
    /// The pioasm source.
    Source,
    /// A file of words.
    Words,
    /// The configuration.
    Config,
    /// The configuration of the second of two blocks.
    Second,
    /// The stimulus.
    Stimulus,
    /// A table file.
    Table,
    /// The bytes that a transmitter sends.
    Send,
}

/// Why a command didn't do all that was asked.
#[derive(Drop)]
pub enum Fault {
    /// The words ask for nothing that there is.
    Usage,
    /// A file wasn't fetched.
    Shelf(File),
    /// A file has more bytes than its limit.
    TooLong(File),
    /// The first fault of a file of words: its line, from 1 on, and its kind.
    Words(usize, WordKind),
    /// The first fault of the source: its line, from 1 on, and its kind.
    Source(usize, SourceKind),
    /// The first fault of the configuration, or of the setup without one: the path of its key, and its kind.
    Config(Name, ConfigKind),
    /// The first fault of the second block's configuration: the path of its key, and its kind.
    Second(Name, ConfigKind),
    /// The first fault of the stimulus: its line, from 1 on, and its kind.
    Stim(usize, StimKind),
    /// No span has the name that was given.
    NoSpan,
    /// The first fault of a table file: its line, from 1 on, and its kind.
    Table(usize, TableKind),
    /// The first span that isn't provable: its place in the setup, from 0 on, its name, and why (choice of this
    /// profile).
    Unproved(usize, Name, Refusal),
    /// The first span of the second block that isn't provable: its place in that block's setup, from 0 on, its name,
    /// and why (choice of this profile).
    SecondUnproved(usize, Name, Refusal),
    /// A table doesn't prove the span at this place in the setup, from 0 on, with this name: what is wrong with it
    /// first (choice of this profile).
    Flaw(usize, Name, Flaw),
    /// The output failed.
    Out,
    /// Memory ran out.
    Memory,
}

impl From<SinkFailed> for Fault {
    ghost from_gives = { λ _ fault. fault ≡ Out };

    fn from(_failed: SinkFailed) -> Self {
        Fault::Out
    }
}

impl From<AllocError> for Fault {
    ghost from_gives = { λ _ fault. fault ≡ Memory };

    fn from(_error: AllocError) -> Self {
        Fault::Memory
    }
}
