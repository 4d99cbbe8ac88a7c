//! The end of a call: its status, and its line on the standard error (choice of this profile).
ghost use Rattle.std.specs.Prelude.{◌≡◌, ◌++◌, codes, decimal};
ghost use Rattle.std.specs.Fmt.{signed_decimal};
ghost use Rattle.pio_assemble.specs.Fault.{quantity_text};
ghost use Rattle.pio_edge.specs.Edge.{Takes, PutCounts};
ghost use Rattle.fault_lines.specs.Told as spec;
ghost use Rattle.fault_lines.specs.Told.{fault_line, file_word};

use crate::fault::{Fault, File};
use block_config::ConfigKind;
use dreq_pacing::StimKind;
use itoa::Buffer;
use pio_assemble::{Quantity, SourceKind};
use pio_edge::{Sink, SinkFailed, put_all};
use span_texts::{TableKind, put_flaw, put_refusal};
use word_file::WordKind;

/// The status with which a program ends.
pub fn status_of(fault: &Option<Fault>) -> u8
    ensures { result ≡ spec.status_of fault.now }
{
    match fault {
        None => 0,
        Some(Fault::TooLong(_) | Fault::Words(..) | Fault::Source(..)) => 1,
        Some(Fault::Config(..) | Fault::Second(..) | Fault::Stim(..)) => 1,
        Some(Fault::NoSpan | Fault::Table(..)) => 1,
        Some(Fault::Usage) => 2,
        Some(Fault::Unproved(..) | Fault::SecondUnproved(..) | Fault::Flaw(..)) => 3,
        Some(Fault::Shelf(_)) => 4,
        Some(Fault::Out) => 5,
        Some(Fault::Memory) => 6,
    }
}

/// Puts the line of a fault.
#[tactic(auto, unfolding(crate::specs::Told::fault_line))]
pub fn put_fault<E: Sink>(err: &mut E, fault: &Fault) -> Result<(), SinkFailed>
    ensures bytes { Takes (E.taken err.old) (fault_line fault.now) (E.taken err.new) result }
    ensures cause { PutCounts (E.faults err.old) (E.faults err.new) result }
{
    match fault {
        Fault::Usage => put_text(err, "piotool: usage\n"),
        Fault::Shelf(file) => put_shelf_fault(err, *file),
        Fault::TooLong(file) => put_long_fault(err, *file),
        Fault::Words(line, kind) => put_words_fault(err, *line, *kind),
        Fault::Source(line, kind) => put_source_fault(err, *line, kind),
        Fault::Config(key, kind) => put_config_fault(
            err,
            "piotool: config ",
            key.as_bytes(),
            *kind,
        ),
        Fault::Second(key, kind) => put_config_fault(
            err,
            "piotool: second ",
            key.as_bytes(),
            *kind,
        ),
        Fault::Stim(line, kind) => put_stimulus_fault(err, *line, *kind),
        Fault::NoSpan => put_text(err, "piotool: nospan\n"),
        Fault::Table(line, kind) => put_table_fault(err, *line, *kind),
        Fault::Unproved(_, name, refusal) => put_refusal(err, "piotool: ", name, refusal),
        Fault::SecondUnproved(_, name, refusal) => {
            put_refusal(err, "piotool: second ", name, refusal)
        }
        Fault::Flaw(_, name, flaw) => put_flaw(err, "piotool: ", name, flaw),
        Fault::Out => put_text(err, "piotool: out\n"),
        Fault::Memory => put_text(err, "piotool: memory\n"),
    }
}

/// Puts a text as one piece.
fn put_text<E: Sink>(err: &mut E, text: &str) -> Result<(), SinkFailed>
    ensures bytes { Takes (E.taken err.old) text.now (E.taken err.new) result }
    ensures cause { PutCounts (E.faults err.old) (E.faults err.new) result }
{
    err.put(text.as_bytes())
}

/// Puts the line of a file that wasn't fetched.
fn put_shelf_fault<E: Sink>(err: &mut E, file: File) -> Result<(), SinkFailed>
    ensures bytes { Takes (E.taken err.old) (spec.shelf_line file) (E.taken err.new) result }
    ensures cause { PutCounts (E.faults err.old) (E.faults err.new) result }
{
    put_all(
        err,
        &[
            "piotool: shelf ".as_bytes(),
            word_of(file).as_bytes(),
            "\n".as_bytes(),
        ],
    )
}

/// Puts the line of a file past its limit.
fn put_long_fault<E: Sink>(err: &mut E, file: File) -> Result<(), SinkFailed>
    ensures bytes { Takes (E.taken err.old) (spec.long_line file) (E.taken err.new) result }
    ensures cause { PutCounts (E.faults err.old) (E.faults err.new) result }
{
    put_all(
        err,
        &[
            "piotool: long ".as_bytes(),
            word_of(file).as_bytes(),
            "\n".as_bytes(),
        ],
    )
}

/// Puts the line of a word file's fault.
fn put_words_fault<E: Sink>(err: &mut E, line: usize, kind: WordKind) -> Result<(), SinkFailed>
    ensures bytes { Takes (E.taken err.old) (spec.words_line line kind) (E.taken err.new) result }
    ensures cause { PutCounts (E.faults err.old) (E.faults err.new) result }
{
    put_line_fault(err, "piotool: words line ", line, kind.code())
}

/// Puts the line of a source's fault: its code, and after it a name, or a number's word and its value.
fn put_source_fault<E: Sink>(err: &mut E, line: usize, kind: &SourceKind) -> Result<(), SinkFailed>
    ensures bytes { Takes (E.taken err.old) (spec.source_line line kind.now) (E.taken err.new) result }
    ensures cause { PutCounts (E.faults err.old) (E.faults err.new) result }
{
    match kind {
        SourceKind::Duplicate(name) => put_named_fault(err, line, kind.code(), name.as_bytes()),
        SourceKind::Unknown(name) => put_named_fault(err, line, kind.code(), name.as_bytes()),
        SourceKind::Cycle(name) => put_named_fault(err, line, kind.code(), name.as_bytes()),
        SourceKind::Range { what, value } => {
            put_range_fault(err, line, kind.code(), *what, *value)
        }
        other => put_line_fault(err, "piotool: source line ", line, other.code()),
    }
}

/// Puts the line of a source's fault that has a name.
fn put_named_fault<E: Sink>(
    err: &mut E,
    line: usize,
    code: &str,
    name: &[u8],
) -> Result<(), SinkFailed>
    ensures bytes { Takes (E.taken err.old) (spec.source_fault line (code.now ++ codes " " ++ name.now)) (E.taken err.new) result }
    ensures cause { PutCounts (E.faults err.old) (E.faults err.new) result }
{
    let mut number = Buffer::new();
    put_all(
        err,
        &[
            "piotool: source line ".as_bytes(),
            number.format(line).as_bytes(),
            ": ".as_bytes(),
            code.as_bytes(),
            " ".as_bytes(),
            name,
            "\n".as_bytes(),
        ],
    )
}

/// Puts the line of a number out of its range: the code, the number's word and its value.
fn put_range_fault<E: Sink>(
    err: &mut E,
    line: usize,
    code: &'static str,
    what: Quantity,
    value: i32,
) -> Result<(), SinkFailed>
    ensures bytes { Takes (E.taken err.old)
        (spec.source_fault line (code.now ++ codes " " ++ quantity_text what ++ codes " " ++ signed_decimal value))
        (E.taken err.new) result }
    ensures cause { PutCounts (E.faults err.old) (E.faults err.new) result }
{
    let mut number = Buffer::new();
    let mut digits = Buffer::new();
    put_all(
        err,
        &[
            b"piotool: source line ",
            number.format(line).as_bytes(),
            b": ",
            code.as_bytes(),
            b" ",
            what.text().as_bytes(),
            b" ",
            digits.format(value).as_bytes(),
            b"\n",
        ],
    )
}

/// Puts the line of a configuration's fault: which configuration it is, the path of its key, its code, and the address where
/// two loads overlap.
fn put_config_fault<E: Sink>(
    err: &mut E,
    front: &str,
    key: &[u8],
    kind: ConfigKind,
) -> Result<(), SinkFailed>
    ensures bytes { Takes (E.taken err.old) (spec.config_line front.now key.now kind) (E.taken err.new) result }
    ensures cause { PutCounts (E.faults err.old) (E.faults err.new) result }
{
    match kind {
        ConfigKind::Overlap(address) => put_overlap(err, front, key, kind.code(), address),
        other => put_key_fault(err, front, key, other.code()),
    }
}

/// Puts the line of loads that overlap: the code and the address.
fn put_overlap<'a, E: Sink>(
    err: &mut E,
    front: &'a str,
    key: &'a [u8],
    code: &'a str,
    address: u8,
) -> Result<(), SinkFailed>
    ensures bytes { Takes (E.taken err.old)
        (spec.key_line front.now key.now (code.now ++ codes " " ++ decimal address))
        (E.taken err.new) result }
    ensures cause { PutCounts (E.faults err.old) (E.faults err.new) result }
{
    let mut number = Buffer::new();
    put_all(
        err,
        &[
            front.as_bytes(),
            key,
            ": ".as_bytes(),
            code.as_bytes(),
            " ".as_bytes(),
            number.format(address).as_bytes(),
            "\n".as_bytes(),
        ],
    )
}

/// Puts the line of a key's fault.
fn put_key_fault<E: Sink>(
    err: &mut E,
    front: &str,
    key: &[u8],
    code: &str,
) -> Result<(), SinkFailed>
    ensures bytes { Takes (E.taken err.old) (spec.key_line front.now key.now code.now) (E.taken err.new) result }
    ensures cause { PutCounts (E.faults err.old) (E.faults err.new) result }
{
    put_all(
        err,
        &[
            front.as_bytes(),
            key,
            ": ".as_bytes(),
            code.as_bytes(),
            "\n".as_bytes(),
        ],
    )
}

/// Puts the line of a stimulus's fault.
fn put_stimulus_fault<E: Sink>(err: &mut E, line: usize, kind: StimKind) -> Result<(), SinkFailed>
    ensures bytes { Takes (E.taken err.old) (spec.stimulus_line line kind) (E.taken err.new) result }
    ensures cause { PutCounts (E.faults err.old) (E.faults err.new) result }
{
    put_line_fault(err, "piotool: stimulus line ", line, kind.code())
}

/// Puts the line of a table file's fault.
fn put_table_fault<E: Sink>(err: &mut E, line: usize, kind: TableKind) -> Result<(), SinkFailed>
    ensures bytes { Takes (E.taken err.old) (spec.table_line line kind) (E.taken err.new) result }
    ensures cause { PutCounts (E.faults err.old) (E.faults err.new) result }
{
    put_line_fault(err, "piotool: table line ", line, kind.code())
}

/// Puts the line of a fault that has a place in a file: what comes before its number, the number, and its code.
fn put_line_fault<E: Sink>(
    err: &mut E,
    front: &str,
    line: usize,
    code: &str,
) -> Result<(), SinkFailed>
    ensures bytes { Takes (E.taken err.old) (spec.line_fault front.now line code.now) (E.taken err.new) result }
    ensures cause { PutCounts (E.faults err.old) (E.faults err.new) result }
{
    let mut number = Buffer::new();
    put_all(
        err,
        &[
            front.as_bytes(),
            number.format(line).as_bytes(),
            ": ".as_bytes(),
            code.as_bytes(),
            "\n".as_bytes(),
        ],
    )
}

/// The word for a file.
fn word_of(file: File) -> &'static str
    ensures { result.now ≡ file_word file }
{
    match file {
        File::Source => "source",
        File::Words => "words",
        File::Config => "config",
        File::Second => "second",
        File::Stimulus => "stimulus",
        File::Table => "table",
        File::Send => "send",
    }
}
