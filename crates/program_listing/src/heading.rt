//! The line that a program's text begins with: its name, origin, side-set rule and wrap.
ghost use Rattle.std.specs.Prelude.{◌≡◌, ℕ, Option};
ghost use Rattle.pio_edge.specs.Edge.{Takes, PutCounts};
ghost use Rattle.pio_assemble.specs.Program.{assembled_of};
ghost use Rattle.program_listing.specs.Listing as spec;

use itoa::Buffer;
use pio_assemble::Program;
use pio_edge::{Sink, SinkFailed, put_all};
use pio_encode::SideRule;

/// Puts the line of a program.
pub(crate) fn put_program_line<S: Sink>(sink: &mut S, program: &Program) -> Result<(), SinkFailed>
    ensures bytes { Takes (S.taken sink.old) (spec.program_line (assembled_of program.now))
        (S.taken sink.new) result }
    ensures cause { PutCounts (S.faults sink.old) (S.faults sink.new) result }
{
    let mut address = Buffer::new();
    let mut bits = Buffer::new();
    let mut bottom = Buffer::new();
    let mut top = Buffer::new();
    put_all(
        sink,
        &[
            b"program ",
            program.name.as_bytes(),
            b" origin ",
            origin_text(&mut address, program.origin).as_bytes(),
            b" side ",
            bits.format(program.side.bits).as_bytes(),
            opt_text(&program.side).as_bytes(),
            pindirs_text(&program.side).as_bytes(),
            b" wrap ",
            bottom.format(program.wrap_bottom).as_bytes(),
            b" ",
            top.format(program.wrap_top).as_bytes(),
            b"\n",
        ],
    )
}

/// The digits of an origin, or `none`.
fn origin_text(digits: &mut Buffer, origin: Option<u8>) -> &str
    ensures { result.now ≡ spec.origin_text origin }
{
    match origin {
        None => "none",
        Some(address) => digits.format(address),
    }
}

/// `opt` with a blank in front, where it is.
fn opt_text(side: &SideRule) -> &str
    ensures { result.now ≡ spec.opt_text side.now.opt }
{
    if side.opt { " opt" } else { "" }
}

/// `pindirs` with a blank in front, where it is.
fn pindirs_text(side: &SideRule) -> &str
    ensures { result.now ≡ spec.pindirs_text side.now.pindirs }
{
    if side.pindirs { " pindirs" } else { "" }
}
