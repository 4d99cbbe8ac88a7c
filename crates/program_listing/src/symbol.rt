//! The lines of the symbols that a source calls public.
ghost use Rattle.std.specs.Prelude.{◌≡◌, ℕ};
ghost use Rattle.pio_edge.specs.Edge.{Takes, PutCounts};
ghost use Rattle.program_listing.specs.Listing.{public_line, public_lines};

use itoa::Buffer;
use pio_assemble::ProgramSymbol;
use pio_edge::{Sink, SinkFailed, put_all};

/// Puts the lines of the public ones among symbols, in their order.
pub(crate) fn put_publics<S: Sink>(
    sink: &mut S,
    symbols: &[ProgramSymbol],
) -> Result<(), SinkFailed>
    ensures bytes { Takes (S.taken sink.old) (public_lines symbols.now) (S.taken sink.new) result }
    ensures cause { PutCounts (S.faults sink.old) (S.faults sink.new) result }
{
    for symbol in symbols {
        if symbol.public {
            put_public(sink, symbol)?;
        }
    }
    Ok(())
}

/// Puts the line of a public symbol.
#[tactic(auto, unfolding(crate::specs::Listing::public_line))]
fn put_public<S: Sink>(sink: &mut S, symbol: &ProgramSymbol) -> Result<(), SinkFailed>
    ensures bytes { Takes (S.taken sink.old) (public_line symbol.now) (S.taken sink.new) result }
    ensures cause { PutCounts (S.faults sink.old) (S.faults sink.new) result }
{
    let mut value = Buffer::new();
    put_all(
        sink,
        &[
            b"public ",
            symbol.name.as_bytes(),
            b" ",
            value.format(symbol.value).as_bytes(),
            b"\n",
        ],
    )
}
