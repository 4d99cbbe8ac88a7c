//! The declarations that a trace begins with (IEEE 1364-2005, section 18.2.3).
ghost use Rattle.std.specs.Prelude.{◌≡◌, ℕ, ◌+◌, ◌≤◌, ◌<◌, ◌∷◌, decimal, length};
ghost use Rattle.pio_edge.specs.Edge.{Takes, PutCounts};
ghost use Rattle.vcd_trace.specs.VcdText.{header_text, scope_text, identifier, variables, variable, numbered};
ghost use Rattle.vcd_trace.specs.TwinText.{twin_header_text};
ghost use Rattle.vcd_trace.specs.VcdText.{declaration, declarations, named};

use crate::variable::{LEVEL, SECOND};
use arrayvec::ArrayString;
use itoa::Buffer;
use pio_edge::{Sink, SinkFailed};

/// The variables of a sample in groups, which differ in their number alone: the letter, the width, and how many.
const GROUPS: [(u8, u8, u8); 7] = [
    (b'p', 1, 32),
    (b'd', 1, 32),
    (b'f', 1, 8),
    (b't', 4, 4),
    (b'r', 4, 4),
    (b'w', 32, 4),
    (b's', 4, 4),
];

/// Puts the declarations, each line as one piece.
pub(crate) fn put_header<S: Sink>(sink: &mut S) -> Result<(), SinkFailed>
    ensures bytes { Takes (S.taken sink.old) header_text (S.taken sink.new) result }
    ensures cause { PutCounts (S.faults sink.old) (S.faults sink.new) result }
{
    sink.put(b"$timescale 1 ns $end\n")?;
    put_scope(sink, b"$scope module pio $end\n", 0)?;
    sink.put(b"$enddefinitions $end\n")
}

/// Puts the declarations of two blocks, a scope for each.
pub(crate) fn put_twin_header<S: Sink>(sink: &mut S) -> Result<(), SinkFailed>
    ensures bytes { Takes (S.taken sink.old) twin_header_text (S.taken sink.new) result }
    ensures cause { PutCounts (S.faults sink.old) (S.faults sink.new) result }
{
    sink.put(b"$timescale 1 ns $end\n")?;
    put_scope(sink, b"$scope module pio0 $end\n", 0)?;
    put_scope(sink, b"$scope module pio1 $end\n", SECOND)?;
    sink.put(b"$enddefinitions $end\n")
}

/// A scope that begins with this line, whose variables have numbers so much greater.
pub(crate) fn put_scope<S: Sink>(sink: &mut S, opening: &[u8], more: u8) -> Result<(), SinkFailed>
    requires { more ≤ 128 }
    ensures bytes { Takes (S.taken sink.old) (scope_text opening.now more) (S.taken sink.new) result }
    ensures cause { PutCounts (S.faults sink.old) (S.faults sink.new) result }
{
    sink.put(opening)?;
    put_declarations(sink, LEVEL + more)?;
    sink.put(b"$upscope $end\n")
}

fn put_declarations<S: Sink>(sink: &mut S, first: u8) -> Result<(), SinkFailed>
    requires { first ≤ 161 }
    ensures bytes { Takes (S.taken sink.old) (declarations first variables)
        (S.taken sink.new) result }
    ensures cause { PutCounts (S.faults sink.old) (S.faults sink.new) result }
{
    let mut id = first;
    for group in &GROUPS {
        let (letter, width, count) = *group;
        put_group(sink, id, letter, width, count)?;
        id += count;
    }
    Ok(())
}

/// The declarations of a group, whose identifiers count on from one.
pub(crate) fn put_group<S: Sink>(
    sink: &mut S,
    first: u8,
    letter: u8,
    width: u8,
    count: u8,
) -> Result<(), SinkFailed>
    requires ids { first + count ≤ 255 }
    requires letter { letter < 128 }
    ensures bytes { Takes (S.taken sink.old) (declarations first (numbered letter width 0 count))
        (S.taken sink.new) result }
    ensures cause { PutCounts (S.faults sink.old) (S.faults sink.new) result }
{
    for number in 0..count {
        put_declaration(sink, first + number, letter, width, number)?;
    }
    Ok(())
}

fn put_declaration<S: Sink>(
    sink: &mut S,
    id: u8,
    letter: u8,
    width: u8,
    number: u8,
) -> Result<(), SinkFailed>
    requires letter { letter < 128 }
    ensures bytes { Takes (S.taken sink.old) (declaration id (variable letter width number))
        (S.taken sink.new) result }
    ensures cause { PutCounts (S.faults sink.old) (S.faults sink.new) result }
{
    let mut name = ArrayString::<4>::new();
    name.push(char::from(letter));
    name.push_str(Buffer::new().format(number));
    put_named(sink, id, name.as_str(), width)
}

/// The declaration of a variable of this name and width.
pub(crate) fn put_named<S: Sink>(
    sink: &mut S,
    id: u8,
    name: &str,
    width: u8,
) -> Result<(), SinkFailed>
    requires { length name.now ≤ 11 }
    ensures bytes { Takes (S.taken sink.old)
        (declaration id (named name.now width)) (S.taken sink.new) result }
    ensures cause { PutCounts (S.faults sink.old) (S.faults sink.new) result }
{
    let mut digits = Buffer::new();
    let mut line = ArrayString::<40>::new();
    line.push_str("$var wire ");
    line.push_str(digits.format(width));
    line.push(' ');
    line.push_str(identifier_of(id).as_str());
    line.push(' ');
    line.push_str(name);
    line.push_str(" $end\n");
    sink.put(line.as_str().as_bytes())
}

// The identifier of a variable.
fn identifier_of(id: u8) -> ArrayString<2>
    ensures { result.bytes ≡ identifier id }
{
    let mut text = ArrayString::<2>::new();
    if id < SECOND {
        text.push(char::from(id));
    } else {
        text.push('~');
        text.push(char::from(id - SECOND));
    }
    text
}
