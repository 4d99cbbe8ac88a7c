//! The faults of a span that isn't provable, and of a table that proves none.
ghost use Rattle.std.specs.Prelude.{◌≡◌, IfOk};
ghost use Rattle.commands.specs.Tables.{IsFlawOf, IsRefusalOf};

use fault_lines::Fault;
use pin_matrix::Span;
use pio_encode::Name;
use span_texts::Refusal;
use span_verdict::Flaw;
use std::alloc::{AllocError, Global};

/// The fault of the span at this place, which isn't provable, or out of memory.
pub fn unproved(alloc: Global, place: usize, span: &Span, refusal: Refusal) -> Fault
    ensures { IsRefusalOf place span.now refusal result }
{
    match name_of(alloc, span) {
        Ok(name) => Fault::Unproved(place, name, refusal),
        Err(_) => Fault::Memory,
    }
}

/// The fault of a table that doesn't prove the span at this place, or out of memory.
pub fn flawed(alloc: Global, place: usize, span: &Span, flaw: Flaw) -> Fault
    ensures { IsFlawOf place span.now flaw result }
{
    match name_of(alloc, span) {
        Ok(name) => Fault::Flaw(place, name, flaw),
        Err(_) => Fault::Memory,
    }
}

/// A span's name, once more. The error is out of memory.
fn name_of(alloc: Global, span: &Span) -> Result<Name, AllocError>
    ensures { IfOk result (λ name. name ≡ span.now.name) }
{
    let text = String::from_str(alloc, span.name.as_str())?;
    Ok(Name::new(text))
}
