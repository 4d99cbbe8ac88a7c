//! The programs of a source.
use pio_assemble::{Program, ProgramSymbol, SourceFault, assemble};
use std::alloc::{AllocError, Global};

/// Adds the source's programs with their words, or its fault after its line.
pub fn tell_words(alloc: Global, source: &[u8], text: &mut String) -> Option<()> {
    match assemble(alloc, source) {
        Ok(programs) => tell_each_words(&programs, text),
        Err(fault) => tell_fault(&fault, text),
    }
}

/// Adds the source's programs with their shapes, or its fault after its line.
pub fn tell_shapes(alloc: Global, source: &[u8], text: &mut String) -> Option<()> {
    match assemble(alloc, source) {
        Ok(programs) => tell_each_shape(&programs, text),
        Err(fault) => tell_fault(&fault, text),
    }
}

fn tell_fault(fault: &SourceFault, text: &mut String) -> Option<()> {
    match fault {
        SourceFault::Found { line, kind } => write!(text, "{line} {kind}").ok(),
        SourceFault::Memory => None,
    }
}

fn tell_each_words(programs: &[Program], text: &mut String) -> Option<()> {
    for program in programs {
        tell_name(program, text).ok()?;
        for word in &program.words {
            write!(text, " {word:04x}").ok()?;
        }
    }
    Some(())
}

fn tell_each_shape(programs: &[Program], text: &mut String) -> Option<()> {
    for program in programs {
        tell_name(program, text).ok()?;
        tell_shape(program, text).ok()?;
        for symbol in program.symbols.as_slice() {
            tell_symbol(symbol, text).ok()?;
        }
    }
    Some(())
}

/// Adds the program's name, after a blank where others are before it.
fn tell_name(program: &Program, text: &mut String) -> Result<(), AllocError> {
    let gap = if text.is_empty() { "" } else { " " };
    write!(text, "{gap}{}", program.name)
}

fn tell_shape(program: &Program, text: &mut String) -> Result<(), AllocError> {
    match program.origin {
        Some(origin) => write!(text, " {origin}")?,
        None => text.push_str(" none")?,
    }
    let opt = if program.side.opt { "?" } else { "" };
    let pindirs = if program.side.pindirs { "!" } else { "" };
    write!(
        text,
        " {}{opt}{pindirs} {}..{}",
        program.side.bits, program.wrap_bottom, program.wrap_top
    )
}

fn tell_symbol(symbol: &ProgramSymbol, text: &mut String) -> Result<(), AllocError> {
    let label = if symbol.is_label { ":" } else { "" };
    let public = if symbol.public { "+" } else { "" };
    write!(text, " {}={}{label}{public}", symbol.name, symbol.value)
}
