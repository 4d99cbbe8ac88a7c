//! Configurations over four small programs: whole setups, which fault is the first, and its text; those of a second block;
//! and default setups.
use crate::setup_texts::{tell_second_text, tell_setup_text};
use block_config::{ConfigFault, default_setup, read_config, read_second};
use pin_matrix::Setup;
use pio_assemble::assemble;
use std::alloc::Global;

/// The programs: `square` (four words, the label `again` at the second), `ahead` (two words, a jump to the label `end` after
/// them), `fixed` (one word, origin 7) and `long` (eight words).
const PROGRAMS: &[u8] = b".program square
set pindirs, 1
again:
set pins, 1 [1]
set pins, 0
jmp again
.program ahead
jmp end
set pins, 1
end:
.program fixed
.origin 7
set pins, 3
.program long
first:
set pins, 0
set pins, 0
set pins, 0
set pins, 0
set pins, 0
set pins, 0
set pins, 0
last:
set pins, 0
";

/// Adds the first fault of a configuration over the four programs, or `ok`.
pub fn tell_fault(alloc: Global, source: &[u8], text: &mut String) -> Option<()> {
    let programs = assemble(alloc, PROGRAMS).ok()?;
    match read_config(alloc, source, &programs) {
        Ok(_) => text.push_str("ok").ok(),
        Err(fault) => tell_fault_text(&fault, text),
    }
}

/// Adds the first fault of a configuration over the four programs, and its kind.
pub fn tell_kind(alloc: Global, source: &[u8], text: &mut String) -> Option<()> {
    let programs = assemble(alloc, PROGRAMS).ok()?;
    tell_made_kind(&read_config(alloc, source, &programs), text)
}

fn tell_made_kind(made: &Result<Setup, ConfigFault>, text: &mut String) -> Option<()> {
    match made {
        Err(ConfigFault::At { key, kind }) => write!(text, "{key}: {kind} {kind:?}").ok(),
        _ => None,
    }
}

/// Adds what the setup of a configuration over the four programs says, or its first fault.
pub fn tell_setup(alloc: Global, source: &[u8], text: &mut String) -> Option<()> {
    let programs = assemble(alloc, PROGRAMS).ok()?;
    tell_made(&read_config(alloc, source, &programs), text)
}

/// Adds what the configuration of a second block over the four programs says, or its first fault.
pub fn tell_second(alloc: Global, source: &[u8], text: &mut String) -> Option<()> {
    let programs = assemble(alloc, PROGRAMS).ok()?;
    match read_second(alloc, source, &programs) {
        Ok(second) => tell_second_text(&second, text).ok(),
        Err(fault) => tell_fault_text(&fault, text),
    }
}

/// Adds what the default setup of a source's programs says, or its fault.
pub fn tell_default(alloc: Global, source: &[u8], text: &mut String) -> Option<()> {
    let programs = assemble(alloc, source).ok()?;
    tell_made(&default_setup(alloc, &programs), text)
}

fn tell_made(made: &Result<Setup, ConfigFault>, text: &mut String) -> Option<()> {
    match made {
        Ok(setup) => tell_setup_text(setup, text).ok(),
        Err(fault) => tell_fault_text(fault, text),
    }
}

fn tell_fault_text(fault: &ConfigFault, text: &mut String) -> Option<()> {
    match fault {
        ConfigFault::At { key, kind } => write!(text, "{key}: {kind}").ok(),
        ConfigFault::Memory => None,
    }
}
