//! How many lines a stimulus has, or its first faulty one.
use dreq_pacing::{Schedule, StimFault, read_pair_stimulus, read_stimulus};
use std::alloc::Global;

/// Adds how many lines a stimulus has, or its first faulty line with the fault.
pub fn tell_lines(alloc: Global, asked: &str, text: &mut String) -> Option<()> {
    tell_read(&read_stimulus(alloc, asked.as_bytes()), text)
}

/// Adds how many lines a stimulus of two blocks has for each, or its first faulty line with the fault.
pub fn tell_pair_lines(alloc: Global, asked: &str, text: &mut String) -> Option<()> {
    tell_pair(&read_pair_stimulus(alloc, asked.as_bytes()), text)
}

fn tell_read(read: &Result<Schedule, StimFault>, text: &mut String) -> Option<()> {
    match read {
        Ok(schedule) => write!(text, "{}", schedule.lines().len()).ok(),
        Err(fault) => tell_fault(fault, text),
    }
}

fn tell_pair(read: &Result<(Schedule, Schedule), StimFault>, text: &mut String) -> Option<()> {
    match read {
        Ok((first, second)) => {
            write!(text, "{} {}", first.lines().len(), second.lines().len()).ok()
        }
        Err(fault) => tell_fault(fault, text),
    }
}

fn tell_fault(fault: &StimFault, text: &mut String) -> Option<()> {
    match fault {
        StimFault::At { line, kind } => write!(text, "{line} {kind}").ok(),
        StimFault::Memory => None,
    }
}
