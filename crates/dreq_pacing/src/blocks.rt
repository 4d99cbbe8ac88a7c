//! The lines of two blocks on the same pins: machines 0 to 3 are those of the first, 4 to 7 are 0 to 3 of the second
//! (choice of this profile).
ghost use Rattle.std.specs.Prelude.{◌≡◌, ◌≤◌, ◌++◌, ◌∷◌, [], IfOk, IfSome};
ghost use Rattle.dreq_pacing.specs.Lines.{IsLineOf, IsScheduleOf};
ghost use Rattle.dreq_pacing.specs.Blocks as spec;
ghost use Rattle.dreq_pacing.specs.Blocks.{block_lines, has_machine, machine_of};

use crate::line::{Line, LineAct};
use crate::schedule::Schedule;
use std::alloc::{AllocFailed, Global};

/// The lines of each block. The error is want of memory.
pub fn split(alloc: Global, lines: Vec<Line>) -> Result<(Schedule, Schedule), AllocFailed<Line>>
    requires { IsScheduleOf 8 lines.items }
    ensures { IfOk result (λ pair. pair ≡ spec.pair_of lines.items) }
{
    let mut first = Vec::new(alloc);
    let mut second = Vec::new(alloc);
    for line in lines {
        share(line, &mut first, &mut second)?;
    }
    Ok((Schedule::of(first), Schedule::of(second)))
}

/// Adds a line to the blocks that it is for.
fn share(line: Line, first: &mut Vec<Line>, second: &mut Vec<Line>) -> Result<(), AllocFailed<Line>>
    requires { IsLineOf 8 line }
    ensures first { IfOk result (λ _. first.new.items ≡ first.old.items ++ block_lines 0 (line ∷ [])) }
    ensures second { IfOk result (λ _. second.new.items ≡ second.old.items ++ block_lines 4 (line ∷ [])) }
{
    if let LineAct::Pin { pin, level } = line.act {
        first.push(Line {
            clock: line.clock,
            act: LineAct::Pin { pin, level },
        })?;
        second.push(line)
    } else if is_first(&line.act) {
        first.push(line)
    } else {
        second.push(Line {
            clock: line.clock,
            act: less_four(line.act),
        })
    }
}

/// Whether what a line does is for the first block, be it for the second too.
fn is_first(act: &LineAct) -> bool
    ensures { result ≡ has_machine 0 (machine_of act.now) }
{
    match act {
        LineAct::Pin { .. } => true,
        LineAct::Tx { machine, .. }
        | LineAct::Rx { machine }
        | LineAct::Feed { machine, .. }
        | LineAct::Drain { machine, .. }
        | LineAct::Enable { machine }
        | LineAct::Disable { machine }
        | LineAct::Restart { machine } => *machine < 4,
    }
}

/// What a line does, with the number that its machine has in the second block.
fn less_four(act: LineAct) -> LineAct
    requires { IfSome (machine_of act) (λ machine. 4 ≤ machine) }
    ensures { result ≡ spec.own_act 4 act }
{
    match act {
        LineAct::Pin { pin, level } => LineAct::Pin { pin, level },
        LineAct::Tx { machine, word } => LineAct::Tx {
            machine: machine - 4,
            word,
        },
        LineAct::Rx { machine } => LineAct::Rx {
            machine: machine - 4,
        },
        LineAct::Feed {
            machine,
            every,
            words,
        } => LineAct::Feed {
            machine: machine - 4,
            every,
            words,
        },
        LineAct::Drain { machine, every } => LineAct::Drain {
            machine: machine - 4,
            every,
        },
        LineAct::Enable { machine } => LineAct::Enable {
            machine: machine - 4,
        },
        LineAct::Disable { machine } => LineAct::Disable {
            machine: machine - 4,
        },
        LineAct::Restart { machine } => LineAct::Restart {
            machine: machine - 4,
        },
    }
}
