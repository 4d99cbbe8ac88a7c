//! piotool: assembles programs of the RP2040's PIO, and traces what they do to its pins, clock by clock.
//! Here real files, standard output and standard error are handed to the one call that does everything.
#![tactic(auto)]

ghost use Rattle.std.specs.Prelude.{◌≡◌, ◌≢◌, Some, None};
ghost use Rattle.fault_lines.specs.Told.{status_of};
ghost use Rattle.fault_lines.specs.declared.fault.Fault.TheVariants as spec_fault;

use command_line::advice;
use commands::piotool;
use fault_lines::{Ended, Fault, end_with};
use pio_edge::{ErrSink, FileShelf, OutSink};
use std::alloc::Global;
use std::env;
use std::io::{self, ErrorKind, Write};
use std::marker::Brand;
use std::process::ExitCode;
use std::rt::{Env, Files};
use std::sync::ledger::{Blank, Ledger};
use step_count::Steps;

fn main(rt: HostRuntime) -> ExitCode {
    counted::<Brand, HostRuntime, _>(&rt, rt.stderr(), Blank::new(1)).exit_code()
}

/// The call over the real outside, which counts its steps in one ledger.
fn counted<L: Ledger, R: Env + Files + Print + Eprint + AllocGlobal, W: Write + Drop>(
    rt: &R,
    err: W,
    blank: Blank,
) -> Ended
    requires name { blank.name ≡ L.name }
    requires parts { blank.parts ≡ L.parts }
    requires whole { blank.parts ≡ 1 }
    ensures status { result.status ≡ status_of result.fault }
{
    let mut steps = Steps::<L>::new(blank);
    let mut err = ErrSink::new(err);
    match words_of(rt) {
        Ok(words) => {
            let ended = over_outside(rt, &words, &mut err, &mut steps);
            if let Some(text) = advice_after(rt.alloc(), &words, &ended) {
                let _ = rt.eprint(&text);
            }
            ended
        }
        Err(fault) => end_with(&mut err, Some(fault)),
    }
}

/// The words that the program was called with.
fn words_of<R: Env + AllocGlobal>(rt: &R) -> Result<Vec<String>, Fault> {
    let words = env::args(rt).map_err(fault_of)?;
    words.collect(rt.alloc()).map_err(|_| Fault::Memory)
}

/// Words that are no texts ask for nothing.
fn fault_of(error: io::Error) -> Fault {
    match error.kind() {
        ErrorKind::OutOfMemory => Fault::Memory,
        _ => Fault::Usage,
    }
}

/// The call with the files of the runtime and its standard output.
fn over_outside<L: Ledger, R: Files + Print + AllocGlobal, W: Write + Drop>(
    rt: &R,
    words: &[String],
    err: &mut ErrSink<W>,
    steps: &mut Steps<L>,
) -> Ended
    ensures status { result.status ≡ status_of result.fault }
{
    let mut shelf = FileShelf::new(rt.alloc(), rt);
    match OutSink::new(rt.alloc(), io::writer(rt)) {
        Ok(mut out) => piotool(rt.alloc(), words, &mut shelf, &mut out, err, steps),
        Err(_) => end_with(err, Some(Fault::Memory)),
    }
}

/// After words that ask for nothing, what there is to say of them: the help, or the mistake with its usage; and else
/// nothing. It is told as far as memory and standard error allow, since the call's line is already there.
fn advice_after(alloc: Global, words: &[String], ended: &Ended) -> Option<String>
    ensures { ended.now.fault ≢ Some spec_fault.Usage → result ≡ None }
{
    match ended.fault {
        Some(Fault::Usage) => advice(alloc, words).ok().flatten(),
        _ => None,
    }
}
