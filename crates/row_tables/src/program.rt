//! A program that runs tables. Its words are the files of the tables. The rows of a table in a folder `refused` have to fail.
use crate::table::{Fault, RowKind, Wanted, run_table};
use std::alloc::{AllocError, Global};
use std::rt::{Env, Files};
use std::{env, fs, io};

/// Runs the tables that the words of the call name, in order, up to the first one that fails, and prints how many rows each
/// has. None where one fails, which is told on standard error.
pub fn run_all<K: RowKind, R: Env + Files + Print + Eprint + AllocGlobal>(rt: &R) -> Option<()> {
    let words: Result<Vec<String>, AllocError> = env::args(rt).ok()?.collect(rt.alloc());
    for name in words.ok()?.iter().skip(1) {
        match run_file::<K, R>(rt, name) {
            Ok(count) => print_count(rt, name, count).ok()?,
            Err(fault) => {
                eprintln!(rt; "rows: {name}{fault}").ok()?;
                return None;
            }
        }
    }
    Some(())
}

/// Runs the table in a file: how many rows it has.
fn run_file<K: RowKind, R: Files + AllocGlobal>(rt: &R, name: &str) -> Result<u32, Fault> {
    let text = fs::read_to_string(rt, name).map_err(|_| Fault::NotRead)?;
    run_table::<K, R>(rt, rt.alloc(), &text, wanted_of(name))
}

/// What a file's rows have to do.
fn wanted_of(name: &str) -> Wanted {
    if name.contains("refused/") {
        Wanted::Fail
    } else {
        Wanted::Hold
    }
}

fn print_count(rt: &impl Print, name: &str, count: u32) -> io::Result<()> {
    match wanted_of(name) {
        Wanted::Hold => println!(rt; "{name}: {count} rows"),
        Wanted::Fail => println!(rt; "{name}: {count} rows, all refused"),
    }
}
