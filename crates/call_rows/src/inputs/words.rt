//! What the words of a call ask for, and what is said of them.
use command_line::{Order, RunFiles, WordsFault, advice, read};
use std::alloc::{AllocError, Global};

/// Adds what words ask for, or `usage`. A blank is between two words, so between two blanks is a word of no letters.
pub fn tell_words(alloc: Global, words: &str, text: &mut String) -> Option<()> {
    let call = call_of(alloc, words).ok()?;
    tell_read(&read(alloc, &call), text)
}

fn tell_read(read: &Result<Order, WordsFault>, text: &mut String) -> Option<()> {
    match read {
        Ok(order) => tell_order(order, text).ok(),
        Err(WordsFault::Usage) => text.push_str("usage").ok(),
        Err(WordsFault::Memory) => None,
    }
}

fn tell_order(order: &Order, text: &mut String) -> Result<(), AllocError> {
    match order {
        Order::Asm { file } => write!(text, "asm {file:?}"),
        Order::Run { files, clocks } => tell_run("run", files, *clocks, text),
        Order::Measure { files, clocks } => tell_run("measure", files, *clocks, text),
        Order::Inspect { files, clocks } => tell_run("inspect", files, *clocks, text),
        Order::Receive {
            files,
            clocks,
            line,
        } => {
            tell_run("receive", files, *clocks, text)?;
            write!(text, " pin {} bit {}", line.pin, line.bit)
        }
        Order::Shares { source, config } => write!(text, "shares {source:?} {config:?}"),
        Order::Gen { seed, clocks } => write!(text, "gen {seed} {clocks}"),
        Order::Dis { file, side, opt } => write!(text, "dis {file:?} {side} {opt}"),
        Order::Uart {
            send,
            divider,
            clocks,
        } => write!(text, "uart {send:?} {divider} {clocks}"),
        _ => text.push_str("another order"),
    }
}

/// Adds a subcommand, the files of its run and the clocks.
fn tell_run(
    name: &str,
    files: &RunFiles,
    clocks: u64,
    text: &mut String,
) -> Result<(), AllocError> {
    write!(
        text,
        "{name} {:?} {:?} {:?} {clocks}",
        files.source, files.config, files.stimulus
    )
}

/// Adds which part of what is said of words there is: a row asks for the words and, on a line after them, a text.
pub fn tell_advice(alloc: Global, asked: &str, text: &mut String) -> Option<()> {
    let (words, part) = asked.split_once('\n')?;
    let call = call_of(alloc, words).ok()?;
    match advice(alloc, &call).ok()? {
        Some(said) if said.contains(part) => text.push_str("said").ok(),
        Some(_) => text.push_str("not said").ok(),
        None => text.push_str("nothing").ok(),
    }
}

/// The words of a call: none at all in `no words`.
fn call_of(alloc: Global, words: &str) -> Result<Vec<String>, AllocError> {
    let mut call = Vec::new(alloc);
    if words == "no words" {
        return Ok(call);
    }
    for word in words.split(' ') {
        call.push(String::from_str(alloc, word)?)?;
    }
    Ok(call)
}
