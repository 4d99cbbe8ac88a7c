//! The first lines of a trace, from the table of its variables.
use std::alloc::{AllocError, Global};

/// The variables of a block: the letter of their names, their width, and how many there are.
const VARIABLES: [(char, u8, u8); 7] = [
    ('p', 1, 32),
    ('d', 1, 32),
    ('f', 1, 8),
    ('t', 4, 4),
    ('r', 4, 4),
    ('w', 32, 4),
    ('s', 4, 4),
];

/// What the identifiers of a block begin with: those of the second with a tilde.
fn mark_of(block: usize) -> &'static str {
    if block == 0 { "" } else { "~" }
}

/// Adds the lines up to `#0`, with a scope of each name.
pub fn add_header(alloc: Global, names: &str, bytes: &mut Vec<u8>) -> Result<(), AllocError> {
    let mut text = String::from_str(alloc, "$timescale 1 ns $end\n")?;
    for (block, name) in names.split(' ').enumerate() {
        add_scope(name, mark_of(block), &mut text)?;
    }
    text.push_str("$enddefinitions $end\n#0\n")?;
    bytes.extend_from_slice(text.as_bytes())
}

fn add_scope(name: &str, mark: &str, text: &mut String) -> Result<(), AllocError> {
    write!(text, "$scope module {name} $end\n")?;
    let mut id = b'!';
    for (letter, width, count) in VARIABLES {
        for number in 0..count {
            let place = char::from(id);
            write!(
                text,
                "$var wire {width} {mark}{place} {letter}{number} $end\n"
            )?;
            id = id.wrapping_add(1);
        }
    }
    text.push_str("$upscope $end\n")
}

/// Adds the first sample. The list of a block has the values that aren't 0, with `, ` between; that of a second block
/// comes after ` / `.
pub fn add_first_sample(alloc: Global, lists: &str, bytes: &mut Vec<u8>) -> Result<(), AllocError> {
    let mut text = String::from_str(alloc, "$dumpvars\n")?;
    for (block, list) in lists.split(" / ").enumerate() {
        add_values(list, mark_of(block), &mut text)?;
    }
    text.push_str("$end\n")?;
    bytes.extend_from_slice(text.as_bytes())
}

/// Adds the values of a block.
fn add_values(list: &str, mark: &str, text: &mut String) -> Result<(), AllocError> {
    for id in b'!'..=b'x' {
        add_value(list, mark, id, text)?;
    }
    Ok(())
}

/// Adds the value of a variable: that of the list, or 0. The variables up to `h` have one bit.
fn add_value(list: &str, mark: &str, id: u8, text: &mut String) -> Result<(), AllocError> {
    let place = char::from(id);
    for value in list.split(", ") {
        if value.ends_with(place) {
            return write!(text, "{value}\n");
        }
    }
    if id <= b'h' {
        write!(text, "0{mark}{place}\n")
    } else {
        write!(text, "b0 {mark}{place}\n")
    }
}
