//! What the first line of a text gives.
use byte_lines::first_line;

/// Adds how many bytes the first line of a text has, and how many come after its newline.
pub fn tell_first_line(asked: &str, text: &mut String) -> Option<()> {
    let (line, rest) = first_line(asked.as_bytes());
    match rest {
        Some(rest) => write!(text, "{}, {}", line.len(), rest.len()).ok(),
        None => write!(text, "{}", line.len()).ok(),
    }
}
