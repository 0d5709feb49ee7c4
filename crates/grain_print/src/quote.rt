//! Texts and characters as Rhai writes them.

use std::alloc::{AllocError, Global};

/// How many bytes of a text a comment shows.
const LONGEST: usize = 64;

/// Appends a character of a literal, with an escape if it would end the literal or isn't printable.
fn write_escaped(out: &mut String, c: char, quote: char) -> Result<(), AllocError> {
    if c == quote || c == '\\' {
        out.push('\\')?;
        return out.push(c);
    }
    if c.is_ascii_control() {
        let code = c as u32;
        write!(out, "\\x{code:02x}")?;
        return Ok(());
    }
    out.push(c)
}

/// Appends a text in quotes.
pub fn write_text(out: &mut String, text: &str) -> Result<(), AllocError> {
    out.push('"')?;
    for c in text.chars() {
        write_escaped(out, c, '"')?;
    }
    out.push('"')
}

/// The beginning of a text: whole characters, and 64 bytes at most.
fn front_of(text: &str) -> &str {
    for end in [LONGEST, 63, 62] {
        if let Some(front) = text.get(..end) {
            return front;
        }
    }
    text.get(..61).unwrap_or(text)
}

/// Appends a text in quotes for a comment. One of more than 64 bytes is cut, and an ellipsis follows the quotes. It takes
/// constant time.
pub fn write_front(out: &mut String, text: &str) -> Result<(), AllocError> {
    if text.len() <= LONGEST {
        return write_text(out, text);
    }
    write_text(out, front_of(text))?;
    out.push('…')
}

/// Cuts a text that is longer than 64 bytes, and marks it with an ellipsis.
pub fn cut(alloc: Global, text: &str) -> Result<String, AllocError> {
    if text.len() <= LONGEST {
        return String::from_str(alloc, text);
    }
    let front = front_of(text);
    format!(in alloc; "{front}…")
}

/// Appends a character in quotes.
pub fn write_char(out: &mut String, c: char) -> Result<(), AllocError> {
    out.push('\'')?;
    write_escaped(out, c, '\'')?;
    out.push('\'')
}
