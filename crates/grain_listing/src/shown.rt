//! What a stranger's program brings, as text: names, values, capabilities and positions.

use grain_base::{Caps, Flags, Position};
use std::alloc::AllocError;

/// How many bytes of a name or of a text a listing shows.
const LONGEST: usize = 64;

/// Whether a character would change how the text around it is shown: a control character, or a mark of direction.
fn is_hidden(c: char) -> bool {
    c.is_control()
        || matches!(c, '\u{200e}'..='\u{200f}' | '\u{2028}'..='\u{202e}' | '\u{2066}'..='\u{2069}')
}

/// Appends what a program brings, with an escape for each character that would change how the text around it is shown.
///
/// # Errors
/// [`AllocError`] if memory was refused.
pub fn push_shown(piece: &str, text: &mut String) -> Result<(), AllocError> {
    for c in piece.chars() {
        if is_hidden(c) {
            let code = c as u32;
            write!(text, "\\u{{{code:x}}}")?;
        } else {
            text.push(c)?;
        }
    }
    Ok(())
}

/// The beginning of a text that a listing shows: whole characters, and 64 bytes at most.
fn front_of(text: &str) -> &str {
    for end in [LONGEST, 63, 62] {
        if let Some(front) = text.get(..end) {
            return front;
        }
    }
    text.get(..61).unwrap_or(text)
}

/// Whether a listing shows only the beginning of a text.
pub fn is_long(text: &str) -> bool {
    text.len() > LONGEST
}

/// Appends a name as [`push_shown`] does. A name of more than 64 bytes is cut, and an ellipsis follows, so that it takes
/// constant time.
///
/// # Errors
/// [`AllocError`] if memory was refused.
pub fn push_name(name: &str, text: &mut String) -> Result<(), AllocError> {
    if !is_long(name) {
        return push_shown(name, text);
    }
    push_shown(front_of(name), text)?;
    text.push('…')
}

/// Appends the names of capabilities with commas between them, and the bit that has none as a number.
///
/// # Errors
/// [`AllocError`] if memory was refused.
pub fn push_capabilities(caps: Caps, text: &mut String) -> Result<(), AllocError> {
    let mut is_first = true;
    for (name, _) in caps.iter_names() {
        text.push_str(if is_first { "" } else { ", " })?;
        text.push_str(name)?;
        is_first = false;
    }
    if caps.bits() & 0x8000 != 0 {
        text.push_str(if is_first { "" } else { ", " })?;
        text.push_str("0x8000")?;
    }
    Ok(())
}

/// Appends a position: its line, and its column if it has one.
///
/// # Errors
/// [`AllocError`] if memory was refused.
pub fn push_position(position: Position, text: &mut String) -> Result<(), AllocError> {
    match (position.line(), position.position()) {
        (Some(line), Some(column)) => write!(text, "{line}:{column}"),
        (Some(line), None) => write!(text, "{line}"),
        (None, _) => text.push_str("none"),
    }
}
