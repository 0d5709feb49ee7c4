//! Lines of a text that is refused, as messages show them.

use grain::Position;
use grain::pos::Site;
use grain_listing::push_shown;
use rhai_errors::{CompileError, Problem};
use std::alloc::{AllocError, Global};

/// How many bytes of a line are shown before a column, and how many after it.
const SIDE: usize = 160;

/// The part of a line around an index of it.
#[derive(Clone, Copy)]
struct Window<'a> {
    /// The bytes before the index.
    before: &'a str,
    /// The bytes from the index on.
    behind: &'a str,
    /// Whether the line begins before that.
    is_cut_before: bool,
    /// Whether the line continues after them.
    is_cut_behind: bool,
}

/// The first index from this one on at which a character of a text begins, or the end of the text.
fn boundary_from(text: &str, at: usize) -> usize {
    for place in [at, at.saturating_add(1), at.saturating_add(2)] {
        if text.is_char_boundary(place) {
            return place;
        }
    }
    at.saturating_add(3).min(text.len())
}

impl<'a> Window<'a> {
    /// The part of a line around the character at a byte of it.
    fn of(line: &'a str, at: usize) -> Window<'a> {
        let at = boundary_from(line, at.min(line.len()));
        let first = boundary_from(line, at.saturating_sub(SIDE));
        let end = boundary_from(line, at.saturating_add(SIDE).min(line.len()));
        Window {
            before: line.get(first..at).unwrap_or_default(),
            behind: line.get(at..end).unwrap_or_default(),
            is_cut_before: first > 0,
            is_cut_behind: end < line.len(),
        }
    }
}

/// Appends a piece of a line. Tabs stay, all else that would change how the text around it is shown is escaped.
fn push_piece(piece: &str, text: &mut String) -> Result<(), AllocError> {
    let mut is_first = true;
    for part in piece.split('\t') {
        text.push_str(if is_first { "" } else { "\t" })?;
        push_shown(part, text)?;
        is_first = false;
    }
    Ok(())
}

/// Appends the shown bytes before the index.
fn push_before(window: Window<'_>, text: &mut String) -> Result<(), AllocError> {
    text.push_str(if window.is_cut_before { "…" } else { "" })?;
    push_piece(window.before, text)
}

/// Appends the shown bytes of a line.
fn push_window(window: Window<'_>, text: &mut String) -> Result<(), AllocError> {
    push_before(window, text)?;
    push_piece(window.behind, text)?;
    text.push_str(if window.is_cut_behind { "…" } else { "" })
}

/// Appends a line around a byte of it.
///
/// # Errors
/// [`AllocError`] if memory was refused.
pub fn push_excerpt(line: &str, at: usize, text: &mut String) -> Result<(), AllocError> {
    push_window(Window::of(line, at), text)
}

/// Appends blanks as wide as the shown bytes before the index. A tab stays a tab.
fn push_indent(window: Window<'_>, text: &mut String) -> Result<(), AllocError> {
    let mut before = String::new(*text.allocator());
    push_before(window, &mut before)?;
    for c in before.chars() {
        text.push(if c == '\t' { '\t' } else { ' ' })?;
    }
    Ok(())
}

/// The line and the column of a position, if it has both.
pub fn site_of(position: Position) -> Option<Site> {
    let line = position.line()?;
    let column = position.position()?;
    Some(Site {
        line: line as u32,
        column: column as u32,
    })
}

/// The line of this number, counted from 1.
fn line_of(source: &str, number: u32) -> Option<&str> {
    let before = number.checked_sub(1)?;
    let line = source.split('\n').nth(before as usize)?;
    Some(line.strip_suffix('\r').unwrap_or(line))
}

/// The byte of a line at which a character begins, counted from 1, or the line's end.
fn byte_of(line: &str, column: u32) -> usize {
    match line.char_indices().nth(column.saturating_sub(1) as usize) {
        Some((at, _)) => at,
        None => line.len(),
    }
}

/// The part of its line that is before a position. It is empty if the script has no such line.
pub fn before(source: &str, place: Site) -> &str {
    let line = line_of(source, place.line).unwrap_or_default();
    line.get(..byte_of(line, place.column)).unwrap_or_default()
}

/// Appends the line of a script at a position, if it has one, and below it a caret.
///
/// # Errors
/// [`AllocError`] if memory was refused.
pub fn push_marked(source: &str, place: Site, text: &mut String) -> Result<(), AllocError> {
    let Some(line) = line_of(source, place.line) else {
        return Ok(());
    };
    let window = Window::of(line, byte_of(line, place.column));
    text.push_str("  ")?;
    push_window(window, text)?;
    text.push_str("\n  ")?;
    push_indent(window, text)?;
    text.push_str("^\n")
}

/// Another position that explains the problem, and a sentence about it.
fn note_of(problem: Problem) -> Option<(Site, &'static str)> {
    match problem {
        Problem::Unclosed(_, place) if place.is_some() => {
            Some((place, "the bracket is opened here"))
        }
        Problem::UnknownVariable(place) if place.is_some() => {
            Some((place, "a variable with a similar name is declared here"))
        }
        _ => None,
    }
}

/// Appends a message about a position of a script, and its line.
///
/// # Errors
/// [`AllocError`] if memory was refused.
pub fn push_message(
    file: &str,
    source: &str,
    place: Site,
    message: &str,
    text: &mut String,
) -> Result<(), AllocError> {
    push_shown(file, text)?;
    if place.is_some() {
        write!(text, ":{place}")?;
    }
    text.push_str(": ")?;
    push_shown(message, text)?;
    text.push('\n')?;
    push_marked(source, place, text)
}

/// Appends an error of a script: its position and sentence, the line, and the note that belongs to it.
///
/// # Errors
/// [`AllocError`] if memory was refused.
pub fn push_report(
    file: &str,
    source: &str,
    error: &CompileError,
    text: &mut String,
) -> Result<(), AllocError> {
    let alloc: Global = *text.allocator();
    let problem = error.problem;
    let message = format!(in alloc; "error: {problem}")?;
    push_message(file, source, error.place, &message, text)?;
    if let Some((place, note)) = note_of(error.problem) {
        let message = format!(in alloc; "note: {note}")?;
        push_message(file, source, place, &message, text)?;
    }
    Ok(())
}
