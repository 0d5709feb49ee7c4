//! Errors as a person reads them, with the line of the source text.

use crate::error::{CompileError, Problem};
use grain_base::pos::Site;
use std::alloc::{AllocError, Global};

/// How many characters before the column an excerpt has: with [`MOST_BEHIND`] it fits a wide terminal.
const MOST_BEFORE: usize = 80;

/// How many characters from the column on an excerpt has.
const MOST_BEHIND: usize = 80;

/// An error as a person reads it: the file, the place and the sentence, then the line with a caret below the place. If
/// another place explains the error, that follows as a note. It takes time linear in the length of the text.
///
/// # Errors
/// The allocator refused.
pub fn report(
    alloc: Global,
    file: &str,
    source: &str,
    error: &CompileError,
) -> Result<String, AllocError> {
    let mut text = String::from_str(alloc, file)?;
    let line = format!(in alloc; ":{error}\n")?;
    if !error.place.is_some() {
        text.push_str(": error")?;
        text.push_str(line.as_str())?;
        return Ok(text);
    }
    let place = error.place;
    let problem = error.problem;
    let line = format!(in alloc; ":{place}: error: {problem}\n")?;
    text.push_str(line.as_str())?;
    add_excerpt(alloc, &mut text, source, place)?;
    if let Some((place, note)) = note_of(error.problem) {
        let line = format!(in alloc; "{file}:{place}: note: {note}\n")?;
        text.push_str(line.as_str())?;
        add_excerpt(alloc, &mut text, source, place)?;
    }
    Ok(text)
}

/// Another place that explains the problem, with what is there.
fn note_of(problem: Problem) -> Option<(Site, &'static str)> {
    match problem {
        Problem::Unclosed(_, place) if place.is_some() => {
            Some((place, "the bracket is opened here"))
        }
        Problem::UnknownVariable(place) if place.is_some() => {
            Some((place, "a variable with a similar name is declared here"))
        }
        _ => None,
    }
}

/// Adds the line of a place, and below it a caret at the column. Of a long line it is the part around the column.
fn add_excerpt(
    alloc: Global,
    text: &mut String,
    source: &str,
    place: Site,
) -> Result<(), AllocError> {
    let Some(line) = line_of(source, place.line) else {
        return Ok(());
    };
    let (shown, indent) = excerpt_of(alloc, line, place.column.saturating_sub(1) as usize)?;
    text.push_str("  ")?;
    text.push_str(shown.as_str())?;
    text.push_str("\n  ")?;
    text.push_str(indent.as_str())?;
    text.push_str("^\n")
}

/// The line of this number, counted from 1.
fn line_of(source: &str, number: u32) -> Option<&str> {
    let before = number.checked_sub(1)?;
    source.split('\n').nth(before as usize)
}

/// The part of a line around a character, and blanks as wide as what it has before that one.
fn excerpt_of(alloc: Global, line: &str, column: usize) -> Result<(String, String), AllocError> {
    let mut shown = String::new(alloc);
    let mut indent = String::new(alloc);
    let first = column.saturating_sub(MOST_BEFORE);
    let end = column.saturating_add(MOST_BEHIND);
    if first > 0 {
        shown.push_str("...")?;
        indent.push_str("   ")?;
    }
    for (index, c) in line.chars().enumerate() {
        if index >= end {
            shown.push_str("...")?;
            break;
        }
        if index >= first {
            let width = add_shown(alloc, &mut shown, c)?;
            if index < column {
                add_blanks(&mut indent, c, width)?;
            }
        }
    }
    Ok((shown, indent))
}

/// Adds a character, or its code if it is one that controls the terminal, and returns how many columns that takes.
fn add_shown(alloc: Global, shown: &mut String, c: char) -> Result<usize, AllocError> {
    if !c.is_control() || c == '\t' {
        shown.push(c)?;
        return Ok(1);
    }
    let code = u32::from(c);
    let escaped = format!(in alloc; "\\u{{{code:x}}}")?;
    shown.push_str(escaped.as_str())?;
    Ok(escaped.len())
}

/// Adds this many blanks in place of a character. A tab stays a tab.
fn add_blanks(indent: &mut String, c: char, width: usize) -> Result<(), AllocError> {
    for _turn in 0..width {
        indent.push(if c == '\t' { '\t' } else { ' ' })?;
    }
    Ok(())
}
