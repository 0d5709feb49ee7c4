//! What the instructions of a picture are called.

use grain_code::Op;
use grain_listing::{Naming, effect_of};
use std::alloc::{AllocError, Global};

/// How many columns the name of an instruction has at most.
const LONGEST: usize = 44;

/// How many columns a character takes: two of those that are written wide, else one.
fn width_of(c: char) -> usize {
    if c < '\u{1100}' { 1 } else { 2 }
}

/// How many columns a text takes in letters of one width. It takes time by the length of the text.
pub fn columns(text: &str) -> usize {
    text.chars()
        .fold(0usize, |width, c| width.saturating_add(width_of(c)))
}

/// The text, cut off with an ellipsis if it takes more columns than these.
///
/// # Errors
/// [`AllocError`] if memory was refused.
pub fn shortened(alloc: Global, text: &str, most: usize) -> Result<String, AllocError> {
    if columns(text) <= most {
        return String::from_str(alloc, text);
    }
    let mut short = String::new(alloc);
    let mut width = 1usize;
    for c in text.chars() {
        width = width.saturating_add(width_of(c));
        if width > most {
            break;
        }
        short.push(c)?;
    }
    short.push('…')?;
    Ok(short)
}

/// The name of an operation in front of its debug text.
fn name_in(debug: &str) -> &str {
    let end = debug.find(|c: char| !c.is_ascii_alphanumeric());
    match end {
        Some(end) => debug.get(..end).unwrap_or(debug),
        None => debug,
    }
}

/// What follows the debug text, without what joins them.
fn meaning(rest: &str) -> &str {
    match rest.strip_prefix(" : ") {
        Some(meaning) => meaning,
        None => rest.strip_prefix(" = ").unwrap_or(rest).trim(),
    }
}

/// What an operation is called: its name with what its indices lead to, with its target, or with its fields.
fn long_label(alloc: Global, op: &Op, text: &str) -> Result<String, AllocError> {
    let debug = format!(in alloc; "{op:?}")?;
    let name = name_in(&debug);
    let rest = text.strip_prefix(debug.as_str());
    match (rest, effect_of(op).target_address()) {
        (Some(""), Some(target)) => format!(in alloc; "{name} {target}"),
        (Some(rest), _) if !rest.is_empty() => {
            let meaning = meaning(rest);
            format!(in alloc; "{name} {meaning}")
        }
        _ => String::from_str(alloc, text),
    }
}

/// What an instruction is called in a picture.
#[derive(Drop)]
pub struct Label {
    /// Its name with what matters most.
    pub short: String,
    /// Its whole text.
    pub whole: String,
}

/// What an operation is called.
///
/// # Errors
/// [`AllocError`] if memory was refused.
pub fn label_of(alloc: Global, naming: Naming<'_>, op: &Op) -> Result<Label, AllocError> {
    let mut whole = String::new(alloc);
    naming.write_op(op, &mut whole)?;
    let long = long_label(alloc, op, &whole)?;
    let short = shortened(alloc, &long, LONGEST)?;
    Ok(Label { short, whole })
}
