//! New texts out of old ones.

use crate::places::{number_of, start_of};
use rhai_values::{Cause, Text, Value};
use std::alloc::Global;

/// The text with another character at an index. It looks at each character once.
///
/// # Errors
/// Out of memory.
pub fn with_character(
    alloc: Global,
    text: &Text,
    place: usize,
    character: char,
) -> Result<Text, Cause> {
    let (before, rest) = text.split_at(place);
    let mut new = String::from_str(alloc, before)?;
    new.push(character)?;
    for old in rest.chars().skip(1) {
        new.push(old)?;
    }
    Ok(Text::of(new))
}

/// How many characters are before the first place where the other text is found; -1 if it isn't.
#[must_use]
pub fn index_of(text: &Text, other: &str) -> Value {
    match text.as_str().split_once(other) {
        Some((before, _)) => Value::Int(number_of(count_of(text, before))),
        None => Value::Int(-1),
    }
}

/// As [`index_of`], of the places from an index on. Behind the last character nothing is found.
#[must_use]
pub fn index_from(text: &Text, other: &str, start: i64) -> Value {
    let first = start_of(text.count(), start);
    if first >= text.count() {
        return Value::Int(-1);
    }
    let (_, rest) = text.split_at(first);
    match rest.split_once(other) {
        Some((before, _)) => {
            let place = first.saturating_add(count_of(text, before));
            Value::Int(number_of(place))
        }
        None => Value::Int(-1),
    }
}

/// How many characters a part of a text has.
fn count_of(text: &Text, part: &str) -> usize {
    if text.is_ascii() {
        return part.len();
    }
    part.chars().count()
}

/// The text that a text is or a character makes. `None` of other values.
///
/// # Errors
/// Out of memory.
pub fn text_of(alloc: Global, value: &Value) -> Result<Option<String>, Cause> {
    match value {
        Value::Text(text) => Ok(Some(String::from_str(alloc, text.as_str())?)),
        Value::Char(character) => {
            let mut text = String::new(alloc);
            text.push(*character)?;
            Ok(Some(text))
        }
        _ => Ok(None),
    }
}

/// The text with one part replaced by another wherever it is found. An empty part is found nowhere.
///
/// # Errors
/// Out of memory.
pub fn replaced(alloc: Global, text: &str, old: &str, new: &str) -> Result<String, Cause> {
    if old.is_empty() {
        return Ok(String::from_str(alloc, text)?);
    }
    let mut replaced = String::new(alloc);
    let mut is_first = true;
    for part in text.split(old) {
        if !is_first {
            replaced.push_str(new)?;
        }
        is_first = false;
        replaced.push_str(part)?;
    }
    Ok(replaced)
}
