//! Texts that are split at separators.

use rhai_values::{Cause, Value};
use std::alloc::Global;

/// The words that blanks separate.
///
/// # Errors
/// Out of memory.
pub fn split_at_blanks(alloc: Global, text: &str) -> Result<Value, Cause> {
    let mut parts = Vec::new(alloc);
    for part in text.split_whitespace() {
        push(alloc, &mut parts, part)?;
    }
    Ok(Value::array(alloc, parts)?)
}

/// The parts between the places where the separator is found. The empty one is found at both ends and between all characters.
///
/// # Errors
/// Out of memory.
pub fn split(alloc: Global, text: &str, separator: &str) -> Result<Value, Cause> {
    let mut parts = Vec::new(alloc);
    for part in text.split(separator) {
        push(alloc, &mut parts, part)?;
    }
    Ok(Value::array(alloc, parts)?)
}

/// As [`split`], the last part first.
///
/// # Errors
/// Out of memory.
pub fn split_rev(alloc: Global, text: &str, separator: &str) -> Result<Value, Cause> {
    let mut parts = Vec::new(alloc);
    for part in text.rsplit(separator) {
        push(alloc, &mut parts, part)?;
    }
    Ok(Value::array(alloc, parts)?)
}

/// As [`split`], with at most this many parts: the last one is all that is left.
///
/// # Errors
/// Out of memory.
pub fn split_into(
    alloc: Global,
    text: &str,
    separator: &str,
    count: usize,
) -> Result<Value, Cause> {
    let mut parts = Vec::new(alloc);
    for part in text.splitn(count.max(1), separator) {
        push(alloc, &mut parts, part)?;
    }
    Ok(Value::array(alloc, parts)?)
}

/// As [`split_rev`], with at most this many parts: the last one is all that is left.
///
/// # Errors
/// Out of memory.
pub fn split_rev_into(
    alloc: Global,
    text: &str,
    separator: &str,
    count: usize,
) -> Result<Value, Cause> {
    let mut parts = Vec::new(alloc);
    for part in text.rsplitn(count.max(1), separator) {
        push(alloc, &mut parts, part)?;
    }
    Ok(Value::array(alloc, parts)?)
}

/// Appends a copy of a part.
fn push(alloc: Global, parts: &mut Vec<Value>, part: &str) -> Result<(), Cause> {
    let part = Value::text(alloc, String::from_str(alloc, part)?)?;
    parts.push(part)?;
    Ok(())
}
