//! Values as JSON.

use rhai_values::{Cause, List, Object, SizeLimits, Value};
use std::alloc::{AllocError, Global};

/// The JSON of a value: unit, NaN and infinities are null, and what else JSON doesn't have is its text in quotes. It takes time
/// and memory by the size of the value, and recurses by its depth.
///
/// # Errors
/// [`Cause::TooLarge`] if the limits don't allow a text as long, or out of memory.
pub fn text_of(alloc: Global, limits: SizeLimits, value: &Value) -> Result<String, Cause> {
    let mut text = String::new(alloc);
    push_value(alloc, limits, &mut text, value)?;
    if text.len() > limits.size {
        return Err(Cause::TooLarge);
    }
    Ok(text)
}

/// Appends a value, if what is there already is within the limits.
#[cycle(json)]
fn push_value(
    alloc: Global,
    limits: SizeLimits,
    text: &mut String,
    value: &Value,
) -> Result<(), Cause> {
    if text.len() > limits.size {
        return Err(Cause::TooLarge);
    }
    match value {
        Value::Array(list) => push_items(alloc, limits, text, list),
        Value::Map(object) => push_entries(alloc, limits, text, object),
        value => Ok(push_scalar(alloc, text, value)?),
    }
}

#[cycle(json)]
fn push_items(
    alloc: Global,
    limits: SizeLimits,
    text: &mut String,
    list: &List,
) -> Result<(), Cause> {
    let mut before = '[';
    for item in list.items() {
        text.push(before)?;
        before = ',';
        push_value(alloc, limits, text, item)?;
    }
    Ok(push_end(text, before, "[", "]")?)
}

#[cycle(json)]
fn push_entries(
    alloc: Global,
    limits: SizeLimits,
    text: &mut String,
    object: &Object,
) -> Result<(), Cause> {
    let mut before = '{';
    for (name, value) in object.entries() {
        text.push(before)?;
        before = ',';
        push_quoted(alloc, text, name.as_str())?;
        text.push(':')?;
        push_value(alloc, limits, text, value)?;
    }
    Ok(push_end(text, before, "{", "}")?)
}

/// Appends the end of an array or an object, and its beginning too if nothing is in it.
fn push_end(text: &mut String, before: char, start: &str, end: &str) -> Result<(), AllocError> {
    if before != ',' {
        text.push_str(start)?;
    }
    text.push_str(end)
}

fn push_scalar(alloc: Global, text: &mut String, value: &Value) -> Result<(), AllocError> {
    match value {
        Value::Unit => text.push_str("null"),
        Value::Float(number) if !number.is_finite() => text.push_str("null"),
        Value::Text(part) => push_quoted(alloc, text, part.as_str()),
        Value::Pointer(pointer) => push_quoted(alloc, text, pointer.name()),
        value => push_shown(alloc, text, value),
    }
}

fn push_shown(alloc: Global, text: &mut String, value: &Value) -> Result<(), AllocError> {
    let shown = format!(in alloc; "{value}")?;
    if matches!(value, Value::Bool(_) | Value::Int(_) | Value::Float(_)) {
        return text.push_str(shown.as_str());
    }
    push_quoted(alloc, text, shown.as_str())
}

fn push_quoted(alloc: Global, text: &mut String, part: &str) -> Result<(), AllocError> {
    text.push('"')?;
    for character in part.chars() {
        push_escaped(alloc, text, character)?;
    }
    text.push('"')
}

fn push_escaped(alloc: Global, text: &mut String, character: char) -> Result<(), AllocError> {
    if let Some(escape) = escape_of(character) {
        return text.push_str(escape);
    }
    if character >= ' ' {
        return text.push(character);
    }
    let code = u32::from(character);
    let escape = format!(in alloc; "\\u{code:04x}")?;
    text.push_str(escape.as_str())
}

fn escape_of(character: char) -> Option<&'static str> {
    match character {
        '"' => Some("\\\""),
        '\\' => Some("\\\\"),
        '\n' => Some("\\n"),
        '\r' => Some("\\r"),
        '\t' => Some("\\t"),
        _ => None,
    }
}
