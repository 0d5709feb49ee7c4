//! Bytes that values make.

use crate::words;
use rhai_values::{Cause, Value};
use std::alloc::Global;
use std::rc::Rc;

/// The bits of an integer that a byte keeps.
const BYTE: i64 = 0xff;

/// The lowest bits of an integer.
#[must_use]
pub fn byte_of(number: i64) -> u8 {
    u8::try_from(number & BYTE).unwrap_or(0)
}

/// Appends the bytes of a blob, of a text or of a character, or an integer as one byte. Of other values it appends nothing, and
/// gives `false`.
///
/// # Errors
/// Out of memory.
pub fn append(alloc: Global, bytes: &mut Rc<Vec<u8>>, value: &Value) -> Result<bool, Cause> {
    match value {
        Value::Int(number) => Rc::make_mut(bytes)?.push(byte_of(*number))?,
        Value::Blob(other) => Rc::make_mut(bytes)?.extend_from_slice(other.as_slice())?,
        value => match words::text_of(alloc, value)? {
            Some(text) => Rc::make_mut(bytes)?.extend_from_slice(text.as_str().as_bytes())?,
            None => return Ok(false),
        },
    }
    Ok(true)
}
