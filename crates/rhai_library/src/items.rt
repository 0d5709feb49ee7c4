//! Items of values by their indices: of arrays, the characters of texts, the bytes of blobs, and the bits of integers.

use crate::calls::call;
use crate::function::Function;
use crate::{bits, blobs};
use rhai_values::{Cause, SizeLimits, Text, Value, place_of};
use std::alloc::Global;

/// The place of an item that has to be there, in an array of this length.
///
/// # Errors
/// [`Cause::WrongType`] if the index is no integer, [`Cause::OutOfBounds`] if no item lies there.
pub fn item_place(len: usize, index: Option<&Value>) -> Result<usize, Cause> {
    let Some(Value::Int(index)) = index else {
        return Err(Cause::WrongType("an integer as index"));
    };
    match place_of(len, *index) {
        Some(place) => Ok(place),
        None => Err(Cause::OutOfBounds(*index, len)),
    }
}

/// The character of a text, the byte of a blob, or the bit of an integer, at an index; or the bits of an integer in a range.
///
/// # Errors
/// As [`item_place`], and [`Cause::WrongType`] for a value of another type.
pub fn item_of(value: &Value, index: &Value) -> Result<Value, Cause> {
    match (value, index) {
        (Value::Text(text), Value::Int(index)) => match character_at(text, *index) {
            Some(character) => Ok(Value::Char(character)),
            None => Err(Cause::OutOfBounds(*index, text.count())),
        },
        (Value::Blob(bytes), Value::Int(index)) => match blobs::byte_at(bytes, *index) {
            Some(byte) => Ok(byte),
            None => Err(Cause::OutOfBounds(*index, bytes.len())),
        },
        (Value::Int(number), Value::Int(index)) => bits::bit_at(*number, *index),
        (Value::Int(number), Value::Range(range)) => bits::bits_in(*number, range),
        (_, Value::Int(_)) => Err(Cause::WrongType("a value that has items")),
        _ => Err(Cause::WrongType("an integer as index")),
    }
}

/// The character of a text at an index, if there is one. It takes time by the characters before it, unless each is one byte.
pub(crate) fn character_at(text: &Text, index: i64) -> Option<char> {
    text.character(place_of(text.count(), index)?)
}

/// Replaces the character of a text, the byte of a blob, or the bit of an integer, at an index; or the bits of an integer in a
/// range. After the last character it changes nothing.
///
/// # Errors
/// [`Cause::WrongType`] if the value has no such items, or what is assigned is none; [`Cause::OutOfBounds`] if no bit or byte lies there; or
/// out of memory.
pub fn assign_item(
    alloc: Global,
    limits: SizeLimits,
    value: &mut Value,
    index: Option<&Value>,
    assigned: Value,
) -> Result<(), Cause> {
    let Some(index) = index else {
        return Err(Cause::WrongType("a value that has items"));
    };
    if let Value::Int(number) = value {
        return bits::assign(number, index, &assigned);
    }
    if let Value::Blob(bytes) = value {
        return blobs::assign(bytes, index, &assigned);
    }
    let Value::Text(_) = &*value else {
        return Err(Cause::WrongType("a value that has items"));
    };
    let arguments = [index.clone()?, assigned];
    match call(alloc, limits, Function::Set, value, &arguments)? {
        Some(_) => Ok(()),
        None => Err(Cause::WrongType("a character")),
    }
}
