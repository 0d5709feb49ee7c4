//! Functions of blobs, which are bytes in order. For a script a byte is an integer from 0 to 255, and an integer that becomes a
//! byte keeps its lowest 8 bits.

use crate::blob_parts::{self, part};
use crate::function::Function;
use crate::spans::Span;
use rhai_texts::bytes::{append, byte_of};
use rhai_texts::places::{count_of, number_of, start_of};
use rhai_values::{Cause, SizeLimits, Value, place_of};
use std::alloc::Global;
use std::rc::Rc;

pub(crate) fn call(
    alloc: Global,
    limits: SizeLimits,
    function: Function,
    bytes: &mut Rc<Vec<u8>>,
    arguments: &[Value],
) -> Result<Option<Value>, Cause> {
    if let Some(value) = blob_parts::call(alloc, function, bytes, arguments)? {
        return Ok(Some(value));
    }
    match arguments {
        [] => alone(alloc, function, bytes),
        [value] if function == Function::Append => {
            if append(alloc, bytes, value)? {
                Ok(Some(Value::Unit))
            } else {
                Ok(None)
            }
        }
        [Value::Int(number)] => with_number(alloc, function, bytes, *number),
        [Value::Int(number), Value::Int(byte)] => {
            with_place(limits, function, bytes, *number, byte_of(*byte))
        }
        _ => Ok(None),
    }
}

/// A blob of this many bytes, all of which are the same one.
pub(crate) fn filled(
    alloc: Global,
    limits: SizeLimits,
    len: i64,
    byte: i64,
) -> Result<Value, Cause> {
    let len = count_of(len);
    if len > limits.size {
        return Err(Cause::TooLarge);
    }
    let mut bytes = Vec::new(alloc);
    bytes.resize(len, byte_of(byte))?;
    Ok(Value::Blob(Rc::new(alloc, bytes)?))
}

/// A blob of the bytes of a text.
pub(crate) fn of_text(alloc: Global, text: &str) -> Result<Value, Cause> {
    let mut bytes = Vec::new(alloc);
    bytes.extend_from_slice(text.as_bytes())?;
    Ok(Value::Blob(Rc::new(alloc, bytes)?))
}

fn alone(
    alloc: Global,
    function: Function,
    bytes: &mut Rc<Vec<u8>>,
) -> Result<Option<Value>, Cause> {
    let value = match function {
        Function::Len => Value::Int(number_of(bytes.len())),
        Function::IsEmpty => Value::Bool(bytes.is_empty()),
        Function::ToArray => Value::array(alloc, Value::bytes(alloc, bytes)?)?,
        Function::AsString => Value::text(alloc, String::from_utf8_lossy(alloc, bytes)?)?,
        Function::Pop => Value::Int(i64::from(Rc::make_mut(bytes)?.pop().unwrap_or(0))),
        Function::Shift => removed(bytes, 0)?,
        Function::Clear => {
            *bytes = Rc::new(alloc, Vec::new(alloc))?;
            Value::Unit
        }
        Function::Reverse => {
            Rc::make_mut(bytes)?.reverse();
            Value::Unit
        }
        _ => return Ok(None),
    };
    Ok(Some(value))
}

fn with_number(
    alloc: Global,
    function: Function,
    bytes: &mut Rc<Vec<u8>>,
    number: i64,
) -> Result<Option<Value>, Cause> {
    let value = match function {
        Function::Contains => Value::Bool(bytes.contains(&byte_of(number))),
        Function::Get => byte_at(bytes, number).unwrap_or(Value::Int(0)),
        Function::Remove => match place_of(bytes.len(), number) {
            Some(place) => removed(bytes, place)?,
            None => Value::Int(0),
        },
        Function::Push => {
            Rc::make_mut(bytes)?.push(byte_of(number))?;
            Value::Unit
        }
        Function::Truncate => {
            Rc::make_mut(bytes)?.truncate(count_of(number));
            Value::Unit
        }
        Function::Chop => {
            let end = bytes.len();
            let first = end.saturating_sub(count_of(number));
            *bytes = part(alloc, bytes, Span { first, end })?;
            Value::Unit
        }
        _ => return Ok(None),
    };
    Ok(Some(value))
}

fn with_place(
    limits: SizeLimits,
    function: Function,
    bytes: &mut Rc<Vec<u8>>,
    index: i64,
    byte: u8,
) -> Result<Option<Value>, Cause> {
    match function {
        // Behind the last byte it changes nothing.
        Function::Set => {
            let _is_set = set(bytes, index, byte)?;
            Ok(Some(Value::Unit))
        }
        Function::Insert => {
            let place = start_of(bytes.len(), index);
            Rc::make_mut(bytes)?.insert(place, byte)?;
            Ok(Some(Value::Unit))
        }
        Function::Pad => {
            padded(limits, bytes, count_of(index), byte)?;
            Ok(Some(Value::Unit))
        }
        _ => Ok(None),
    }
}

/// Appends a byte until there are as many bytes.
fn padded(limits: SizeLimits, bytes: &mut Rc<Vec<u8>>, len: usize, byte: u8) -> Result<(), Cause> {
    if len > limits.size {
        return Err(Cause::TooLarge);
    }
    if len > bytes.len() {
        Rc::make_mut(bytes)?.resize(len, byte)?;
    }
    Ok(())
}

/// Takes the byte at a place out; 0 if there is none.
fn removed(bytes: &mut Rc<Vec<u8>>, place: usize) -> Result<Value, Cause> {
    let bytes = Rc::make_mut(bytes)?;
    if place >= bytes.len() {
        return Ok(Value::Int(0));
    }
    Ok(Value::Int(i64::from(bytes.remove(place))))
}

/// The byte at an index, if there is one.
pub(crate) fn byte_at(bytes: &[u8], index: i64) -> Option<Value> {
    let byte = bytes.get(place_of(bytes.len(), index)?)?;
    Some(Value::Int(i64::from(*byte)))
}

/// Assigns to the byte at an index, as [`set`].
///
/// # Errors
/// [`Cause::OutOfBounds`] if there is none, [`Cause::WrongType`] of other values, or out of memory.
pub(crate) fn assign(
    bytes: &mut Rc<Vec<u8>>,
    index: &Value,
    assigned: &Value,
) -> Result<(), Cause> {
    match (index, assigned) {
        (Value::Int(index), Value::Int(number)) => {
            if set(bytes, *index, byte_of(*number))? {
                Ok(())
            } else {
                Err(Cause::OutOfBounds(*index, bytes.len()))
            }
        }
        (Value::Int(_), _) => Err(Cause::WrongType("an integer for a byte")),
        _ => Err(Cause::WrongType("an integer as index")),
    }
}

/// Puts a byte in place of the one at an index, if there is one.
fn set(bytes: &mut Rc<Vec<u8>>, index: i64, byte: u8) -> Result<bool, Cause> {
    let Some(place) = place_of(bytes.len(), index) else {
        return Ok(false);
    };
    match Rc::make_mut(bytes)?.get_mut(place) {
        Some(old) => {
            *old = byte;
            Ok(true)
        }
        None => Ok(false),
    }
}
