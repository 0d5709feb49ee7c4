//! Calls by function.

use crate::function::Function;
use crate::{arrays, blobs, floats, maps, numbers, scalars, steps, texts};
use rhai_json::text_of;
use rhai_values::{Cause, SizeLimits, Value};
use std::alloc::Global;
use std::rc::Rc;

/// Calls a function of the library. What it changes in place is its first argument, the receiver. `None` means that the function
/// doesn't take such arguments.
///
/// It takes time by the size of its arguments and of its result.
///
/// # Errors
/// As each function: [`Reason::Overflow`](rhai_values::Reason), [`Cause::OutOfBounds`], [`Cause::WrongType`], [`Cause::TooLarge`] or out of memory.
pub fn call(
    alloc: Global,
    limits: SizeLimits,
    function: Function,
    receiver: &mut Value,
    arguments: &[Value],
) -> Result<Option<Value>, Cause> {
    if let Some(value) = of_any(alloc, limits, function, receiver, arguments)? {
        return Ok(Some(value));
    }
    match receiver {
        Value::Text(text) => texts::call(alloc, limits, function, text, arguments),
        Value::Array(list) => arrays::call(alloc, limits, function, list, arguments),
        Value::Blob(bytes) => blobs::call(alloc, limits, function, bytes, arguments),
        Value::Map(object) => maps::call(alloc, function, object, arguments),
        Value::Int(number) => numbers::call(alloc, function, number, arguments),
        Value::Float(number) => floats::call(alloc, function, *number, arguments),
        Value::Char(character) => Ok(scalars::of_character(function, character, arguments)),
        Value::Range(range) => Ok(scalars::of_range(function, range, arguments)),
        Value::Pointer(pointer) => scalars::of_pointer(alloc, function, pointer, arguments),
        _ => Ok(None),
    }
}

/// What every value has.
fn of_any(
    alloc: Global,
    limits: SizeLimits,
    function: Function,
    receiver: &mut Value,
    arguments: &[Value],
) -> Result<Option<Value>, Cause> {
    let text = match (function, arguments) {
        (Function::TypeOf, []) => String::from_str(alloc, receiver.type_name())?,
        (Function::ToString, []) => format!(in alloc; "{receiver}")?,
        (Function::ToDebug, []) => format!(in alloc; "{receiver:?}")?,
        (Function::ToJson, []) if matches!(receiver, Value::Array(_) | Value::Map(_)) => text_of(
            alloc, limits, receiver,
        )?,
        (Function::Take, []) => return Ok(Some(receiver.take())),
        (Function::Range, bounds) => return range(alloc, limits, receiver, bounds),
        (Function::Blob, bytes) => return blob(alloc, limits, receiver, bytes),
        _ => return Ok(None),
    };
    Ok(Some(Value::text(alloc, text)?))
}

/// Calls a function that has no receiver, as [`call`].
///
/// # Errors
/// Out of memory.
pub fn without_arguments(alloc: Global, function: Function) -> Result<Option<Value>, Cause> {
    match function {
        Function::Math(function) => match function.constant() {
            Some(number) => Ok(Some(Value::Float(number))),
            None => Ok(None),
        },
        Function::Blob => Ok(Some(Value::Blob(Rc::new(alloc, Vec::new(alloc))?))),
        _ => Ok(None),
    }
}

/// A blob of as many bytes as the receiver says: zeros, or another byte.
fn blob(
    alloc: Global,
    limits: SizeLimits,
    receiver: &Value,
    arguments: &[Value],
) -> Result<Option<Value>, Cause> {
    match (receiver, arguments) {
        (Value::Int(len), []) => Ok(Some(blobs::filled(alloc, limits, *len, 0)?)),
        (Value::Int(len), [Value::Int(byte)]) => {
            Ok(Some(blobs::filled(alloc, limits, *len, *byte)?))
        }
        _ => Ok(None),
    }
}

/// The numbers from the receiver up to another one: a range of integers, or with a step an array.
fn range(
    alloc: Global,
    limits: SizeLimits,
    receiver: &Value,
    bounds: &[Value],
) -> Result<Option<Value>, Cause> {
    let items = match (receiver, bounds) {
        (Value::Int(from), [Value::Int(to)]) => {
            return Ok(Some(Value::range(alloc, *from, *to, false)?));
        }
        (Value::Int(from), [Value::Int(to), Value::Int(step)]) => {
            steps::of_integers(alloc, limits, (*from, *to), *step)?
        }
        (Value::Range(range), [Value::Int(step)]) if !range.inclusive => {
            steps::of_integers(alloc, limits, (range.from, range.to), *step)?
        }
        (Value::Float(from), [Value::Float(to), Value::Float(step)]) => {
            steps::of_floats(alloc, limits, (*from, *to), *step)?
        }
        _ => return Ok(None),
    };
    Ok(Some(Value::array(alloc, items)?))
}
