//! Values as constants of programs, and back.

use crate::cause::Cause;
use crate::interval::Interval;
use crate::value::{Foreign, Object, Pointer, Value};
use grain_base::{Dynamic, Float, FnPtr, HostValue};
use std::alloc::{AllocError, Global};
use std::collections::BTreeMap;
use std::rc::Rc;

/// The value of a constant. It takes time and memory by its size, and recurses by its depth.
///
/// # Errors
/// Out of memory, or [`Cause::Unsupported`] for a value that only its host knows.
#[cycle(value_of)]
pub fn value_of(alloc: Global, constant: &Dynamic) -> Result<Value, Cause> {
    match constant {
        Dynamic::Unit => Ok(Value::Unit),
        Dynamic::Bool(x) => Ok(Value::Bool(*x)),
        Dynamic::Int(x) => Ok(Value::Int(*x)),
        Dynamic::Float(x) => Ok(Value::Float(x.number())),
        Dynamic::Char(x) => Ok(Value::Char(*x)),
        Dynamic::Str(text) => text_of(alloc, text.as_str()),
        Dynamic::Range(from, to) => range_of(alloc, *from, *to, false),
        Dynamic::RangeInclusive(from, to) => range_of(alloc, *from, *to, true),
        Dynamic::Array(items) => array_of(alloc, items),
        Dynamic::Blob(bytes) => blob_of(alloc, bytes),
        Dynamic::Map(entries) => object_of(alloc, entries),
        Dynamic::FnPtr(pointer) => pointer_of(alloc, pointer),
        Dynamic::Shared(inner) => value_of(alloc, inner),
        Dynamic::Host(_) => Err(Cause::Unsupported),
    }
}

fn text_of(alloc: Global, text: &str) -> Result<Value, Cause> {
    Ok(Value::text(alloc, String::from_str(alloc, text)?)?)
}

fn range_of(alloc: Global, from: i64, to: i64, inclusive: bool) -> Result<Value, Cause> {
    Ok(Value::range(alloc, from, to, inclusive)?)
}

fn blob_of(alloc: Global, bytes: &Vec<u8>) -> Result<Value, Cause> {
    Ok(Value::Blob(Rc::new(alloc, bytes.clone()?)?))
}

#[cycle(value_of)]
fn array_of(alloc: Global, constants: &[Dynamic]) -> Result<Value, Cause> {
    Ok(Value::array(alloc, values_of(alloc, constants)?)?)
}

#[cycle(value_of)]
fn values_of(alloc: Global, constants: &[Dynamic]) -> Result<Vec<Value>, Cause> {
    let mut values = Vec::new(alloc);
    for constant in constants {
        values.push(value_of(alloc, constant)?)?;
    }
    Ok(values)
}

#[cycle(value_of)]
fn pointer_of(alloc: Global, pointer: &FnPtr) -> Result<Value, Cause> {
    let bound = values_of(alloc, &pointer.curry)?;
    let pointer = Pointer::new(pointer.name.clone()?, bound);
    Ok(Value::Pointer(Rc::new(alloc, pointer)?))
}

#[cycle(value_of)]
fn object_of(alloc: Global, entries: &BTreeMap<String, Dynamic>) -> Result<Value, Cause> {
    let mut object = Object::new(alloc);
    for (name, constant) in entries {
        let _ = object.insert(name.clone()?, value_of(alloc, constant)?)?;
    }
    Ok(Value::Map(Rc::new(alloc, object)?))
}

/// The constant that has the content of a value, as a switch compares it. A shared variable has none, and becomes unit. It takes
/// time and memory by the size of the value, and recurses by its depth.
///
/// # Errors
/// Out of memory.
#[cycle(constant_of)]
pub fn constant_of(alloc: Global, value: &Value) -> Result<Dynamic, AllocError> {
    match value {
        Value::Unit | Value::Shared(_) => Ok(Dynamic::Unit),
        Value::Bool(x) => Ok(Dynamic::Bool(*x)),
        Value::Int(x) => Ok(Dynamic::Int(*x)),
        Value::Float(x) => Ok(Dynamic::Float(Float::of(*x))),
        Value::Char(x) => Ok(Dynamic::Char(*x)),
        Value::Text(text) => Ok(Dynamic::Str(String::from_str(alloc, text.as_str())?)),
        Value::Range(range) => Ok(constant_of_range(range)),
        Value::Array(list) => Ok(Dynamic::Array(constants_of(alloc, &list.items)?)),
        Value::Blob(bytes) => Ok(Dynamic::Blob(bytes.as_ref().clone()?)),
        Value::Map(object) => constant_of_entries(alloc, &object.entries),
        Value::Foreign(foreign) => Ok(constant_of_foreign(alloc, foreign)),
        Value::Pointer(pointer) => constant_of_pointer(alloc, pointer),
    }
}

fn constant_of_range(range: &Interval) -> Dynamic {
    if range.inclusive {
        Dynamic::RangeInclusive(range.from, range.to)
    } else {
        Dynamic::Range(range.from, range.to)
    }
}

/// A constant that no program has.
fn constant_of_foreign(alloc: Global, foreign: &Foreign) -> Dynamic {
    Dynamic::Host(HostValue {
        type_name: String::new(alloc),
        id: foreign.number.unsigned_abs(),
    })
}

#[cycle(constant_of)]
fn constant_of_pointer(alloc: Global, pointer: &Pointer) -> Result<Dynamic, AllocError> {
    Ok(Dynamic::FnPtr(FnPtr {
        name: String::from_str(alloc, pointer.name())?,
        curry: constants_of(alloc, &pointer.bound)?,
    }))
}

#[cycle(constant_of)]
fn constant_of_entries(
    alloc: Global,
    entries: &BTreeMap<String, Value>,
) -> Result<Dynamic, AllocError> {
    let mut constants = BTreeMap::new(alloc);
    for (name, value) in entries {
        let _ = constants.insert(name.clone()?, constant_of(alloc, value)?)?;
    }
    Ok(Dynamic::Map(constants))
}

#[cycle(constant_of)]
fn constants_of(alloc: Global, values: &[Value]) -> Result<Vec<Dynamic>, AllocError> {
    let mut constants = Vec::new(alloc);
    for value in values {
        constants.push(constant_of(alloc, value)?)?;
    }
    Ok(constants)
}
