//! Values out of JSON.

use json::{Error, Scratch};
use rhai_values::{Cause, Object, SizeLimits, Value};
use std::alloc::Global;
use std::rc::Rc;

/// The value of a JSON text: null is unit, and of values with one name the last one stays. A number that has a fraction or
/// an exponent, or doesn't fit 64 bits, is a floating-point one. It takes time and memory by the length of the text.
///
/// # Errors
/// [`Cause::WrongType`] if the text is no JSON; [`Cause::TooLarge`] if the limits don't allow the value; or out of memory.
pub fn parsed(alloc: Global, limits: SizeLimits, text: &str) -> Result<Value, Cause> {
    let mut scratch = Scratch::new(alloc);
    match json::Value::parse(alloc, text, &mut scratch) {
        Ok(parsed) => within(limits, value_of(alloc, &parsed)?),
        Err(Error::OutOfMemory) => Err(Cause::OutOfMemory),
        Err(_) => Err(Cause::WrongType("JSON")),
    }
}

fn within(limits: SizeLimits, value: Value) -> Result<Value, Cause> {
    if limits.allow(value.measure()) {
        return Ok(value);
    }
    Err(Cause::TooLarge)
}

#[cycle(value)]
fn value_of(alloc: Global, parsed: &json::Value<'_>) -> Result<Value, Cause> {
    match parsed {
        json::Value::Null => Ok(Value::Unit),
        json::Value::Bool(truth) => Ok(Value::Bool(*truth)),
        json::Value::Number(digits) => number(digits),
        json::Value::String(text) => Ok(Value::text(alloc, String::from_str(alloc, text)?)?),
        json::Value::Array(items) => array(alloc, items.as_slice()),
        json::Value::Object(members) => object(alloc, members.as_slice()),
    }
}

fn number(digits: &str) -> Result<Value, Cause> {
    if let Ok(number) = digits.parse::<i64>() {
        return Ok(Value::Int(number));
    }
    match digits.parse::<f64>() {
        Ok(number) => Ok(Value::Float(number)),
        Err(_) => Err(Cause::WrongType("JSON")),
    }
}

#[cycle(value)]
fn array(alloc: Global, parsed: &[json::Value<'_>]) -> Result<Value, Cause> {
    let mut items = Vec::new(alloc);
    for item in parsed {
        items.push(value_of(alloc, item)?)?;
    }
    Ok(Value::array(alloc, items)?)
}

#[cycle(value)]
fn object(alloc: Global, parsed: &[(&str, json::Value<'_>)]) -> Result<Value, Cause> {
    let mut object = Object::new(alloc);
    for (name, value) in parsed {
        let value = value_of(alloc, value)?;
        let _ = object.insert(String::from_str(alloc, name)?, value)?;
    }
    Ok(Value::Map(Rc::new(alloc, object)?))
}
