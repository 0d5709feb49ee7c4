//! Functions of floating-point numbers.

use crate::function::Function;
use rhai_math::{Math, integer_of, sign_of};
use rhai_values::{Cause, Reason, Value};
use std::alloc::Global;
use std::num::nearest_i64_to_f64;

pub(crate) fn call(
    alloc: Global,
    function: Function,
    number: f64,
    arguments: &[Value],
) -> Result<Option<Value>, Cause> {
    match (function, arguments) {
        (Function::Math(function), arguments) => Ok(of_math(function, number, arguments)),
        (function, []) => alone(alloc, function, number),
        (function, [Value::Float(other)]) => Ok(with_other(function, number, *other)),
        (function, [Value::Int(other)]) => {
            Ok(with_other(function, number, nearest_i64_to_f64(*other)))
        }
        _ => Ok(None),
    }
}

fn of_math(function: Math, number: f64, arguments: &[Value]) -> Option<Value> {
    match arguments {
        [] => Some(Value::Float(function.of(number)?)),
        [Value::Float(other)] => Some(Value::Float(function.of_two(number, *other)?)),
        _ => None,
    }
}

fn alone(alloc: Global, function: Function, number: f64) -> Result<Option<Value>, Cause> {
    let value = match function {
        Function::Abs => Value::Float(number.abs()),
        Function::ToFloat => Value::Float(number),
        Function::IsZero => Value::Bool(number == 0.0),
        Function::IsNan => Value::Bool(number.is_nan()),
        Function::IsFinite => Value::Bool(number.is_finite()),
        Function::IsInfinite => Value::Bool(number.is_infinite()),
        Function::Sign => return Ok(Some(signed(alloc, number)?)),
        Function::ToInt => return Ok(Some(truncated(alloc, number)?)),
        _ => return Ok(None),
    };
    Ok(Some(value))
}

fn signed(alloc: Global, number: f64) -> Result<Value, Cause> {
    match sign_of(number) {
        Some(sign) => Ok(Value::Int(sign)),
        None => {
            let text = String::from_str(alloc, "Sign of NaN is undefined")?;
            Err(Cause::Detailed(Reason::NoNumber, text))
        }
    }
}

/// The number without its fraction, as an integer.
fn truncated(alloc: Global, number: f64) -> Result<Value, Cause> {
    match integer_of(number) {
        Some(integer) => Ok(Value::Int(integer)),
        None => {
            let text = format!(in alloc; "Integer overflow: to_int({number})")?;
            Err(Cause::Detailed(Reason::Overflow, text))
        }
    }
}

/// The smaller or the larger one of two numbers: of NaN and a number that number.
pub(crate) fn with_other(function: Function, number: f64, other: f64) -> Option<Value> {
    match function {
        Function::Min => Some(Value::Float(number.min(other))),
        Function::Max => Some(Value::Float(number.max(other))),
        _ => None,
    }
}

/// The number that a text spells, apart from blanks around it.
pub(crate) fn parsed(alloc: Global, text: &str) -> Result<Value, Cause> {
    match text.trim().parse::<f64>() {
        Ok(number) => Ok(Value::Float(number)),
        Err(error) => {
            let text = format!(in alloc; "Error parsing floating-point number '{text}': {error}")?;
            Err(Cause::Detailed(Reason::NoNumber, text))
        }
    }
}
