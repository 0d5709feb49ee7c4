//! Functions of integers.

use crate::function::Function;
use crate::{bits, floats};
use rhai_operators::negation_overflow;
use rhai_values::{Cause, Value};
use std::alloc::Global;
use std::num::nearest_i64_to_f64;

pub(crate) fn call(
    alloc: Global,
    function: Function,
    number: &mut i64,
    arguments: &[Value],
) -> Result<Option<Value>, Cause> {
    if let Some(value) = bits::call(alloc, function, number, arguments)? {
        return Ok(Some(value));
    }
    match arguments {
        [] => alone(alloc, function, *number),
        [Value::Int(other)] => Ok(with_other(function, *number, *other)),
        [Value::Float(other)] => {
            Ok(floats::with_other(function, nearest_i64_to_f64(*number), *other))
        }
        _ => Ok(None),
    }
}

fn alone(alloc: Global, function: Function, number: i64) -> Result<Option<Value>, Cause> {
    let value = match function {
        Function::Abs => match number.checked_abs() {
            Some(number) => Value::Int(number),
            None => return Err(negation_overflow(alloc, number)),
        },
        Function::Sign => Value::Int(number.signum()),
        Function::IsZero => Value::Bool(number == 0),
        Function::IsEven => Value::Bool(number & 1 == 0),
        Function::IsOdd => Value::Bool(number & 1 == 1),
        Function::ToInt => Value::Int(number),
        Function::ToFloat => Value::Float(nearest_i64_to_f64(number)),
        Function::ToChar => match character_of(number) {
            Some(character) => Value::Char(character),
            None => return Err(Cause::WrongType("a Unicode scalar value")),
        },
        _ => return digits(alloc, function, number.cast_unsigned()),
    };
    Ok(Some(value))
}

fn character_of(number: i64) -> Option<char> {
    char::from_u32(u32::try_from(number).ok()?)
}

/// The digits to another base, of a number below 0 those of its two's complement.
fn digits(alloc: Global, function: Function, bits: u64) -> Result<Option<Value>, Cause> {
    let text = match function {
        Function::ToHex => format!(in alloc; "{bits:x}")?,
        Function::ToOctal => format!(in alloc; "{bits:o}")?,
        Function::ToBinary => format!(in alloc; "{bits:b}")?,
        _ => return Ok(None),
    };
    Ok(Some(Value::text(alloc, text)?))
}

fn with_other(function: Function, number: i64, other: i64) -> Option<Value> {
    match function {
        Function::Min => Some(Value::Int(number.min(other))),
        Function::Max => Some(Value::Int(number.max(other))),
        _ => None,
    }
}
