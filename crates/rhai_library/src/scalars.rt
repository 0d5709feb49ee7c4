//! Functions of characters, ranges and function pointers.

use crate::function::Function;
use rhai_values::{Cause, Interval, Pointer, Value};
use std::alloc::Global;

/// How the names of closures begin.
const CLOSURE: &'static str = "anon$";

pub(crate) fn of_character(
    function: Function,
    character: &mut char,
    arguments: &[Value],
) -> Option<Value> {
    let old = *character;
    let value = match (function, arguments) {
        (Function::ToInt, []) => Value::Int(i64::from(u32::from(old))),
        (Function::ToUpper, []) => Value::Char(upper(old)),
        (Function::ToLower, []) => Value::Char(lower(old)),
        (Function::Min, [Value::Char(other)]) => Value::Char(old.min(*other)),
        (Function::Max, [Value::Char(other)]) => Value::Char(old.max(*other)),
        (Function::MakeUpper, []) => {
            *character = upper(old);
            Value::Unit
        }
        (Function::MakeLower, []) => {
            *character = lower(old);
            Value::Unit
        }
        _ => return None,
    };
    Some(value)
}

/// The capital letter of a character. If it has several, such as `ß` with `SS`, it is the character itself.
fn upper(character: char) -> char {
    let mut letters = character.to_uppercase();
    match (letters.next(), letters.next()) {
        (Some(letter), None) => letter,
        _ => character,
    }
}

/// The small letter of a character, as [`upper`].
fn lower(character: char) -> char {
    let mut letters = character.to_lowercase();
    match (letters.next(), letters.next()) {
        (Some(letter), None) => letter,
        _ => character,
    }
}

pub(crate) fn of_range(function: Function, range: &Interval, arguments: &[Value]) -> Option<Value> {
    match (function, arguments) {
        (Function::Start, []) => Some(Value::Int(range.from)),
        (Function::End, []) => Some(Value::Int(range.to)),
        (Function::IsInclusive, []) => Some(Value::Bool(range.inclusive)),
        (Function::IsExclusive, []) => Some(Value::Bool(!range.inclusive)),
        (Function::IsEmpty, []) => Some(Value::Bool(range.last().is_none())),
        (Function::Contains, [Value::Int(number)]) => Some(Value::Bool(range.contains(*number))),
        _ => None,
    }
}

pub(crate) fn of_pointer(
    alloc: Global,
    function: Function,
    pointer: &Pointer,
    arguments: &[Value],
) -> Result<Option<Value>, Cause> {
    match (function, arguments) {
        (Function::Name, []) => {
            let name = String::from_str(alloc, pointer.name())?;
            Ok(Some(Value::text(alloc, name)?))
        }
        (Function::IsAnonymous, []) => {
            Ok(Some(Value::Bool(pointer.name().starts_with(CLOSURE))))
        }
        _ => Ok(None),
    }
}
