//! Operators by their tokens.

use crate::floats::of_floats;
use crate::overflows::{negation_overflow, overflow};
use grain_base::Token;
use rhai_texts::bytes::append;
use rhai_texts::words;
use rhai_values::{Cause, List, Object, Text, Value, are_equal, order};
use std::alloc::Global;
use std::cmp::Ordering;
use std::rc::Rc;

/// What a binary operator gives, also that of an op-assignment. `None` means that it doesn't take such operands. The left one may
/// be used up: a text or an array is extended in place where nobody else holds it.
///
/// # Errors
/// [`Reason::Overflow`](rhai_values::Reason), [`Reason::DivisionByZero`](rhai_values::Reason), or out of memory.
#[inline]
pub fn operate(
    alloc: Global,
    operator: &Token,
    left: &mut Value,
    right: &Value,
) -> Result<Option<Value>, Cause> {
    match (&*left, right) {
        (Value::Int(x), Value::Int(y)) => operate_on_integers(alloc, operator, *x, *y),
        (Value::Bool(x), Value::Bool(y)) => match of_truths(operator, *x, *y) {
            Some(value) => Ok(Some(Value::Bool(value))),
            None => Ok(compared(operator, left, right)),
        },
        (Value::Float(_), _) | (_, Value::Float(_)) => {
            if let Some(value) = of_floats(operator, left, right) {
                return Ok(Some(value));
            }
            operate_on_others(alloc, operator, left, right)
        }
        _ => operate_on_others(alloc, operator, left, right),
    }
}

/// As [`operate`], of operands that aren't both numbers or truth values.
fn operate_on_others(
    alloc: Global,
    operator: &Token,
    left: &mut Value,
    right: &Value,
) -> Result<Option<Value>, Cause> {
    match operator {
        Token::Plus | Token::PlusAssign => extended(alloc, operator, left, right),
        Token::Minus | Token::MinusAssign => reduced(alloc, left, right),
        _ => Ok(compared(operator, left, right)),
    }
}

/// What an operator gives of one or two operands. The left one may be used up, as by [`operate`].
///
/// # Errors
/// As [`operate`].
#[inline]
pub fn operate_on(
    alloc: Global,
    operator: &Token,
    operands: &mut [Value],
) -> Result<Option<Value>, Cause> {
    let Some((left, rest)) = operands.split_first_mut() else {
        return Ok(None);
    };
    match rest.first() {
        None => negate(alloc, operator, left),
        Some(right) => operate(alloc, operator, left, right),
    }
}

/// What comparing gives: values of two types are never equal, and none of them is less than the other. `None` means that values of
/// this type have no order.
fn compared(operator: &Token, left: &Value, right: &Value) -> Option<Value> {
    let holds = match operator {
        Token::EqualsTo => are_equal(left, right),
        Token::NotEqualsTo => !are_equal(left, right),
        Token::LessThan => matches!(ordered(left, right)?, Some(Ordering::Less)),
        Token::GreaterThan => matches!(ordered(left, right)?, Some(Ordering::Greater)),
        Token::LessThanEqualsTo => {
            matches!(
                ordered(left, right)?,
                Some(Ordering::Less | Ordering::Equal)
            )
        }
        Token::GreaterThanEqualsTo => {
            matches!(
                ordered(left, right)?,
                Some(Ordering::Greater | Ordering::Equal)
            )
        }
        _ => return None,
    };
    Some(Value::Bool(holds))
}

/// How two values compare: `Some(None)` if they are of two types or unit, and `None` if they are of one type that has no order.
fn ordered(left: &Value, right: &Value) -> Option<Option<Ordering>> {
    match order(left, right) {
        Some(order) => Some(Some(order)),
        None => match (left, right) {
            (Value::Array(_), Value::Array(_))
            | (Value::Map(_), Value::Map(_))
            | (Value::Blob(_), Value::Blob(_))
            | (Value::Range(_), Value::Range(_))
            | (Value::Pointer(_), Value::Pointer(_)) => None,
            _ => Some(None),
        },
    }
}

fn of_truths(operator: &Token, x: bool, y: bool) -> Option<bool> {
    match operator {
        Token::Ampersand | Token::AndAssign => Some(x && y),
        Token::Pipe | Token::OrAssign => Some(x || y),
        Token::XOr | Token::XOrAssign => Some(x != y),
        _ => None,
    }
}

/// What a binary operator gives of two integers, as [`operate`].
#[inline(always)]
fn operate_on_integers(
    alloc: Global,
    operator: &Token,
    x: i64,
    y: i64,
) -> Result<Option<Value>, Cause> {
    let number = match operator {
        Token::EqualsTo => return Ok(Some(Value::Bool(x == y))),
        Token::NotEqualsTo => return Ok(Some(Value::Bool(x != y))),
        Token::LessThan => return Ok(Some(Value::Bool(x < y))),
        Token::LessThanEqualsTo => return Ok(Some(Value::Bool(x <= y))),
        Token::GreaterThan => return Ok(Some(Value::Bool(x > y))),
        Token::GreaterThanEqualsTo => return Ok(Some(Value::Bool(x >= y))),
        Token::ExclusiveRange => return Ok(Some(Value::range(alloc, x, y, false)?)),
        Token::InclusiveRange => return Ok(Some(Value::range(alloc, x, y, true)?)),
        Token::Plus | Token::PlusAssign => x.checked_add(y),
        Token::Minus | Token::MinusAssign => x.checked_sub(y),
        Token::Multiply | Token::MultiplyAssign => x.checked_mul(y),
        Token::Divide | Token::DivideAssign | Token::Modulo | Token::ModuloAssign if y == 0 => {
            return Err(overflow(alloc, operator, x, y));
        }
        Token::Divide | Token::DivideAssign => x.checked_div(y),
        Token::Modulo | Token::ModuloAssign => x.checked_rem(y),
        Token::Ampersand | Token::AndAssign => Some(x & y),
        Token::Pipe | Token::OrAssign => Some(x | y),
        Token::XOr | Token::XOrAssign => Some(x ^ y),
        Token::PowerOf | Token::PowerOfAssign => powered(x, y)?,
        Token::LeftShift | Token::LeftShiftAssign => Some(shifted_left(x, y)),
        Token::RightShift | Token::RightShiftAssign => Some(shifted_right(x, y)),
        _ => return Ok(None),
    };
    match number {
        Some(number) => Ok(Some(Value::Int(number))),
        None => Err(overflow(alloc, operator, x, y)),
    }
}

fn powered(x: i64, y: i64) -> Result<Option<i64>, Cause> {
    if y < 0 {
        return Err(Cause::WrongType("an exponent that isn't negative"));
    }
    match u32::try_from(y) {
        Ok(exponent) => Ok(x.checked_pow(exponent)),
        Err(_) => match x {
            0 | 1 => Ok(Some(x)),
            -1 => Ok(Some(if y & 1 == 0 { 1 } else { -1 })),
            _ => Ok(None),
        },
    }
}

/// Shifted left, or right if the distance is below 0. What leaves the 64 bits is lost.
fn shifted_left(x: i64, distance: i64) -> i64 {
    match u32::try_from(distance) {
        Ok(distance) if distance < 64 => x.wrapping_shl(distance),
        Ok(_) => 0,
        Err(_) if distance < 0 => shifted_right_by(x, distance.unsigned_abs()),
        Err(_) => 0,
    }
}

/// Shifted right with its sign, or left if the distance is below 0.
fn shifted_right(x: i64, distance: i64) -> i64 {
    if distance < 0 {
        return match u32::try_from(distance.unsigned_abs()) {
            Ok(distance) if distance < 64 => x.wrapping_shl(distance),
            _ => 0,
        };
    }
    shifted_right_by(x, distance.unsigned_abs())
}

fn shifted_right_by(x: i64, distance: u64) -> i64 {
    match u32::try_from(distance) {
        Ok(distance) if distance < 64 => x.wrapping_shr(distance),
        _ => { if x < 0 { -1 } else { 0 } }
    }
}

/// What `+` gives of texts, characters, arrays, object maps and blobs.
fn extended(
    alloc: Global,
    operator: &Token,
    left: &mut Value,
    right: &Value,
) -> Result<Option<Value>, Cause> {
    let is_assigned = matches!(operator, Token::PlusAssign);
    if extend(alloc, is_assigned, left, right)? {
        return Ok(Some(left.take()));
    }
    joined(alloc, left, right)
}

/// Appends a value to a text, an array, an object map or a blob, and says whether that takes it.
fn extend(
    alloc: Global,
    is_assigned: bool,
    left: &mut Value,
    right: &Value,
) -> Result<bool, Cause> {
    match left {
        Value::Text(text) => push_shown(alloc, text, right),
        Value::Array(list) => extend_list(list, is_assigned, right),
        Value::Map(object) => extend_object(object, right),
        Value::Blob(bytes) if is_assigned || matches!(right, Value::Blob(_)) => {
            append(alloc, bytes, right)
        }
        _ => Ok(false),
    }
}

fn extend_list(list: &mut Rc<List>, is_assigned: bool, right: &Value) -> Result<bool, Cause> {
    match right {
        Value::Array(others) => Rc::make_mut(list)?.extend(others.items())?,
        _ if is_assigned => Rc::make_mut(list)?.push(right.clone()?)?,
        _ => return Ok(false),
    }
    Ok(true)
}

fn extend_object(object: &mut Rc<Object>, right: &Value) -> Result<bool, Cause> {
    match right {
        Value::Map(others) => Rc::make_mut(object)?.extend(others)?,
        _ => return Ok(false),
    }
    Ok(true)
}

/// What `+` gives of any value and a text, and of two characters.
fn joined(alloc: Global, left: &Value, right: &Value) -> Result<Option<Value>, Cause> {
    match right {
        Value::Text(text) => {
            let text = text.as_str();
            Ok(Some(Value::text(alloc, format!(in alloc; "{left}{text}")?)?))
        }
        Value::Char(second) if matches!(left, Value::Char(_)) => {
            Ok(Some(Value::text(alloc, format!(in alloc; "{left}{second}")?)?))
        }
        _ => Ok(None),
    }
}

/// What `-` gives of a text: that text without the other one, or without a character, wherever it is found.
fn reduced(alloc: Global, left: &Value, right: &Value) -> Result<Option<Value>, Cause> {
    let Value::Text(text) = left else {
        return Ok(None);
    };
    let Some(part) = words::text_of(alloc, right)? else {
        return Ok(None);
    };
    let rest = words::replaced(alloc, text.as_str(), part.as_str(), "")?;
    Ok(Some(Value::text(alloc, rest)?))
}

/// Appends what a value shows to a text, which takes any value.
fn push_shown(alloc: Global, text: &mut Rc<Text>, value: &Value) -> Result<bool, Cause> {
    let text = Rc::make_mut(text)?;
    match value {
        Value::Text(other) => text.push_str(other.as_str())?,
        Value::Char(character) => text.push(*character)?,
        Value::Blob(bytes) => text.push_str(String::from_utf8_lossy(alloc, bytes)?.as_str())?,
        value => text.push_str(format!(in alloc; "{value}")?.as_str())?,
    }
    Ok(true)
}

/// What an operator before its only operand gives. `None` means that it doesn't take such an operand.
///
/// # Errors
/// [`Reason::Overflow`](rhai_values::Reason), or out of memory.
pub fn negate(alloc: Global, operator: &Token, value: &Value) -> Result<Option<Value>, Cause> {
    match (operator, value) {
        (Token::UnaryMinus | Token::Minus, Value::Int(x)) => match x.checked_neg() {
            Some(number) => Ok(Some(Value::Int(number))),
            None => Err(negation_overflow(alloc, *x)),
        },
        (Token::UnaryPlus | Token::Plus, Value::Int(x)) => Ok(Some(Value::Int(*x))),
        (Token::UnaryMinus | Token::Minus, Value::Float(x)) => Ok(Some(Value::Float(-*x))),
        (Token::UnaryPlus | Token::Plus, Value::Float(x)) => Ok(Some(Value::Float(*x))),
        (Token::Bang, Value::Bool(x)) => Ok(Some(Value::Bool(!*x))),
        _ => Ok(None),
    }
}
