//! Frequent operators on numbers: what they give at once, with no memory. All else is left to [`operate`](crate::operate).

use crate::floats::of_floats;
use grain_base::Token;
use rhai_math as math;
use rhai_values::{Value, as_floats};
use std::num::nearest_i64_to_f64;

/// What an operator gives of two numbers. `None` of other operands, if it fails, and of operators that are rare.
#[inline(always)]
#[must_use]
pub fn of_numbers(operator: &Token, operands: &[Value]) -> Option<Value> {
    match operands {
        [Value::Int(x), Value::Int(y)] => of_integers(operator, *x, *y),
        [left, right] => of_floats(operator, left, right),
        _ => None,
    }
}

#[inline(always)]
fn of_integers(operator: &Token, x: i64, y: i64) -> Option<Value> {
    match operator {
        Token::EqualsTo => Some(Value::Bool(x == y)),
        Token::NotEqualsTo => Some(Value::Bool(x != y)),
        Token::LessThan => Some(Value::Bool(x < y)),
        Token::LessThanEqualsTo => Some(Value::Bool(x <= y)),
        Token::GreaterThan => Some(Value::Bool(x > y)),
        Token::GreaterThanEqualsTo => Some(Value::Bool(x >= y)),
        _ => Some(Value::Int(arithmetic(operator, x, y)?)),
    }
}

/// What an arithmetic operator gives of two integers, also that of an op-assignment. `None` if it fails, and of operators that are
/// rare.
#[inline(always)]
fn arithmetic(operator: &Token, x: i64, y: i64) -> Option<i64> {
    match operator {
        Token::Plus | Token::PlusAssign => x.checked_add(y),
        Token::Minus | Token::MinusAssign => x.checked_sub(y),
        Token::Multiply | Token::MultiplyAssign => x.checked_mul(y),
        Token::Divide | Token::DivideAssign => x.checked_div(y),
        Token::Modulo | Token::ModuloAssign => x.checked_rem(y),
        Token::Ampersand | Token::AndAssign => Some(x & y),
        Token::Pipe | Token::OrAssign => Some(x | y),
        _ => None,
    }
}

/// What a number becomes by an op-assignment of another one. `None` of other values, if it fails, and of operators that are rare.
#[inline(always)]
#[must_use]
pub fn op_assigned(operator: &Token, old: &Value, value: &Value) -> Option<Value> {
    if let (Value::Int(left), Value::Int(right)) = (old, value) {
        return Some(Value::Int(arithmetic(operator, *left, *right)?));
    }
    let (x, y) = as_floats(old, value)?;
    Some(Value::Float(math::arithmetic(operator, x, y)?))
}

/// Does an op-assignment of a number to a number, which stays of its type. `false` of other values, if it fails, and of operators
/// that are rare: then nothing has changed.
#[inline(always)]
pub fn assign_number(operator: &Token, place: &mut Value, value: &Value) -> bool {
    match (place, value) {
        (Value::Int(left), Value::Int(right)) => match arithmetic(operator, *left, *right) {
            Some(number) => {
                *left = number;
                true
            }
            None => false,
        },
        (Value::Float(left), Value::Float(right)) => assign_float(operator, left, *right),
        (Value::Float(left), Value::Int(right)) => {
            assign_float(operator, left, nearest_i64_to_f64(*right))
        }
        _ => false,
    }
}

/// Apart from the integers, which are more frequent.
#[inline(never)]
fn assign_float(operator: &Token, place: &mut f64, value: f64) -> bool {
    match math::arithmetic(operator, *place, value) {
        Some(number) => {
            *place = number;
            true
        }
        None => false,
    }
}
