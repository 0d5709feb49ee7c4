//! Operators on floating-point numbers.

use crate::remainder::remainder;
use grain_base::Token;

/// What an arithmetic operator gives of two numbers, also that of an op-assignment. It never fails: a division by zero gives an
/// infinity or NaN. `None` of other operators.
#[inline(always)]
#[must_use]
pub fn arithmetic(operator: &Token, x: f64, y: f64) -> Option<f64> {
    match operator {
        Token::Plus | Token::PlusAssign => Some(x + y),
        Token::Minus | Token::MinusAssign => Some(x - y),
        Token::Multiply | Token::MultiplyAssign => Some(x * y),
        Token::Divide | Token::DivideAssign => Some(x / y),
        Token::Modulo | Token::ModuloAssign => Some(remainder(x, y)),
        Token::PowerOf | Token::PowerOfAssign => Some(x.powf(y)),
        _ => None,
    }
}

/// Whether a comparison of two numbers holds: of NaN only that it isn't equal does. `None` of other operators.
#[inline(always)]
#[must_use]
pub fn comparison(operator: &Token, x: f64, y: f64) -> Option<bool> {
    match operator {
        Token::EqualsTo => Some(x == y),
        Token::NotEqualsTo => Some(x != y),
        Token::LessThan => Some(x < y),
        Token::LessThanEqualsTo => Some(x <= y),
        Token::GreaterThan => Some(x > y),
        Token::GreaterThanEqualsTo => Some(x >= y),
        _ => None,
    }
}
