//! The faults of arithmetic, whose texts have the operation.

use grain_base::Token;
use rhai_values::{Cause, Reason};
use std::alloc::{AllocError, Global};

/// The fault of a binary operator on integers whose result doesn't fit, or that divides by zero.
#[cold]
#[inline(never)]
pub(crate) fn overflow(alloc: Global, operator: &Token, x: i64, y: i64) -> Cause {
    let is_zero = y == 0 && is_division(operator);
    match sentence(alloc, operator, x, y) {
        Ok(text) if is_zero => Cause::Detailed(Reason::DivisionByZero, text),
        Ok(text) => Cause::Detailed(Reason::Overflow, text),
        Err(_) => Cause::OutOfMemory,
    }
}

/// The fault if an integer has no negative.
#[cold]
#[inline(never)]
#[must_use]
pub fn negation_overflow(alloc: Global, x: i64) -> Cause {
    match format!(in alloc; "Negation overflow: -{x}") {
        Ok(text) => Cause::Detailed(Reason::Overflow, text),
        Err(_) => Cause::OutOfMemory,
    }
}

fn sentence(alloc: Global, operator: &Token, x: i64, y: i64) -> Result<String, AllocError> {
    let (fault, sign) = match operator {
        Token::Plus | Token::PlusAssign => ("Addition overflow", "+"),
        Token::Minus | Token::MinusAssign => ("Subtraction overflow", "-"),
        Token::Multiply | Token::MultiplyAssign => ("Multiplication overflow", "*"),
        Token::Divide | Token::DivideAssign if y == 0 => ("Division by zero", "/"),
        Token::Divide | Token::DivideAssign => ("Division overflow", "/"),
        Token::Modulo | Token::ModuloAssign => ("Modulo division by zero or overflow", "%"),
        _ => ("Exponential overflow", "**"),
    };
    format!(in alloc; "{fault}: {x} {sign} {y}")
}

fn is_division(operator: &Token) -> bool {
    matches!(
        operator,
        Token::Divide | Token::DivideAssign | Token::Modulo | Token::ModuloAssign
    )
}
