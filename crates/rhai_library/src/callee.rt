//! What every script has by a name.

use crate::function::Function;
use grain_base::Token;
use rhai_operators::{negate, operate};
use rhai_values::{Cause, Value};
use std::alloc::Global;

/// A function that every script has.
#[derive(Clone, Copy, PartialEq, Eq, Drop)]
pub enum Callee {
    /// A function of the library.
    Library(Function),
    /// `print`, which the world does.
    Print,
    /// `debug`, which the world does.
    Debug,
    /// `exit`, which ends the script.
    Exit,
    /// `is_def_fn`, which the script's own table answers.
    IsDefFn,
    /// `is_def_var`, which the script's own variables answer.
    IsDefVar,
    /// An operator that a function pointer may name, by its number.
    Operator(u8),
}

impl Callee {
    /// What every script has by this name, if it is anything. It compares with every name.
    #[must_use]
    pub fn named(name: &str) -> Option<Callee> {
        match name {
            "print" => Some(Callee::Print),
            "debug" => Some(Callee::Debug),
            "exit" => Some(Callee::Exit),
            "is_def_fn" => Some(Callee::IsDefFn),
            "is_def_var" => Some(Callee::IsDefVar),
            name => match Function::named(name) {
                Some(function) => Some(Callee::Library(function)),
                None => operator_named(name),
            },
        }
    }
}

fn operator_named(name: &str) -> Option<Callee> {
    let operator = Token::of_syntax(name)?;
    match operator.number() {
        Ok(number) if takes_values(&operator) => Some(Callee::Operator(number)),
        _ => None,
    }
}

/// Whether the operator is a function of its operands' values: it always takes them all, and assigns to none.
fn takes_values(operator: &Token) -> bool {
    match operator {
        Token::And | Token::Or | Token::DoubleQuestion | Token::In | Token::NotIn | Token::Equals =>
            false,
        _ => operator.base_operator().is_none(),
    }
}

/// What the operator of a number gives of one or two values. `None` means that it doesn't take such values.
///
/// # Errors
/// As [`operate`].
pub fn operate_at(alloc: Global, number: u8, values: &[Value]) -> Result<Option<Value>, Cause> {
    let Some(operator) = Token::of_number(number) else {
        return Ok(None);
    };
    match values {
        [value] => negate(alloc, &operator, value),
        [left, right] => {
            let mut left = left.clone()?;
            operate(alloc, &operator, &mut left, right)
        }
        _ => Ok(None),
    }
}
