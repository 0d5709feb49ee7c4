//! Operators on numbers of which one at least is a floating-point one.

use grain_base::Token;
use rhai_math::{arithmetic, comparison};
use rhai_values::{Value, as_floats};

/// What an arithmetic operator or a comparison gives of two numbers that aren't both integers, also an op-assignment. `None` of
/// other operands and operators.
#[inline(always)]
pub(crate) fn of_floats(operator: &Token, left: &Value, right: &Value) -> Option<Value> {
    let (x, y) = as_floats(left, right)?;
    computed(operator, x, y)
}

/// Apart from the test of the operands, which is done where integers are more frequent.
#[inline(never)]
fn computed(operator: &Token, x: f64, y: f64) -> Option<Value> {
    match arithmetic(operator, x, y) {
        Some(number) => Some(Value::Float(number)),
        None => Some(Value::Bool(comparison(operator, x, y)?)),
    }
}
