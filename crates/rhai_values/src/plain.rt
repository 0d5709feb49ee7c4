//! Plain values: numbers, truth values, characters and unit, which have no counter and meet no limit.

use crate::value::Value;

impl Value {
    /// Whether it is plain.
    #[inline(always)]
    #[must_use]
    pub fn is_plain(&self) -> bool {
        matches!(
            self,
            Value::Int(_) | Value::Float(_) | Value::Bool(_) | Value::Char(_) | Value::Unit
        )
    }

    /// A copy, if it is plain.
    #[inline(always)]
    #[must_use]
    pub fn plain(&self) -> Option<Value> {
        match self {
            Value::Int(number) => Some(Value::Int(*number)),
            Value::Float(number) => Some(Value::Float(*number)),
            Value::Bool(truth) => Some(Value::Bool(*truth)),
            Value::Char(character) => Some(Value::Char(*character)),
            Value::Unit => Some(Value::Unit),
            _ => None,
        }
    }

    /// Puts an integer, a floating-point number or a truth value in place of another one of its type. `false` of other values:
    /// then nothing has changed.
    #[inline(always)]
    pub fn replace_plain(&mut self, value: &Value) -> bool {
        match value {
            Value::Int(number) => match self {
                Value::Int(old) => {
                    *old = *number;
                    true
                }
                _ => false,
            },
            Value::Float(number) => match self {
                Value::Float(old) => {
                    *old = *number;
                    true
                }
                _ => false,
            },
            Value::Bool(truth) => match self {
                Value::Bool(old) => {
                    *old = *truth;
                    true
                }
                _ => false,
            },
            _ => false,
        }
    }
}
