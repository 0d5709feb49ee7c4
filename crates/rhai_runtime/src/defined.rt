//! What scripts find out about their own functions and variables.

use crate::script::Script;
use crate::world::World;
use rhai_values::Value;

impl<W: World + Drop> Script<W> {
    /// What `is_def_fn` gives: whether the script has a function of a name with a number of parameters, also for a type of `this`;
    /// or whether the function of a pointer takes a number of arguments. No other value takes any.
    pub(crate) fn is_def_fn(&self, arguments: &[Value]) -> Option<Value> {
        let (this_type, name, bound, params) = match arguments {
            [Value::Text(name), Value::Int(params)] => (None, name.as_str(), 0usize, *params),
            [
                Value::Text(this_type),
                Value::Text(name),
                Value::Int(params),
            ] => { (Some(this_type.as_str()), name.as_str(), 0, *params) }
            [Value::Pointer(pointer), Value::Int(params)] => {
                (None, pointer.name(), pointer.bound().len(), *params)
            }
            [_, Value::Int(_)] => return Some(Value::Bool(false)),
            _ => return None,
        };
        let is_def = match usize::try_from(params) {
            Ok(params) => {
                self.table
                    .is_declared(this_type, name, bound.saturating_add(params))
            }
            Err(_) => false,
        };
        Some(Value::Bool(is_def))
    }

    /// What `is_def_var` gives of a name that no local variable has: whether the embedding program has a variable of that name.
    pub(crate) fn is_def_var(&self, arguments: &[Value]) -> Option<Value> {
        let [Value::Text(name)] = arguments else {
            return None;
        };
        let is_def = match self.table.index_of(name.as_str()) {
            Some(name) => self.variables.named(name).is_some(),
            None => false,
        };
        Some(Value::Bool(is_def))
    }
}
