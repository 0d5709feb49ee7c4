//! Functions of object maps.

use crate::function::Function;
use rhai_texts::places::number_of;
use rhai_values::{Cause, Object, Value};
use std::alloc::Global;
use std::rc::Rc;

pub(crate) fn call(
    alloc: Global,
    function: Function,
    object: &mut Rc<Object>,
    arguments: &[Value],
) -> Result<Option<Value>, Cause> {
    match arguments {
        [] => alone(alloc, function, object),
        [Value::Text(name)] => of_name(function, object, name.as_str()),
        [Value::Map(other)] => match function {
            Function::Mixin | Function::Append => {
                Rc::make_mut(object)?.extend(other)?;
                Ok(Some(Value::Unit))
            }
            Function::FillWith => {
                fill(Rc::make_mut(object)?, other)?;
                Ok(Some(Value::Unit))
            }
            _ => Ok(None),
        },
        [Value::Text(name), value] => match function {
            Function::Set | Function::Insert => {
                let name = String::from_str(alloc, name.as_str())?;
                let _ = Rc::make_mut(object)?.insert(name, value.clone()?)?;
                Ok(Some(Value::Unit))
            }
            _ => Ok(None),
        },
        _ => Ok(None),
    }
}

fn alone(
    alloc: Global,
    function: Function,
    object: &mut Rc<Object>,
) -> Result<Option<Value>, Cause> {
    let value = match function {
        Function::Len => Value::Int(number_of(object.len())),
        Function::IsEmpty => Value::Bool(object.is_empty()),
        Function::Keys => keys(alloc, object)?,
        Function::Values => values(alloc, object)?,
        Function::Clear => {
            *object = Rc::new(alloc, Object::new(alloc))?;
            Value::Unit
        }
        _ => return Ok(None),
    };
    Ok(Some(value))
}

fn of_name(
    function: Function,
    object: &mut Rc<Object>,
    name: &str,
) -> Result<Option<Value>, Cause> {
    let value = match function {
        Function::Contains => Value::Bool(object.get(name).is_some()),
        Function::Get => match object.get(name) {
            Some(value) => value.clone()?,
            None => Value::Unit,
        },
        Function::Remove => match Rc::make_mut(object)?.remove(name) {
            Some(value) => value,
            None => Value::Unit,
        },
        _ => return Ok(None),
    };
    Ok(Some(value))
}

/// Gives copies of those values of the other one whose names have none yet.
fn fill(object: &mut Object, other: &Object) -> Result<(), Cause> {
    for (name, value) in other.entries() {
        if object.get(name.as_str()).is_none() {
            let _ = object.insert(name.clone()?, value.clone()?)?;
        }
    }
    Ok(())
}

fn keys(alloc: Global, object: &Object) -> Result<Value, Cause> {
    let mut keys = Vec::new(alloc);
    for (name, _) in object.entries() {
        keys.push(Value::text(alloc, name.clone()?)?)?;
    }
    Ok(Value::array(alloc, keys)?)
}

fn values(alloc: Global, object: &Object) -> Result<Value, Cause> {
    let mut values = Vec::new(alloc);
    for (_, value) in object.entries() {
        values.push(value.clone()?)?;
    }
    Ok(Value::array(alloc, values)?)
}
