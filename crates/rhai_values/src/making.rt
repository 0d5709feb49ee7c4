//! Values made of others, which are taken from their places.

use crate::cause::Cause;
use crate::value::{Object, Pointer, Value};
use std::alloc::Global;
use std::rc::Rc;

/// Copies of these values, in order.
///
/// # Errors
/// Out of memory.
pub fn copies(alloc: Global, values: &[Value]) -> Result<Vec<Value>, Cause> {
    let mut copies = Vec::new(alloc);
    for value in values {
        copies.push(value.clone()?)?;
    }
    Ok(copies)
}

impl Value {
    /// The bytes of a blob as integers, in order.
    ///
    /// # Errors
    /// Out of memory.
    pub fn bytes(alloc: Global, bytes: &[u8]) -> Result<Vec<Value>, Cause> {
        let mut values = Vec::new(alloc);
        for byte in bytes {
            values.push(Value::Int(i64::from(*byte)))?;
        }
        Ok(values)
    }

    /// An array of the values in these places.
    ///
    /// # Errors
    /// Out of memory.
    pub fn array_from(alloc: Global, places: &mut [Value]) -> Result<Value, Cause> {
        let mut items = Vec::new(alloc);
        for place in places {
            items.push(place.take())?;
        }
        Ok(Value::array(alloc, items)?)
    }

    /// The object map of the values in these places: one to begin with or unit, and above it names and values in turn.
    ///
    /// # Errors
    /// [`Cause::WrongType`] if it begins with another value or a name is no text, [`Cause::Unsupported`] if there are no
    /// places, or out of memory.
    pub fn map_from(alloc: Global, places: &mut [Value]) -> Result<Value, Cause> {
        let Some((first, rest)) = places.split_first_mut() else {
            return Err(Cause::Unsupported);
        };
        let mut object = match first.take() {
            Value::Map(object) => Rc::unwrap_or_clone(object)?,
            Value::Unit => Object::new(alloc),
            _ => return Err(Cause::WrongType("map")),
        };
        insert_from(&mut object, rest)?;
        Ok(Value::Map(Rc::new(alloc, object)?))
    }

    /// A pointer to the function of a name, without arguments.
    ///
    /// # Errors
    /// Out of memory.
    pub fn pointer(alloc: Global, name: &str) -> Result<Value, Cause> {
        let pointer = Pointer::new(String::from_str(alloc, name)?, Vec::new(alloc));
        Ok(Value::Pointer(Rc::new(alloc, pointer)?))
    }

    /// The function pointer in the first of these places, with the values in the others bound too.
    ///
    /// # Errors
    /// [`Cause::WrongType`] if it is no function pointer, [`Cause::Unsupported`] if there are no places, or out of memory.
    pub fn curried(alloc: Global, places: &mut [Value]) -> Result<Value, Cause> {
        let Some((pointer, places)) = places.split_first_mut() else {
            return Err(Cause::Unsupported);
        };
        let Value::Pointer(pointer) = pointer.take() else {
            return Err(Cause::WrongType("Fn"));
        };
        let mut bound = copies(alloc, pointer.bound())?;
        for place in places {
            bound.push(place.take())?;
        }
        let name = String::from_str(alloc, pointer.name())?;
        Ok(Value::Pointer(Rc::new(alloc, Pointer::new(name, bound))?))
    }
}

/// Gives the values in these places to the names before them.
fn insert_from(object: &mut Object, places: &mut [Value]) -> Result<(), Cause> {
    let mut key = None;
    for place in places {
        match (key.take(), place.take()) {
            (None, Value::Text(name)) => key = Some(name),
            (Some(name), value) => {
                let name = Rc::unwrap_or_clone(name)?.into_string();
                let _ = object.insert(name, value)?;
            }
            (None, _) => return Err(Cause::WrongType("string")),
        }
    }
    Ok(())
}
