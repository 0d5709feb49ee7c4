//! Paths into values: indices and names, one after another, by which a part is found.

use crate::cause::Cause;
use crate::places::place_of;
use crate::text::Text;
use crate::value::Value;
use std::mem;
use std::rc::Rc;

/// An index or a name by which a part of a value is found.
#[derive(Drop)]
pub enum Key {
    /// The index of an item of an array. One below 0 counts from its end.
    Index(i64),
    /// The name of an entry of an object map.
    Name(Rc<Text>),
}

/// Puts a value in place of the part to which the keys lead, and gives that one back. If an object map has no entry of the
/// last name, it gives unit and changes nothing.
///
/// # Errors
/// [`Cause::OutOfBounds`] if no item lies at an index, [`Cause::WrongType`] if a key leads into a value that has no such
/// parts, or out of memory: then a part on the way may be unit.
pub fn swapped(value: &mut Value, keys: &[Key], new: Value) -> Result<Value, Cause> {
    let Some((key, rest)) = keys.split_first() else {
        return Ok(mem::replace(value, new));
    };
    if rest.is_empty() {
        return replaced(value, key, new);
    }
    let mut part = replaced(value, key, Value::Unit)?;
    let result = swapped(&mut part, rest, new);
    let _ = replaced(value, key, part)?;
    result
}

/// Puts a value in place of one part, and gives that one back.
fn replaced(value: &mut Value, key: &Key, new: Value) -> Result<Value, Cause> {
    match (value, key) {
        (Value::Array(list), Key::Index(index)) => {
            let len = list.len();
            let place = place_of(len, *index).unwrap_or(usize::MAX);
            match Rc::make_mut(list)?.replace(place, new) {
                Some(old) => Ok(old),
                None => Err(Cause::OutOfBounds(*index, len)),
            }
        }
        (Value::Map(object), Key::Name(name)) => {
            Ok(
                Rc::make_mut(object)?
                    .replace(name.as_str(), new)
                    .unwrap_or(Value::Unit),
            )
        }
        _ => Err(Cause::WrongType("a value that has parts")),
    }
}
