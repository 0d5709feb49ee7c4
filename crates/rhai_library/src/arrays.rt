//! Functions of arrays.

use crate::function::Function;
use crate::parts::{self, part};
use crate::sorting::{ascending, descending};
use rhai_texts::places::{count_of, number_of, start_of};
use rhai_values::{Cause, List, SizeLimits, Value, are_equal, place_of};
use std::alloc::Global;
use std::rc::Rc;

pub(crate) fn call(
    alloc: Global,
    limits: SizeLimits,
    function: Function,
    list: &mut Rc<List>,
    arguments: &[Value],
) -> Result<Option<Value>, Cause> {
    if let Some(value) = parts::call(alloc, function, list, arguments)? {
        return Ok(Some(value));
    }
    match arguments {
        [] => alone(alloc, function, list),
        [argument] => with_one(alloc, limits, function, list, argument),
        [value, Value::Int(start)] if function == Function::IndexOf => {
            let first = start_of(list.len(), *start);
            Ok(Some(found(position(list.items(), value, first))))
        }
        [Value::Int(index), argument] => with_place(limits, function, list, *index, argument),
        _ => Ok(None),
    }
}

fn alone(alloc: Global, function: Function, list: &mut Rc<List>) -> Result<Option<Value>, Cause> {
    match function {
        Function::Len => return Ok(Some(Value::Int(number_of(list.len())))),
        Function::IsEmpty => return Ok(Some(Value::Bool(list.is_empty()))),
        Function::Sort => *list = ascending(alloc, list)?,
        Function::SortDesc => *list = descending(alloc, list)?,
        Function::Order => return Ok(Some(Value::Array(ascending(alloc, list)?))),
        Function::OrderDesc => return Ok(Some(Value::Array(descending(alloc, list)?))),
        Function::Dedup => *list = Rc::new(alloc, List::of(deduplicated(alloc, list.items())?))?,
        Function::Reverse => Rc::make_mut(list)?.reverse(),
        Function::Clear => Rc::make_mut(list)?.truncate(0),
        Function::Pop => return Ok(Some(Rc::make_mut(list)?.pop().unwrap_or(Value::Unit))),
        Function::Shift => return Ok(Some(Rc::make_mut(list)?.remove(0).unwrap_or(Value::Unit))),
        _ => return Ok(None),
    }
    Ok(Some(Value::Unit))
}

fn with_one(
    alloc: Global,
    limits: SizeLimits,
    function: Function,
    list: &mut Rc<List>,
    argument: &Value,
) -> Result<Option<Value>, Cause> {
    match (function, argument) {
        (Function::Push, value) => {
            Rc::make_mut(list)?.push(value.clone()?)?;
            Ok(Some(Value::Unit))
        }
        (Function::Contains, value) => {
            Ok(Some(Value::Bool(position(list.items(), value, 0).is_some())))
        }
        (Function::IndexOf, value) => Ok(Some(found(position(list.items(), value, 0)))),
        (Function::Append, Value::Array(other)) => {
            Rc::make_mut(list)?.extend(other.items())?;
            Ok(Some(Value::Unit))
        }
        (Function::Join, Value::Text(separator)) => {
            Ok(Some(joined(alloc, limits, list.items(), separator.as_str())?))
        }
        (function, Value::Int(number)) => with_number(alloc, function, list, *number),
        _ => Ok(None),
    }
}

fn with_number(
    alloc: Global,
    function: Function,
    list: &mut Rc<List>,
    number: i64,
) -> Result<Option<Value>, Cause> {
    let len = list.len();
    let value = match function {
        Function::Get => match list.items().get(place_of(len, number).unwrap_or(len)) {
            Some(value) => value.clone()?,
            None => Value::Unit,
        },
        Function::Remove => match place_of(len, number) {
            Some(place) => Rc::make_mut(list)?.remove(place).unwrap_or(Value::Unit),
            None => Value::Unit,
        },
        Function::Truncate => {
            Rc::make_mut(list)?.truncate(count_of(number));
            Value::Unit
        }
        Function::Chop => {
            let first = len.saturating_sub(count_of(number));
            *list = Rc::new(alloc, List::of(part(alloc, list.items(), first, len)?))?;
            Value::Unit
        }
        _ => return Ok(None),
    };
    Ok(Some(value))
}

fn with_place(
    limits: SizeLimits,
    function: Function,
    list: &mut Rc<List>,
    index: i64,
    argument: &Value,
) -> Result<Option<Value>, Cause> {
    let len = list.len();
    match (function, argument) {
        (Function::Insert, value) => {
            Rc::make_mut(list)?.insert(start_of(len, index), value.clone()?)?;
            Ok(Some(Value::Unit))
        }
        (Function::Set, value) => {
            // Behind the last item it changes nothing.
            if let Some(place) = place_of(len, index) {
                let _ = Rc::make_mut(list)?.replace(place, value.clone()?);
            }
            Ok(Some(Value::Unit))
        }
        (Function::Pad, value) => {
            padded(limits, list, count_of(index), value)?;
            Ok(Some(Value::Unit))
        }
        _ => Ok(None),
    }
}

/// The place of the first item from `start` on that is equal to the value.
fn position(items: &[Value], value: &Value, start: usize) -> Option<usize> {
    for place in start..items.len() {
        if are_equal(&items[place], value) {
            return Some(place);
        }
    }
    None
}

/// A place as scripts have it: -1 for none.
fn found(place: Option<usize>) -> Value {
    match place {
        Some(place) => Value::Int(number_of(place)),
        None => Value::Int(-1),
    }
}

/// Appends the value until there are this many items.
fn padded(limits: SizeLimits, list: &mut Rc<List>, len: usize, value: &Value) -> Result<(), Cause> {
    let more = len.saturating_sub(list.len());
    if more.saturating_mul(value.measure().size) > limits.size {
        return Err(Cause::TooLarge);
    }
    let list = Rc::make_mut(list)?;
    for _ in 0..more {
        list.push(value.clone()?)?;
    }
    Ok(())
}

/// The texts of the items, with the separator between them.
fn joined(
    alloc: Global,
    limits: SizeLimits,
    items: &[Value],
    separator: &str,
) -> Result<Value, Cause> {
    let mut text = String::new(alloc);
    let mut is_first = true;
    for item in items {
        if !is_first {
            add_within(limits, &mut text, separator)?;
        }
        is_first = false;
        let shown = format!(in alloc; "{item}")?;
        add_within(limits, &mut text, shown.as_str())?;
    }
    Ok(Value::text(alloc, text)?)
}

/// Appends a part, if the limits allow a text of that length.
fn add_within(limits: SizeLimits, text: &mut String, part: &str) -> Result<(), Cause> {
    if text.len().saturating_add(part.len()) > limits.size {
        return Err(Cause::TooLarge);
    }
    text.push_str(part)?;
    Ok(())
}

/// The items without those that are equal to the one before them.
fn deduplicated(alloc: Global, items: &[Value]) -> Result<Vec<Value>, Cause> {
    let mut kept: Vec<Value> = Vec::new(alloc);
    for item in items {
        let is_new = match kept.last() {
            Some(last) => !are_equal(last, item),
            None => true,
        };
        if is_new {
            kept.push(item.clone()?)?;
        }
    }
    Ok(kept)
}
