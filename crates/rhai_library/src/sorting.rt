//! The items of an array in order.

use rhai_values::{Cause, List, Value, copies};
use std::alloc::Global;
use std::cmp::OrderedFloat;
use std::rc::Rc;

/// An array of the items in ascending order.
pub(crate) fn ascending(alloc: Global, list: &List) -> Result<Rc<List>, Cause> {
    Ok(Rc::new(alloc, List::of(sorted(alloc, list.items())?))?)
}

/// An array of the items in descending order.
pub(crate) fn descending(alloc: Global, list: &List) -> Result<Rc<List>, Cause> {
    let mut items = sorted(alloc, list.items())?;
    items.reverse();
    Ok(Rc::new(alloc, List::of(items))?)
}

/// The items in ascending order: integers, floating-point numbers, characters, texts or truth values, all of one type. One item alone is in order.
fn sorted(alloc: Global, items: &[Value]) -> Result<Vec<Value>, Cause> {
    if items.len() < 2 {
        return copies(alloc, items);
    }
    match items.first() {
        None => Ok(Vec::new(alloc)),
        Some(Value::Bool(_)) => sorted_truths(alloc, items),
        Some(Value::Int(_)) => sorted_integers(alloc, items),
        Some(Value::Float(_)) => sorted_floats(alloc, items),
        Some(Value::Char(_)) => sorted_characters(alloc, items),
        Some(Value::Text(_)) => sorted_texts(alloc, items),
        Some(_) => Err(Cause::WrongType("numbers, characters, texts or truth values to sort")),
    }
}

fn sorted_integers(alloc: Global, items: &[Value]) -> Result<Vec<Value>, Cause> {
    let mut numbers = Vec::new(alloc);
    for item in items {
        let Value::Int(number) = item else {
            return Err(Cause::WrongType("integers alone to sort"));
        };
        numbers.push(*number)?;
    }
    numbers.sort()?;
    let mut values = Vec::new(alloc);
    for number in numbers {
        values.push(Value::Int(number))?;
    }
    Ok(values)
}

/// NaN comes behind the numbers.
fn sorted_floats(alloc: Global, items: &[Value]) -> Result<Vec<Value>, Cause> {
    let mut numbers = Vec::new(alloc);
    for item in items {
        let Value::Float(number) = item else {
            return Err(Cause::WrongType("floating-point numbers alone to sort"));
        };
        numbers.push(OrderedFloat(*number))?;
    }
    numbers.sort()?;
    let mut values = Vec::new(alloc);
    for OrderedFloat(number) in numbers {
        values.push(Value::Float(number))?;
    }
    Ok(values)
}

fn sorted_characters(alloc: Global, items: &[Value]) -> Result<Vec<Value>, Cause> {
    let mut characters = Vec::new(alloc);
    for item in items {
        let Value::Char(character) = item else {
            return Err(Cause::WrongType("characters alone to sort"));
        };
        characters.push(*character)?;
    }
    characters.sort()?;
    let mut values = Vec::new(alloc);
    for character in characters {
        values.push(Value::Char(character))?;
    }
    Ok(values)
}

fn sorted_texts(alloc: Global, items: &[Value]) -> Result<Vec<Value>, Cause> {
    let mut texts = Vec::new(alloc);
    for item in items {
        let Value::Text(text) = item else {
            return Err(Cause::WrongType("texts alone to sort"));
        };
        texts.push(text.clone()?)?;
    }
    texts.sort()?;
    let mut values = Vec::new(alloc);
    for text in texts {
        values.push(Value::Text(text))?;
    }
    Ok(values)
}

/// The false ones before the true ones.
fn sorted_truths(alloc: Global, items: &[Value]) -> Result<Vec<Value>, Cause> {
    let mut truths = Vec::new(alloc);
    for item in items {
        let Value::Bool(truth) = item else {
            return Err(Cause::WrongType("truth values alone to sort"));
        };
        truths.push(*truth)?;
    }
    truths.sort()?;
    let mut values = Vec::new(alloc);
    for truth in truths {
        values.push(Value::Bool(truth))?;
    }
    Ok(values)
}
