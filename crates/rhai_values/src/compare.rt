//! How values compare.

use crate::text::Text;
use crate::value::Value;
use std::cmp::Ordering;
use std::collections::BTreeMap;
use std::num::nearest_i64_to_f64;

/// Whether two values are of one type and have the same content. A character counts as a text of that character, and an integer
/// next to a floating-point number as the nearest one of those. NaN is equal to nothing. It takes time by the size of the smaller
/// one.
#[cycle(equal)]
#[must_use]
pub fn are_equal(left: &Value, right: &Value) -> bool {
    match left {
        Value::Array(x) => match right {
            Value::Array(y) => are_items_equal(&x.items, &y.items),
            _ => false,
        },
        Value::Map(x) => match right {
            Value::Map(y) => are_entries_equal(&x.entries, &y.entries),
            _ => false,
        },
        Value::Pointer(x) => match right {
            Value::Pointer(y) => x.name() == y.name() && are_items_equal(&x.bound, &y.bound),
            _ => false,
        },
        Value::Int(_) | Value::Float(_) => are_numbers_equal(left, right),
        Value::Text(_) | Value::Char(_) => are_texts_equal(left, right),
        _ => are_parts_equal(left, right),
    }
}

/// Whether two values are equal, of which the first is a number.
fn are_numbers_equal(left: &Value, right: &Value) -> bool {
    match (left, right) {
        (Value::Int(x), Value::Int(y)) => x == y,
        _ => match as_floats(left, right) {
            Some((x, y)) => x == y,
            None => false,
        },
    }
}

/// Whether two values are equal, of which the first is a text or a character.
fn are_texts_equal(left: &Value, right: &Value) -> bool {
    match (left, right) {
        (Value::Char(x), Value::Char(y)) => x == y,
        (Value::Text(x), Value::Text(y)) => x.as_str() == y.as_str(),
        (Value::Text(text), Value::Char(character)) | (Value::Char(character), Value::Text(text)) =>
            { matches!(order_of_character(text, *character), Ordering::Equal) }
        _ => false,
    }
}

/// Whether two values are equal, of which the first has no values in it, and is no number, text or character.
fn are_parts_equal(left: &Value, right: &Value) -> bool {
    match (left, right) {
        (Value::Unit, Value::Unit) => true,
        (Value::Bool(x), Value::Bool(y)) => x == y,
        (Value::Range(x), Value::Range(y)) => **x == **y,
        (Value::Blob(x), Value::Blob(y)) => x.as_slice() == y.as_slice(),
        (Value::Foreign(x), Value::Foreign(y)) => **x == **y,
        (Value::Shared(x), Value::Shared(y)) => **x == **y,
        _ => false,
    }
}

#[cycle(equal)]
fn are_items_equal(left: &[Value], right: &[Value]) -> bool {
    if left.len() != right.len() {
        return false;
    }
    for (x, y) in left.iter().zip(right.iter()) {
        if !are_equal(x, y) {
            return false;
        }
    }
    true
}

#[cycle(equal)]
fn are_entries_equal(left: &BTreeMap<String, Value>, right: &BTreeMap<String, Value>) -> bool {
    if left.len() != right.len() {
        return false;
    }
    for ((name, x), (other, y)) in left.iter().zip(right.iter()) {
        if name != other || !are_equal(x, y) {
            return false;
        }
    }
    true
}

/// The floating-point numbers that two numbers are, if one of them is such a number: an integer is the nearest one. `None` of
/// other values, and of two integers.
#[inline(always)]
#[must_use]
pub fn as_floats(left: &Value, right: &Value) -> Option<(f64, f64)> {
    match (left, right) {
        (Value::Float(x), Value::Float(y)) => Some((*x, *y)),
        (Value::Float(x), Value::Int(y)) => Some((*x, nearest_i64_to_f64(*y))),
        (Value::Int(x), Value::Float(y)) => Some((nearest_i64_to_f64(*x), *y)),
        _ => None,
    }
}

/// How two values of one type compare, if that type has an order: truth values, numbers, characters and texts. A character counts
/// as a text of that character, an integer as in [`are_equal`], and NaN has no order.
#[must_use]
pub fn order(left: &Value, right: &Value) -> Option<Ordering> {
    match (left, right) {
        (Value::Bool(x), Value::Bool(y)) => Some(x.cmp(y)),
        (Value::Int(x), Value::Int(y)) => Some(x.cmp(y)),
        (Value::Float(_), _) | (_, Value::Float(_)) => {
            let (x, y) = as_floats(left, right)?;
            x.partial_cmp(&y)
        }
        (Value::Char(x), Value::Char(y)) => Some(x.cmp(y)),
        (Value::Text(x), Value::Text(y)) => Some(x.as_str().cmp(y.as_str())),
        (Value::Text(text), Value::Char(character)) => Some(order_of_character(text, *character)),
        (Value::Char(character), Value::Text(text)) => {
            Some(order_of_character(text, *character).reverse())
        }
        _ => None,
    }
}

/// How a text compares with the text of one character.
fn order_of_character(text: &Text, character: char) -> Ordering {
    let mut characters = text.as_str().chars();
    match characters.next() {
        None => Ordering::Less,
        Some(first) if first != character => first.cmp(&character),
        Some(_) => match characters.next() {
            None => Ordering::Equal,
            Some(_) => Ordering::Greater,
        },
    }
}
