//! Functions of arrays that take a part of the items, or put others in its place.

use crate::function::Function;
use crate::spans::Span;
use rhai_texts::places::start_of;
use rhai_values::{Cause, List, Value};
use std::alloc::Global;
use std::rc::Rc;

pub(crate) fn call(
    alloc: Global,
    function: Function,
    list: &mut Rc<List>,
    arguments: &[Value],
) -> Result<Option<Value>, Cause> {
    match function {
        Function::Drain => drained(alloc, list, arguments),
        Function::Extract => extracted(alloc, list.items(), arguments),
        Function::Retain => retained(alloc, list, arguments),
        Function::Splice => spliced(alloc, list, arguments),
        Function::Split => split(alloc, list, arguments),
        _ => Ok(None),
    }
}

/// A copy of a part.
fn extracted(alloc: Global, items: &[Value], arguments: &[Value]) -> Result<Option<Value>, Cause> {
    let Some(span) = Span::of_or_rest(items.len(), arguments) else {
        return Ok(None);
    };
    let part = part(alloc, items, span.first, span.end)?;
    Ok(Some(Value::array(alloc, part)?))
}

/// Takes a part out, and gives it.
fn drained(
    alloc: Global,
    list: &mut Rc<List>,
    arguments: &[Value],
) -> Result<Option<Value>, Cause> {
    let Some(span) = Span::of(list.len(), arguments) else {
        return Ok(None);
    };
    let inside = part(alloc, list.items(), span.first, span.end)?;
    let outside = without(alloc, list.items(), span)?;
    *list = Rc::new(alloc, List::of(outside))?;
    Ok(Some(Value::array(alloc, inside)?))
}

/// Takes all but a part out, and gives that.
fn retained(
    alloc: Global,
    list: &mut Rc<List>,
    arguments: &[Value],
) -> Result<Option<Value>, Cause> {
    let Some(span) = Span::of(list.len(), arguments) else {
        return Ok(None);
    };
    let inside = part(alloc, list.items(), span.first, span.end)?;
    let outside = without(alloc, list.items(), span)?;
    *list = Rc::new(alloc, List::of(inside))?;
    Ok(Some(Value::array(alloc, outside)?))
}

/// Puts the items of the last argument in place of the part that the others say.
fn spliced(
    alloc: Global,
    list: &mut Rc<List>,
    arguments: &[Value],
) -> Result<Option<Value>, Cause> {
    let Some((Value::Array(new), place)) = arguments.split_last() else {
        return Ok(None);
    };
    let Some(span) = Span::of(list.len(), place) else {
        return Ok(None);
    };
    let mut items = part(alloc, list.items(), 0, span.first)?;
    push_part(&mut items, new.items(), 0, new.len())?;
    push_part(&mut items, list.items(), span.end, list.len())?;
    *list = Rc::new(alloc, List::of(items))?;
    Ok(Some(Value::Unit))
}

/// Takes the items from an index on out, and gives them.
fn split(alloc: Global, list: &mut Rc<List>, arguments: &[Value]) -> Result<Option<Value>, Cause> {
    let [Value::Int(index)] = arguments else {
        return Ok(None);
    };
    let len = list.len();
    let first = start_of(len, *index);
    let rest = part(alloc, list.items(), first, len)?;
    Rc::make_mut(list)?.truncate(first);
    Ok(Some(Value::array(alloc, rest)?))
}

/// Copies of the items from one place up to another.
pub(crate) fn part(
    alloc: Global,
    items: &[Value],
    first: usize,
    end: usize,
) -> Result<Vec<Value>, Cause> {
    let mut part = Vec::new(alloc);
    push_part(&mut part, items, first, end)?;
    Ok(part)
}

/// Copies of the items that lie outside a part.
fn without(alloc: Global, items: &[Value], span: Span) -> Result<Vec<Value>, Cause> {
    let mut rest = part(alloc, items, 0, span.first)?;
    push_part(&mut rest, items, span.end, items.len())?;
    Ok(rest)
}

/// Appends copies of the items from one place up to another.
fn push_part(
    copies: &mut Vec<Value>,
    items: &[Value],
    first: usize,
    end: usize,
) -> Result<(), Cause> {
    for place in first..end.min(items.len()) {
        copies.push(items[place].clone()?)?;
    }
    Ok(())
}
