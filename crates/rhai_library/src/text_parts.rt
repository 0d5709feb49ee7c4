//! Functions of texts that take a part of the characters.

use crate::function::Function;
use crate::spans::Span;
use rhai_texts::places::start_of;
use rhai_values::{Cause, Text, Value};
use std::alloc::Global;
use std::rc::Rc;

/// The functions of a part that a range says, or an index and a number, or an index alone.
pub(crate) fn call(
    alloc: Global,
    function: Function,
    text: &mut Rc<Text>,
    arguments: &[Value],
) -> Result<Option<Value>, Cause> {
    let Some(span) = Span::of_or_rest(text.count(), arguments) else {
        return Ok(None);
    };
    let part = text.part(span.first, span.end);
    match function {
        Function::Chars => Ok(Some(Value::array(alloc, Value::characters(alloc, part)?)?)),
        Function::SubString => Ok(Some(value(alloc, part)?)),
        Function::Crop => {
            *text = copied(alloc, part)?;
            Ok(Some(Value::Unit))
        }
        _ => Ok(None),
    }
}

/// The characters before an index, and the others.
pub(crate) fn split_at(alloc: Global, text: &Text, index: i64) -> Result<Value, Cause> {
    let (before, rest) = text.split_at(start_of(text.count(), index));
    let mut parts = Vec::new(alloc);
    parts.push(value(alloc, before)?)?;
    parts.push(value(alloc, rest)?)?;
    Ok(Value::array(alloc, parts)?)
}

/// A text of its own with these characters.
pub(crate) fn copied(alloc: Global, text: &str) -> Result<Rc<Text>, Cause> {
    Ok(Rc::new(alloc, Text::of(String::from_str(alloc, text)?))?)
}

fn value(alloc: Global, text: &str) -> Result<Value, Cause> {
    Ok(Value::Text(copied(alloc, text)?))
}
