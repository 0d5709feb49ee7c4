//! Functions of texts. Places in a text count characters.

use crate::function::Function;
use crate::items::character_at;
use crate::text_parts::{self, copied, split_at};
use crate::{blobs, floats};
use rhai_json::parsed as parsed_json;
use rhai_texts::places::{count_of, number_of};
use rhai_texts::{splitting, words};
use rhai_values::{Cause, SizeLimits, Text, Value, place_of};
use std::alloc::Global;
use std::rc::Rc;

pub(crate) fn call(
    alloc: Global,
    limits: SizeLimits,
    function: Function,
    text: &mut Rc<Text>,
    arguments: &[Value],
) -> Result<Option<Value>, Cause> {
    match function {
        Function::Chars | Function::Crop | Function::SubString if !arguments.is_empty() => {
            text_parts::call(alloc, function, text, arguments)
        }
        Function::ParseJson if arguments.is_empty() => {
            Ok(Some(parsed_json(alloc, limits, text.as_str())?))
        }
        _ => with_arguments(alloc, limits, function, text, arguments),
    }
}

fn with_arguments(
    alloc: Global,
    limits: SizeLimits,
    function: Function,
    text: &mut Rc<Text>,
    arguments: &[Value],
) -> Result<Option<Value>, Cause> {
    match arguments {
        [] => alone(alloc, function, text),
        [Value::Int(number)] => with_number(alloc, function, text, *number),
        [Value::Text(other)] => with_text(alloc, function, text, other.as_str()),
        [value] => with_one(alloc, function, text, value),
        [Value::Int(number), value] => with_number_and(
            alloc, limits, function, text, *number, value,
        ),
        [value, Value::Int(number)] => with_text_and_number(alloc, function, text, value, *number),
        [old, new] => with_two(alloc, limits, function, text, old, new),
        _ => Ok(None),
    }
}

fn alone(alloc: Global, function: Function, text: &mut Rc<Text>) -> Result<Option<Value>, Cause> {
    let value = match function {
        Function::Len => Value::Int(number_of(text.count())),
        Function::Bytes => Value::Int(number_of(text.len())),
        Function::IsEmpty => Value::Bool(text.is_empty()),
        Function::ToUpper => Value::text(alloc, text.as_str().to_uppercase(alloc)?)?,
        Function::ToLower => Value::text(alloc, text.as_str().to_lowercase(alloc)?)?,
        Function::Chars | Function::ToChars => Value::array(
            alloc,
            Value::characters(alloc, text.as_str())?,
        )?,
        Function::Split => splitting::split_at_blanks(alloc, text.as_str())?,
        Function::ParseInt => match text.as_str().trim().parse::<i64>() {
            Ok(number) => Value::Int(number),
            Err(_) => return Err(Cause::WrongType("the digits of an integer")),
        },
        Function::ToBlob => blobs::of_text(alloc, text.as_str())?,
        Function::ParseFloat => floats::parsed(alloc, text.as_str())?,
        Function::Pop => match Rc::make_mut(text)?.pop() {
            Some(character) => Value::Char(character),
            None => Value::Unit,
        },
        _ => return changed(alloc, function, text),
    };
    Ok(Some(value))
}

/// The functions that change the text and give nothing.
fn changed(alloc: Global, function: Function, text: &mut Rc<Text>) -> Result<Option<Value>, Cause> {
    let new = match function {
        Function::MakeUpper => text.as_str().to_uppercase(alloc)?,
        Function::MakeLower => text.as_str().to_lowercase(alloc)?,
        Function::Trim => String::from_str(alloc, text.as_str().trim())?,
        Function::Clear => String::new(alloc),
        _ => return Ok(None),
    };
    *text = Rc::new(alloc, Text::of(new))?;
    Ok(Some(Value::Unit))
}

fn with_one(
    alloc: Global,
    function: Function,
    text: &mut Rc<Text>,
    argument: &Value,
) -> Result<Option<Value>, Cause> {
    if let Some(other) = words::text_of(alloc, argument)? {
        return with_text(alloc, function, text, other.as_str());
    }
    match function {
        Function::Append => {
            let shown = match argument {
                Value::Blob(bytes) => String::from_utf8_lossy(alloc, bytes)?,
                other => format!(in alloc; "{other}")?,
            };
            Rc::make_mut(text)?.push_str(shown.as_str())?;
            Ok(Some(Value::Unit))
        }
        _ => Ok(None),
    }
}

fn with_text(
    alloc: Global,
    function: Function,
    text: &mut Rc<Text>,
    other: &str,
) -> Result<Option<Value>, Cause> {
    let value = match function {
        Function::Contains => Value::Bool(text.as_str().find(other).is_some()),
        Function::StartsWith => Value::Bool(text.as_str().starts_with(other)),
        Function::EndsWith => Value::Bool(text.as_str().ends_with(other)),
        Function::IndexOf => words::index_of(text, other),
        Function::Split => splitting::split(alloc, text.as_str(), other)?,
        Function::SplitRev => splitting::split_rev(alloc, text.as_str(), other)?,
        Function::Min => Value::Text(copied(alloc, text.as_str().min(other))?),
        Function::Max => Value::Text(copied(alloc, text.as_str().max(other))?),
        Function::Append => {
            Rc::make_mut(text)?.push_str(other)?;
            Value::Unit
        }
        Function::Remove => {
            let new = words::replaced(alloc, text.as_str(), other, "")?;
            *text = Rc::new(alloc, Text::of(new))?;
            Value::Unit
        }
        _ => return Ok(None),
    };
    Ok(Some(value))
}

fn with_number(
    alloc: Global,
    function: Function,
    text: &mut Rc<Text>,
    number: i64,
) -> Result<Option<Value>, Cause> {
    let value = match function {
        Function::Get => match character_at(text, number) {
            Some(character) => Value::Char(character),
            None => Value::Unit,
        },
        Function::Split => split_at(alloc, text, number)?,
        Function::Truncate => {
            *text = copied(alloc, text.part(0, count_of(number)))?;
            Value::Unit
        }
        Function::Pop => Value::Text(popped(alloc, text, count_of(number))?),
        Function::ParseInt => return parsed(text.as_str(), number),
        Function::Append => {
            let shown = format!(in alloc; "{number}")?;
            Rc::make_mut(text)?.push_str(shown.as_str())?;
            Value::Unit
        }
        _ => return Ok(None),
    };
    Ok(Some(value))
}

/// Takes the last characters off, and gives them.
fn popped(alloc: Global, text: &mut Rc<Text>, count: usize) -> Result<Rc<Text>, Cause> {
    let (_, rest) = text.split_at(text.count().saturating_sub(count));
    let popped = copied(alloc, rest)?;
    let text = Rc::make_mut(text)?;
    for _ in 0..popped.count() {
        let _character = text.pop();
    }
    Ok(popped)
}

/// The integer that a text spells to a base from 2 to 36.
fn parsed(text: &str, radix: i64) -> Result<Option<Value>, Cause> {
    let Ok(radix) = u32::try_from(radix) else {
        return Err(Cause::WrongType("a base from 2 to 36"));
    };
    if radix < 2 || radix > 36 {
        return Err(Cause::WrongType("a base from 2 to 36"));
    }
    match i64::from_str_radix(text.trim(), radix) {
        Ok(number) => Ok(Some(Value::Int(number))),
        Err(_) => Err(Cause::WrongType("the digits of an integer")),
    }
}

fn with_number_and(
    alloc: Global,
    limits: SizeLimits,
    function: Function,
    text: &mut Rc<Text>,
    number: i64,
    argument: &Value,
) -> Result<Option<Value>, Cause> {
    match (function, argument) {
        (Function::Pad, argument) => {
            let Some(padding) = words::text_of(alloc, argument)? else {
                return Ok(None);
            };
            padded(limits, text, count_of(number), padding.as_str())?;
            Ok(Some(Value::Unit))
        }
        (Function::Set, Value::Char(character)) => {
            // Behind the last character it changes nothing.
            if let Some(place) = place_of(text.count(), number) {
                let new = words::with_character(alloc, text, place, *character)?;
                *text = Rc::new(alloc, new)?;
            }
            Ok(Some(Value::Unit))
        }
        _ => Ok(None),
    }
}

fn with_text_and_number(
    alloc: Global,
    function: Function,
    text: &Text,
    argument: &Value,
    number: i64,
) -> Result<Option<Value>, Cause> {
    let Some(other) = words::text_of(alloc, argument)? else {
        return Ok(None);
    };
    let (other, count) = (other.as_str(), count_of(number));
    let found = match function {
        Function::IndexOf => words::index_from(text, other, number),
        Function::Split => splitting::split_into(alloc, text.as_str(), other, count)?,
        Function::SplitRev => splitting::split_rev_into(alloc, text.as_str(), other, count)?,
        _ => return Ok(None),
    };
    Ok(Some(found))
}

fn with_two(
    alloc: Global,
    limits: SizeLimits,
    function: Function,
    text: &mut Rc<Text>,
    first: &Value,
    second: &Value,
) -> Result<Option<Value>, Cause> {
    let Function::Replace = function else {
        return Ok(None);
    };
    let (Some(old), Some(new)) = (
        words::text_of(alloc, first)?,
        words::text_of(alloc, second)?,
    ) else {
        return Ok(None);
    };
    replace(alloc, limits, text, old.as_str(), new.as_str())?;
    Ok(Some(Value::Unit))
}

/// Replaces one text by another wherever it is found, if the limits allow what that makes.
fn replace(
    alloc: Global,
    limits: SizeLimits,
    text: &mut Rc<Text>,
    old: &str,
    new: &str,
) -> Result<(), Cause> {
    let longest = text.len().saturating_add(1).saturating_mul(new.len());
    if longest > limits.size && count_matches(text.as_str(), old) > limits.size / new.len().max(1) {
        return Err(Cause::TooLarge);
    }
    let replaced = words::replaced(alloc, text.as_str(), old, new)?;
    *text = Rc::new(alloc, Text::of(replaced))?;
    Ok(())
}

/// How often a text is found in another, one behind the other. The empty text is found before each character and at the end.
fn count_matches(text: &str, part: &str) -> usize {
    if part.is_empty() {
        return text.len().saturating_add(1);
    }
    text.split(part).count().saturating_sub(1)
}

/// Appends the whole padding until the text has at least this many characters. An empty one fills nothing.
fn padded(limits: SizeLimits, text: &mut Rc<Text>, len: usize, padding: &str) -> Result<(), Cause> {
    let width = padding.chars().count();
    if width == 0 {
        return Ok(());
    }
    let times = len.saturating_sub(text.count()).div_ceil(width);
    if times.saturating_mul(padding.len()) > limits.size {
        return Err(Cause::TooLarge);
    }
    let text = Rc::make_mut(text)?;
    for _ in 0..times {
        text.push_str(padding)?;
    }
    Ok(())
}
