//! Functions of a part of a blob, by a range, or by an index and a number.

use crate::function::Function;
use crate::spans::Span;
use rhai_values::{Cause, Value};
use std::alloc::Global;
use std::num::{f64_from_bits_with_nan, f64_to_bits_with_nan};
use std::rc::Rc;

/// The highest byte that is a character of its own.
const HIGHEST_ASCII: u8 = 0x7f;

pub(crate) fn call(
    alloc: Global,
    function: Function,
    bytes: &mut Rc<Vec<u8>>,
    arguments: &[Value],
) -> Result<Option<Value>, Cause> {
    match function {
        Function::Drain | Function::Extract | Function::Retain | Function::Split => separated(
            alloc, function, bytes, arguments,
        ),
        Function::ParseBeFloat
        | Function::ParseBeInt
        | Function::ParseLeFloat
        | Function::ParseLeInt => Ok(parsed(function, bytes, arguments)),
        Function::Splice
        | Function::WriteAscii
        | Function::WriteBe
        | Function::WriteLe
        | Function::WriteUtf8 => written(alloc, function, bytes, arguments),
        _ => Ok(None),
    }
}

/// Takes a part out, or all but a part, and gives that; `extract` gives a copy. For `extract` and `split` an index alone says
/// the bytes from there on.
fn separated(
    alloc: Global,
    function: Function,
    bytes: &mut Rc<Vec<u8>>,
    arguments: &[Value],
) -> Result<Option<Value>, Cause> {
    let place = match (function, arguments) {
        (Function::Extract, _) | (Function::Split, [Value::Int(_)]) => {
            Span::of_or_rest(bytes.len(), arguments)
        }
        (Function::Split, _) => None,
        _ => Span::of(bytes.len(), arguments),
    };
    let Some(span) = place else {
        return Ok(None);
    };
    let inside = part(alloc, bytes, span)?;
    if function == Function::Extract {
        return Ok(Some(Value::Blob(inside)));
    }
    let outside = with_part(alloc, bytes, span, &[])?;
    if function == Function::Retain {
        *bytes = inside;
        return Ok(Some(Value::Blob(outside)));
    }
    *bytes = outside;
    Ok(Some(Value::Blob(inside)))
}

/// A copy of a part.
pub(crate) fn part(alloc: Global, bytes: &[u8], span: Span) -> Result<Rc<Vec<u8>>, Cause> {
    let mut copies = Vec::new(alloc);
    copies.extend_from_slice(bytes.get(span.first..span.end).unwrap_or(&[]))?;
    Ok(Rc::new(alloc, copies)?)
}

/// A copy with other bytes in place of a part.
fn with_part(alloc: Global, bytes: &[u8], span: Span, new: &[u8]) -> Result<Rc<Vec<u8>>, Cause> {
    let mut copies = Vec::new(alloc);
    copies.extend_from_slice(bytes.get(0..span.first).unwrap_or(&[]))?;
    copies.extend_from_slice(new)?;
    copies.extend_from_slice(bytes.get(span.end..bytes.len()).unwrap_or(&[]))?;
    Ok(Rc::new(alloc, copies)?)
}

/// The number whose bytes a part has, from its first byte on. It looks at 8 bytes. If the part has fewer, zeros follow them.
fn parsed(function: Function, bytes: &[u8], arguments: &[Value]) -> Option<Value> {
    let span = Span::of(bytes.len(), arguments)?;
    let first = first_eight(bytes.get(span.first..span.end)?);
    match function {
        Function::ParseBeInt => Some(Value::Int(i64::from_be_bytes(first))),
        Function::ParseLeInt => Some(Value::Int(i64::from_le_bytes(first))),
        Function::ParseBeFloat => {
            Some(Value::Float(f64_from_bits_with_nan(u64::from_be_bytes(first))))
        }
        Function::ParseLeFloat => {
            Some(Value::Float(f64_from_bits_with_nan(u64::from_le_bytes(first))))
        }
        _ => None,
    }
}

/// The first bytes, with zeros behind them if there are fewer.
fn first_eight(bytes: &[u8]) -> [u8; 8] {
    let mut first = [0u8; 8];
    for place in 0..8usize {
        if let Some(byte) = bytes.get(place) {
            first[place] = *byte;
        }
    }
    first
}

/// Writes the last argument, a number or a text, over the part that the others say; or puts a blob in place of that part.
fn written(
    alloc: Global,
    function: Function,
    bytes: &mut Rc<Vec<u8>>,
    arguments: &[Value],
) -> Result<Option<Value>, Cause> {
    let Some((value, place)) = arguments.split_last() else {
        return Ok(None);
    };
    let Some(span) = Span::of(bytes.len(), place) else {
        return Ok(None);
    };
    match (function, value) {
        (Function::Splice, Value::Blob(new)) => *bytes = with_part(alloc, bytes, span, new)?,
        (Function::WriteAscii, Value::Text(text)) => {
            put(bytes, span, text.as_str().as_bytes(), HIGHEST_ASCII)?;
        }
        (Function::WriteUtf8, Value::Text(text)) => {
            put(bytes, span, text.as_str().as_bytes(), u8::MAX)?;
        }
        (Function::WriteBe | Function::WriteLe, Value::Int(number)) => {
            put_bits(function, bytes, span, number.cast_unsigned())?;
        }
        (Function::WriteBe | Function::WriteLe, Value::Float(number)) => {
            put_bits(function, bytes, span, f64_to_bits_with_nan(*number))?;
        }
        _ => return Ok(None),
    }
    Ok(Some(Value::Unit))
}

/// Writes the bytes of a number over the first ones of a part: the lowest one first, or by `write_be` the highest one.
fn put_bits(
    function: Function,
    bytes: &mut Rc<Vec<u8>>,
    span: Span,
    bits: u64,
) -> Result<(), Cause> {
    let new = if function == Function::WriteBe {
        bits.to_be_bytes()
    } else {
        bits.to_le_bytes()
    };
    put(bytes, span, &new, u8::MAX)
}

/// Writes bytes over the first ones of a part. Those above `highest` are skipped, and so are those for which no place is left.
fn put(bytes: &mut Rc<Vec<u8>>, span: Span, new: &[u8], highest: u8) -> Result<(), Cause> {
    let bytes = Rc::make_mut(bytes)?;
    let mut place = span.first;
    for byte in new {
        if place >= span.end {
            return Ok(());
        }
        if *byte <= highest {
            if let Some(old) = bytes.get_mut(place) {
                *old = *byte;
            }
            place = place.saturating_add(1);
        }
    }
    Ok(())
}
