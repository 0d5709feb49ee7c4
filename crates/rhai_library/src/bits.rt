//! Bits of integers. The lowest one has the index 0, and an index below 0 counts from the highest.

use crate::function::Function;
use crate::spans::{Span, start_and_count};
use rhai_values::{Cause, Interval, Value, place_of};
use std::alloc::Global;

/// How many bits an integer has.
const BITS: usize = 64;

pub(crate) fn call(
    alloc: Global,
    function: Function,
    number: &mut i64,
    arguments: &[Value],
) -> Result<Option<Value>, Cause> {
    match function {
        Function::Bits => each_bit(alloc, *number, arguments),
        Function::GetBit => got_bit(*number, arguments),
        Function::GetBits => got_bits(*number, arguments),
        Function::SetBit => set_bit(number, arguments),
        Function::SetBits => set_bits(number, arguments),
        _ => Ok(None),
    }
}

/// An array of the bits as truth values: of all, of those from an index on, or of a part.
fn each_bit(alloc: Global, number: i64, arguments: &[Value]) -> Result<Option<Value>, Cause> {
    let place = match arguments {
        [] => Some((0, i64::MAX)),
        [Value::Int(start)] => Some((*start, i64::MAX)),
        _ => start_and_count(arguments),
    };
    let Some((start, count)) = place else {
        return Ok(None);
    };
    let span = counted(start, count)?;
    let mut bits = Vec::new(alloc);
    for place in span.first..span.end {
        bits.push(Value::Bool(number.wrapping_shr(distance(place)) & 1 == 1))?;
    }
    Ok(Some(Value::array(alloc, bits)?))
}

fn got_bit(number: i64, arguments: &[Value]) -> Result<Option<Value>, Cause> {
    let [Value::Int(index)] = arguments else {
        return Ok(None);
    };
    Ok(Some(bit_at(number, *index)?))
}

fn got_bits(number: i64, arguments: &[Value]) -> Result<Option<Value>, Cause> {
    let Some((start, count)) = start_and_count(arguments) else {
        return Ok(None);
    };
    let span = counted(start, count)?;
    Ok(Some(Value::Int(read(number, span))))
}

fn set_bit(number: &mut i64, arguments: &[Value]) -> Result<Option<Value>, Cause> {
    let [Value::Int(index), Value::Bool(bit)] = arguments else {
        return Ok(None);
    };
    *number = with_bit(*number, *index, *bit)?;
    Ok(Some(Value::Unit))
}

fn set_bits(number: &mut i64, arguments: &[Value]) -> Result<Option<Value>, Cause> {
    let Some((Value::Int(new), place)) = arguments.split_last() else {
        return Ok(None);
    };
    let Some((start, count)) = start_and_count(place) else {
        return Ok(None);
    };
    *number = with_bits(*number, counted(start, count)?, *new);
    Ok(Some(Value::Unit))
}

/// The bit at an index.
pub(crate) fn bit_at(number: i64, index: i64) -> Result<Value, Cause> {
    let bit = read(number, one(index)?);
    Ok(Value::Bool(bit == 1))
}

/// The bits of a range as an integer.
pub(crate) fn bits_in(number: i64, range: &Interval) -> Result<Value, Cause> {
    let span = within(range)?;
    Ok(Value::Int(read(number, span)))
}

/// Assigns a truth value to the bit at an index, or an integer to the bits of a range.
pub(crate) fn assign(number: &mut i64, index: &Value, assigned: &Value) -> Result<(), Cause> {
    match (index, assigned) {
        (Value::Int(index), Value::Bool(bit)) => {
            *number = with_bit(*number, *index, *bit)?;
            Ok(())
        }
        (Value::Range(range), Value::Int(new)) => {
            *number = with_bits(*number, within(range)?, *new);
            Ok(())
        }
        (Value::Int(_), _) => Err(Cause::WrongType("a truth value for a bit")),
        (Value::Range(_), _) => Err(Cause::WrongType("an integer for bits")),
        _ => Err(Cause::WrongType("an integer or a range as index")),
    }
}

fn with_bit(number: i64, index: i64, bit: bool) -> Result<i64, Cause> {
    Ok(with_bits(number, one(index)?, i64::from(bit)))
}

/// The place of one bit.
fn one(index: i64) -> Result<Span, Cause> {
    match place_of(BITS, index) {
        Some(first) => Ok(Span {
            first,
            end: first.saturating_add(1),
        }),
        None => Err(Cause::OutOfBounds(index, BITS)),
    }
}

/// The places of a number of bits from an index on. No bits lie anywhere.
fn counted(start: i64, count: i64) -> Result<Span, Cause> {
    if count <= 0 {
        return Ok(Span { first: 0, end: 0 });
    }
    match place_of(BITS, start) {
        Some(_) => Ok(Span::counted(BITS, start, count)),
        None => Err(Cause::OutOfBounds(start, BITS)),
    }
}

/// The places of a range, all of which have to be there. None of them counts from the end.
fn within(range: &Interval) -> Result<Span, Cause> {
    let first = from_lowest(range.from)?;
    let end = match range.last() {
        Some(last) => from_lowest(last)?.saturating_add(1),
        None => first,
    };
    Ok(Span { first, end })
}

fn from_lowest(index: i64) -> Result<usize, Cause> {
    match usize::try_from(index) {
        Ok(place) if place < BITS => Ok(place),
        _ => Err(Cause::OutOfBounds(index, BITS)),
    }
}

fn read(number: i64, span: Span) -> i64 {
    let bits = number.cast_unsigned().wrapping_shr(distance(span.first));
    (bits & mask(span)).cast_signed()
}

fn with_bits(number: i64, span: Span, new: i64) -> i64 {
    let first = distance(span.first);
    let mask = mask(span);
    let new = (new.cast_unsigned() & mask).wrapping_shl(first);
    let others = number.cast_unsigned() & !mask.wrapping_shl(first);
    (others | new).cast_signed()
}

/// As many bits as the part has, from the lowest on.
fn mask(span: Span) -> u64 {
    let count = span.end.saturating_sub(span.first);
    u64::MAX
        .checked_shr(distance(BITS.saturating_sub(count)))
        .unwrap_or(0)
}

fn distance(place: usize) -> u32 {
    u32::try_from(place).unwrap_or(u32::MAX)
}
