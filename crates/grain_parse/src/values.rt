//! Values.

use grain_base::{Dynamic, Float, FnPtr, HostValue};
use grain_lexer::{LineCursor, LineProblem, LineStop, read_char, read_text, read_text_or_word};
use std::alloc::{AllocError, Global};
use std::collections::BTreeMap;

/// How deep values are nested at most. One that holds no other counts 1.
pub const MAX_DEPTH: u32 = 64;

/// Reads a float, an integer, or a range of integers.
fn read_number(cursor: &mut LineCursor<'_>) -> Result<Dynamic, LineStop> {
    match cursor.float()? {
        Some(float) => Ok(Dynamic::Float(float)),
        None => read_integers(cursor),
    }
}

/// Reads the bits of a float, after its word.
fn read_bits(cursor: &mut LineCursor<'_>) -> Result<Dynamic, LineStop> {
    cursor.expect(b'(')?;
    let bits = cursor.number()?;
    cursor.expect(b')')?;
    Ok(Dynamic::Float(Float { bits }))
}

/// Reads an integer, or a range of integers.
fn read_integers(cursor: &mut LineCursor<'_>) -> Result<Dynamic, LineStop> {
    let from = cursor.integer()?;
    match cursor.left {
        [b'.', b'.', b'=', rest @ ..] => {
            cursor.left = rest;
            let to = cursor.integer()?;
            Ok(Dynamic::RangeInclusive(from, to))
        }
        [b'.', b'.', rest @ ..] => {
            cursor.left = rest;
            let to = cursor.integer()?;
            Ok(Dynamic::Range(from, to))
        }
        _ => Ok(Dynamic::Int(from)),
    }
}

/// Reads a blob, after its word.
fn read_blob(cursor: &mut LineCursor<'_>) -> Result<Dynamic, LineStop> {
    cursor.expect(b'(')?;
    let start = cursor.left;
    let digits = read_text(cursor)?;
    match hex::decode(cursor.alloc, digits.as_str()) {
        Ok(bytes) => {
            cursor.expect(b')')?;
            Ok(Dynamic::Blob(bytes))
        }
        Err(hex::FromHexError::OutOfMemory) => Err(LineStop::OutOfMemory),
        Err(_) => {
            cursor.left = start;
            Err(LineStop::Fault(LineProblem::NotHex))
        }
    }
}

/// Reads a value of the host, after its word.
fn read_host(cursor: &mut LineCursor<'_>) -> Result<Dynamic, LineStop> {
    cursor.expect(b'(')?;
    let type_name = read_text(cursor)?;
    cursor.expect(b',')?;
    let id = cursor.number()?;
    cursor.expect(b')')?;
    Ok(Dynamic::Host(HostValue { type_name, id }))
}

/// Reads the unit value.
fn read_unit(cursor: &mut LineCursor<'_>) -> Result<Dynamic, LineStop> {
    cursor.expect(b'(')?;
    cursor.expect(b')')?;
    Ok(Dynamic::Unit)
}

/// Gives a key its value, and says whether it had none.
fn put(
    entries: &mut BTreeMap<String, Dynamic>,
    key: String,
    value: Dynamic,
) -> Result<bool, AllocError> {
    let old = entries.insert(key, value)?;
    Ok(old.is_none())
}

/// A value under the mark that it is shared.
fn shared(alloc: Global, value: Dynamic) -> Result<Dynamic, AllocError> {
    Ok(Dynamic::Shared(Box::new(alloc, value)?))
}

/// Reads a value that is nested so deep at most.
#[cycle(value)]
pub(crate) fn read_value(cursor: &mut LineCursor<'_>, depth: u32) -> Result<Dynamic, LineStop> {
    cursor.blanks();
    let Some(depth) = depth.checked_sub(1) else {
        return Err(LineStop::Fault(LineProblem::TooDeep));
    };
    match cursor.left {
        [b'(', ..] => read_unit(cursor),
        [b'"', ..] => Ok(Dynamic::Str(read_text(cursor)?)),
        [b'\'', ..] => Ok(Dynamic::Char(read_char(cursor)?)),
        [b'-' | b'0'..=b'9', ..] => read_number(cursor),
        [b'[', rest @ ..] => {
            cursor.left = rest;
            Ok(Dynamic::Array(read_items(cursor, b']', depth)?))
        }
        [b'#', b'{', rest @ ..] => {
            cursor.left = rest;
            Ok(Dynamic::Map(read_entries(cursor, depth)?))
        }
        _ => read_named(cursor, depth),
    }
}

/// Reads a value that begins with a word.
#[cycle(value)]
fn read_named(cursor: &mut LineCursor<'_>, depth: u32) -> Result<Dynamic, LineStop> {
    let start = cursor.left;
    match cursor.word()? {
        "true" => Ok(Dynamic::Bool(true)),
        "false" => Ok(Dynamic::Bool(false)),
        "blob" => read_blob(cursor),
        "host" => read_host(cursor),
        "float" => read_bits(cursor),
        "Fn" => Ok(Dynamic::FnPtr(read_pointer(cursor, depth)?)),
        "shared" => read_shared(cursor, depth),
        _ => {
            cursor.left = start;
            Err(LineStop::Fault(LineProblem::NotValue))
        }
    }
}

/// Reads a shared value, after its word.
#[cycle(value)]
fn read_shared(cursor: &mut LineCursor<'_>, depth: u32) -> Result<Dynamic, LineStop> {
    cursor.expect(b'(')?;
    let value = read_value(cursor, depth)?;
    cursor.expect(b')')?;
    Ok(shared(cursor.alloc, value)?)
}

/// Reads a function pointer, after its word: its name, and the values that are bound.
#[cycle(value)]
fn read_pointer(cursor: &mut LineCursor<'_>, depth: u32) -> Result<FnPtr, LineStop> {
    cursor.expect(b'(')?;
    let name = read_text(cursor)?;
    let curry = if cursor.eat(b',') {
        read_items(cursor, b')', depth)?
    } else {
        cursor.expect(b')')?;
        Vec::new(cursor.alloc)
    };
    Ok(FnPtr { name, curry })
}

/// Reads values with commas between them, up to the byte that ends them.
#[cycle(value)]
fn read_items(cursor: &mut LineCursor<'_>, end: u8, depth: u32) -> Result<Vec<Dynamic>, LineStop> {
    let mut items = Vec::new(cursor.alloc);
    if cursor.eat(end) {
        return Ok(items);
    }
    for _turn in 0..cursor.left.len() {
        let item = read_value(cursor, depth)?;
        items.push(item)?;
        if cursor.eat(end) {
            return Ok(items);
        }
        cursor.expect(b',')?;
    }
    Err(LineStop::Fault(LineProblem::NoEnd))
}

/// Reads keys with their values up to the brace that ends them.
#[cycle(value)]
fn read_entries(
    cursor: &mut LineCursor<'_>,
    depth: u32,
) -> Result<BTreeMap<String, Dynamic>, LineStop> {
    let mut entries = BTreeMap::new(cursor.alloc);
    if cursor.eat(b'}') {
        return Ok(entries);
    }
    for _turn in 0..cursor.left.len() {
        let start = cursor.left;
        let key = read_text_or_word(cursor)?;
        cursor.expect(b':')?;
        let value = read_value(cursor, depth)?;
        if !put(&mut entries, key, value)? {
            cursor.left = start;
            return Err(LineStop::Fault(LineProblem::SameKey));
        }
        if cursor.eat(b'}') {
            return Ok(entries);
        }
        cursor.expect(b',')?;
    }
    Err(LineStop::Fault(LineProblem::NoEnd))
}
