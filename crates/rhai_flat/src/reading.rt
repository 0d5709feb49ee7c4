//! Rows as values.
ghost use Rattle.std.specs.Prelude.{◌≡◌, ◌+◌, ◌<◌, ◌∷◌, [], IfOk, OnOk, cond, length, string_bytes};
ghost use Rattle.std.specs.BTreeMap.{keys};
ghost use Rattle.std.specs.Cmp.Lexicographic.{slice_cmp};
ghost use Rattle.std.specs.List.{All};
ghost use Rattle.std.specs.Ordering.{nat_cmp};
ghost use Rattle.std.specs.declared.cmp.Ordering.{Ordering};
ghost use Rattle.grain_flat_file.specs.declared.tags.TheConstants as tags;
ghost use Rattle.rhai_flat.specs.Forms.{flat_entries, flat_form, flat_forms};
ghost use Rattle.rhai_flat.specs.Rows.{AreEntriesRead, AreFormsRead, AreOfRun, AreRowsOf, IsFormRead, IsFormReadBehind, settled_rows};
ghost use Rattle.rhai_flat.specs.declared.bad_value.BadValue.{BadValue};

use crate::bad_value::{BadValue, MAX_DEPTH};
use crate::reader::{Reader, character, float, has_fields};
use grain_flat_file::CValue;
use grain_flat_file::tags::{
    ARRAY, BLOB, CHARACTER, FALSE, FLOAT, FN_PTR, INTEGER, MAP, RANGE, RANGE_INCLUSIVE, SHARED,
    TEXT, TRUE, UNIT,
};
use rhai_values::{Foreign, Interval, List, Object, Pointer, SizeLimits, Text, Value};
use std::alloc::Global;
use std::cmp::Ordering;
use std::rc::Rc;

/// The values of rows, of which there are `count`. `texts` has the bytes of their texts and blobs.
///
/// The rows and bytes are those that [`FlatValues`](crate::FlatValues) has of these values, and no others have the same
/// ([`rows_tell_forms`](crate::rows_tell_forms)). So values that are written and read back keep their flat form. Only NaN is read
/// from each of its bits, as the one NaN that [`FlatValues`](crate::FlatValues) writes: all other numbers keep theirs
/// ([`numbers_keep_bits`](crate::numbers_keep_bits)).
///
/// The rows may come from a stranger. It takes time and memory linear in the rows and texts, n log n for a map of n entries.
///
/// # Errors
/// - [`BadValue::DepthLimit`]: the limit on depth is above [`MAX_DEPTH`].
/// - [`BadValue::TooDeep`], [`BadValue::TooLarge`]: a value isn't within the limits.
/// - [`BadValue::OutOfMemory`].
/// - The others: the rows and texts aren't those that [`FlatValues`](crate::FlatValues) has of such values. The first row at
///   which they aren't decides.
pub fn read_values(
    alloc: Global,
    rows: &[CValue],
    texts: &[u8],
    count: usize,
    limits: SizeLimits,
) -> Result<Vec<Value>, BadValue>
    ensures count { IfOk result (λ values. length values.items ≡ count) }
    ensures rows { IfOk result (λ values.
        AreRowsOf (settled_rows rows.now) texts.now (flat_forms values.items)) }
    ensures tags { OnOk result (AreOfRun rows.now) }
    ensures depth { MAX_DEPTH < limits.depth → result ≡ Err BadValue.DepthLimit }
{
    if limits.depth > MAX_DEPTH {
        return Err(BadValue::DepthLimit);
    }
    let mut reader = Reader {
        alloc,
        rows,
        texts,
        from: 0,
    };
    let values = read_limited(&mut reader, count, limits)?;
    nothing_left(&reader)?;
    Ok(values)
}

/// The one value that rows are, as [`read_values`] reads it.
///
/// # Errors
/// As [`read_values`].
pub fn read_one(
    alloc: Global,
    rows: &[CValue],
    texts: &[u8],
    limits: SizeLimits,
) -> Result<Value, BadValue>
    ensures rows { IfOk result (λ value.
        AreRowsOf (settled_rows rows.now) texts.now (flat_form value ∷ [])) }
    ensures tags { OnOk result (AreOfRun rows.now) }
    ensures depth { MAX_DEPTH < limits.depth → result ≡ Err BadValue.DepthLimit }
{
    if limits.depth > MAX_DEPTH {
        return Err(BadValue::DepthLimit);
    }
    let mut reader = Reader {
        alloc,
        rows,
        texts,
        from: 0,
    };
    let value = read_within(&mut reader, limits)?;
    nothing_left(&reader)?;
    Ok(value)
}

/// Whether all rows and bytes were read.
fn nothing_left(reader: &Reader<'_>) -> Result<(), BadValue>
    ensures { OnOk result
        ((length reader.now.rows.now ≡ 0) × (length reader.now.texts.now ≡ 0)) }
{
    if !reader.rows.is_empty() {
        return Err(BadValue::RowsLeft);
    }
    if !reader.texts.is_empty() {
        return Err(BadValue::BytesLeft);
    }
    Ok(())
}

/// Reads values within the limits.
fn read_limited(
    reader: &mut Reader<'_>,
    count: usize,
    limits: SizeLimits,
) -> Result<Vec<Value>, BadValue>
    ensures count { IfOk result (λ values. length values.items ≡ count) }
    ensures read { IfOk result (λ values.
        AreFormsRead reader.old reader.new (flat_forms values.items)) }
{
    let mut values = Vec::new(reader.alloc);
    'values: for _ in 0..count {
        let value = read_within(reader, limits)?;
        values.push(value)?;
    }
    Ok(values)
}

/// Reads a value within the limits.
fn read_within(reader: &mut Reader<'_>, limits: SizeLimits) -> Result<Value, BadValue>
    ensures { IfOk result (λ value. IsFormRead reader.old reader.new (flat_form value)) }
{
    let value = read_value(reader, limits.depth)?;
    if limits.allow(value.measure()) {
        Ok(value)
    } else {
        Err(BadValue::TooLarge)
    }
}

/// Reads a value, in which values are nested at most this deep.
#[cycle(read_value)]
fn read_value(reader: &mut Reader<'_>, depth: usize) -> Result<Value, BadValue>
    ensures { IfOk result (λ value. IsFormRead reader.old reader.new (flat_form value)) }
{
    let row = reader.row()?;
    match row.tag {
        ARRAY => read_array(reader, row, depth),
        MAP => read_map(reader, row, depth),
        FN_PTR => read_pointer(reader, row, depth),
        _ => read_single(reader, row),
    }
}

/// Reads what follows the row of a value that holds no others.
fn read_single(reader: &mut Reader<'_>, row: CValue) -> Result<Value, BadValue>
    ensures { IfOk result (λ value.
        IsFormReadBehind row reader.old reader.new (flat_form value)) }
{
    match row.tag {
        UNIT => {
            has_fields(row, 0, 0)?;
            Ok(Value::Unit)
        }
        FALSE => {
            has_fields(row, 0, 0)?;
            Ok(Value::Bool(false))
        }
        TRUE => {
            has_fields(row, 0, 0)?;
            Ok(Value::Bool(true))
        }
        INTEGER => {
            has_fields(row, 0, row.number)?;
            Ok(Value::Int(row.number))
        }
        CHARACTER => Ok(Value::Char(character(row)?)),
        TEXT => {
            let text = String::from_str(reader.alloc, reader.text(row)?)?;
            Ok(Value::Text(Rc::new(reader.alloc, Text::of(text))?))
        }
        BLOB => {
            let bytes = Vec::from_slice(reader.alloc, reader.bytes(row)?)?;
            Ok(Value::Blob(Rc::new(reader.alloc, bytes)?))
        }
        RANGE => read_range(reader, row, false),
        RANGE_INCLUSIVE => read_range(reader, row, true),
        SHARED => read_foreign(reader, row),
        FLOAT => {
            has_fields(row, 0, row.number)?;
            Ok(Value::Float(float(row).number()))
        }
        tag => Err(BadValue::UnknownTag(tag)),
    }
}

/// Reads the bounds of a range.
fn read_range(reader: &mut Reader<'_>, row: CValue, inclusive: bool) -> Result<Value, BadValue>
    requires { row.tag ≡ cond inclusive tags.RANGE_INCLUSIVE tags.RANGE }
    ensures { IfOk result (λ value.
        IsFormReadBehind row reader.old reader.new (flat_form value)) }
{
    has_fields(row, 0, 0)?;
    let from = reader.integer()?;
    let to = reader.integer()?;
    let range = Interval {
        from,
        to,
        inclusive,
    };
    Ok(Value::Range(Rc::new(reader.alloc, range)?))
}

/// Reads the kind and the number of a value of the host.
fn read_foreign(reader: &mut Reader<'_>, row: CValue) -> Result<Value, BadValue>
    requires { row.tag ≡ tags.SHARED }
    ensures { IfOk result (λ value.
        IsFormReadBehind row reader.old reader.new (flat_form value)) }
{
    has_fields(row, 0, 0)?;
    reader.range()?;
    let kind = reader.integer()?;
    let number = reader.integer()?;
    Ok(Value::Foreign(Rc::new(reader.alloc, Foreign { kind, number })?))
}

/// How deep values are nested at most in one in which they are nested so deep.
fn inner(depth: usize) -> Result<usize, BadValue>
    ensures { IfOk result (λ less. less + 1 ≡ depth) }
{
    match depth.checked_sub(1) {
        Some(depth) => Ok(depth),
        None => Err(BadValue::TooDeep),
    }
}

/// Reads the items of an array.
#[cycle(read_value)]
fn read_array(reader: &mut Reader<'_>, row: CValue, depth: usize) -> Result<Value, BadValue>
    requires { row.tag ≡ tags.ARRAY }
    ensures { IfOk result (λ value.
        IsFormReadBehind row reader.old reader.new (flat_form value)) }
{
    has_fields(row, row.count, 0)?;
    let items = read_all(reader, row.count, inner(depth)?)?;
    Ok(Value::Array(Rc::new(reader.alloc, List::of(items))?))
}

/// Reads the name of a function, and the values that are bound.
#[cycle(read_value)]
fn read_pointer(reader: &mut Reader<'_>, row: CValue, depth: usize) -> Result<Value, BadValue>
    requires { row.tag ≡ tags.FN_PTR }
    ensures { IfOk result (λ value.
        IsFormReadBehind row reader.old reader.new (flat_form value)) }
{
    has_fields(row, row.count, 0)?;
    let name = String::from_str(reader.alloc, reader.name()?)?;
    let bound = read_bound(reader, row.count, depth)?;
    Ok(Value::Pointer(Rc::new(reader.alloc, Pointer::new(name, bound))?))
}

/// Reads this number of values that are bound. A function without any may lie at the deepest level.
#[cycle(read_value)]
fn read_bound(reader: &mut Reader<'_>, count: u32, depth: usize) -> Result<Vec<Value>, BadValue>
    ensures count { IfOk result (λ values. length values.items ≡ count) }
    ensures read { IfOk result (λ values.
        AreFormsRead reader.old reader.new (flat_forms values.items)) }
{
    if count == 0 {
        return Ok(Vec::new(reader.alloc));
    }
    read_all(reader, count, inner(depth)?)
}

/// Reads this number of values.
#[cycle(read_value)]
fn read_all(reader: &mut Reader<'_>, count: u32, depth: usize) -> Result<Vec<Value>, BadValue>
    ensures count { IfOk result (λ values. length values.items ≡ count) }
    ensures read { IfOk result (λ values.
        AreFormsRead reader.old reader.new (flat_forms values.items)) }
{
    let mut values = Vec::new(reader.alloc);
    'values: for _ in 0..count {
        let value = read_value(reader, depth)?;
        values.push(value)?;
    }
    Ok(values)
}

/// Reads the entries of a map.
#[cycle(read_value)]
fn read_map(reader: &mut Reader<'_>, row: CValue, depth: usize) -> Result<Value, BadValue>
    requires { row.tag ≡ tags.MAP }
    ensures { IfOk result (λ value.
        IsFormReadBehind row reader.old reader.new (flat_form value)) }
{
    has_fields(row, row.count, 0)?;
    let object = read_entries(reader, row.count, inner(depth)?)?;
    Ok(Value::Map(Rc::new(reader.alloc, object)?))
}

/// Reads this number of entries.
#[cycle(read_value)]
fn read_entries(reader: &mut Reader<'_>, count: u32, depth: usize) -> Result<Object, BadValue>
    ensures count { IfOk result (λ object. length object.entries.entries ≡ count) }
    ensures read { IfOk result (λ object.
        AreEntriesRead reader.old reader.new (flat_entries object.entries.entries)) }
{
    let mut object = Object::new(reader.alloc);
    'entries: for _ in 0..count {
        let key = reader.name()?;
        comes_last(&object, key)?;
        let value = read_value(reader, depth)?;
        let key = String::from_str(reader.alloc, key)?;
        let _ = object.insert(key, value)?;
    }
    Ok(object)
}

/// Whether a key is greater than those of an object map.
fn comes_last(object: &Object, key: &str) -> Result<(), BadValue>
    ensures { OnOk result (All
        (λ other. slice_cmp nat_cmp (string_bytes other) key.now ≡ Ordering.Less)
        (keys object.now.entries)) }
{
    let Some((last, _)) = object.entries().last_key_value() else {
        return Ok(());
    };
    match last.as_str().cmp(key) {
        Ordering::Less => Ok(()),
        Ordering::Equal => Err(BadValue::RepeatedKey),
        Ordering::Greater => Err(BadValue::KeyOrder),
    }
}
