//! Values in flat form, written and read.

use crate::samples::{assert_same, made};
use grain_flat_file::tags::{
    ARRAY, BLOB, CHARACTER, FN_PTR, HOST, INTEGER, MAP, RANGE, SHARED, TEXT, TRUE, UNIT,
};
use rhai_flat::{BadValue, CValue, FlatValues, MAX_DEPTH, read_values};
use rhai_values::{Cause, Object, Pointer, SizeLimits, Value, are_equal};
use std::alloc::{AllocError, Global};
use std::rc::Rc;
use std::test::Fail;

const LIMITS: SizeLimits = SizeLimits {
    size: 1_000_000,
    depth: 64,
};

fn text(alloc: Global, content: &str) -> Result<Value, Fail> {
    Ok(Value::text(alloc, String::from_str(alloc, content)?)?)
}

fn map(alloc: Global) -> Result<Value, Fail> {
    let mut object = Object::new(alloc);
    let _ = object.insert(String::from_str(alloc, "b")?, Value::Int(-1))?;
    let _ = object.insert(String::from_str(alloc, "a")?, text(alloc, "é")?)?;
    Ok(Value::Map(Rc::new(alloc, object)?))
}

fn blob(alloc: Global) -> Result<Value, Fail> {
    let bytes = vec![in alloc; 0u8, 255]?;
    Ok(Value::Blob(Rc::new(alloc, bytes)?))
}

fn pointer(alloc: Global) -> Result<Value, Fail> {
    let bound = vec![in alloc; map(alloc)?, Value::Int(7)]?;
    let pointer = Pointer::new(String::from_str(alloc, "f")?, bound);
    Ok(Value::Pointer(Rc::new(alloc, pointer)?))
}

fn array(alloc: Global) -> Result<Value, Fail> {
    let items = vec![in alloc; Value::Unit, map(alloc)?]?;
    Ok(Value::array(alloc, items)?)
}

fn push_texts(alloc: Global, values: &mut Vec<Value>) -> Result<(), Fail> {
    values.push(text(alloc, "")?)?;
    values.push(text(alloc, "über")?)?;
    values.push(Value::range(alloc, -3, 4, false)?)?;
    values.push(Value::range(alloc, 5, -6, true)?)?;
    Ok(())
}

fn push_parts(alloc: Global, values: &mut Vec<Value>) -> Result<(), Fail> {
    values.push(blob(alloc)?)?;
    values.push(map(alloc)?)?;
    values.push(pointer(alloc)?)?;
    values.push(array(alloc)?)?;
    Ok(())
}

/// Values of every kind but a shared one.
fn values(alloc: Global) -> Result<Vec<Value>, Fail> {
    let plain = [
        Value::Unit,
        Value::Bool(false),
        Value::Bool(true),
        Value::Int(i64::MIN),
        Value::Float(-0.1),
        Value::Float(f64::INFINITY),
        Value::Char('\u{10ffff}'),
    ];
    let mut values = Vec::from_array(alloc, plain)?;
    push_texts(alloc, &mut values)?;
    push_parts(alloc, &mut values)?;
    Ok(values)
}

fn row(tag: u32, count: u32, number: i64) -> CValue {
    CValue { tag, count, number }
}

/// The rows of values, if all of them are written.
fn written(alloc: Global, values: &[Value]) -> Result<FlatValues, Fail> {
    let mut flat = FlatValues::new(alloc);
    for value in values {
        if flat.write(value).is_err() {
            return Err(Fail::new("not written"));
        }
    }
    Ok(flat)
}

#[test]
fn values_come_back(rt: HostRuntime) {
    let alloc = rt.alloc();
    let values = made(&rt, values(alloc));
    let flat = made(&rt, written(alloc, &values));
    let count = values.len();
    let read = made(
        &rt,
        read_values(alloc, flat.rows(), flat.texts(), count, LIMITS),
    );
    assert_same(&rt, read.len(), count);
    for (one, other) in values.iter().zip(read.iter()) {
        assert!(rt; are_equal(one, other));
        assert_same(&rt, one.type_name(), other.type_name());
        assert_same(&rt, one.measure(), other.measure());
    }
}

#[test]
fn a_map_is_its_rows(rt: HostRuntime) {
    let alloc = rt.alloc();
    let values = [made(&rt, map(alloc))];
    let mut flat = made(&rt, written(alloc, &values));
    let wanted = [
        row(MAP, 2, 0),
        row(TEXT, 1, 0),
        row(TEXT, 2, 1),
        row(TEXT, 1, 3),
        row(INTEGER, 0, -1),
    ];
    assert_same(&rt, flat.rows().len(), wanted.len());
    for (one, other) in flat.rows().iter().zip(wanted.iter()) {
        assert_same(
            &rt,
            (one.tag, one.count, one.number),
            (other.tag, other.count, other.number),
        );
    }
    assert_same(&rt, flat.texts(), "aéb".as_bytes());
    flat.clear();
    assert!(rt; flat.rows().is_empty() && flat.texts().is_empty());
}

/// A pointer that has a shared variable among its bound arguments.
fn sharing(alloc: Global) -> Result<Value, Fail> {
    let shared = Value::Shared(Rc::new(alloc, 0usize)?);
    let bound = vec![in alloc; text(alloc, "x")?, shared]?;
    let pointer = Pointer::new(String::from_str(alloc, "f")?, bound);
    Ok(Value::Pointer(Rc::new(alloc, pointer)?))
}

#[test]
fn a_shared_variable_is_not_written(rt: HostRuntime) {
    let alloc = rt.alloc();
    let first = [made(&rt, text(alloc, "first"))];
    let mut flat = made(&rt, written(alloc, &first));
    let sharing = made(&rt, sharing(alloc));
    let is_refused = matches!(flat.write(&sharing), Err(Cause::Unsupported));
    assert!(rt; is_refused);
    assert_same(&rt, flat.rows().len(), 1);
    assert_same(&rt, flat.texts(), "first".as_bytes());
}

/// Why the rows are not one value.
fn refusal(alloc: Global, rows: &[CValue], texts: &[u8]) -> Option<BadValue> {
    let limits = SizeLimits { size: 6, depth: 2 };
    match read_values(alloc, rows, texts, 1, limits) {
        Ok(_) => None,
        Err(error) => Some(error),
    }
}

#[test]
fn single_rows_are_refused(rt: HostRuntime) {
    let alloc = rt.alloc();
    let cases = [
        (row(INTEGER, 0, 5), None),
        (row(SHARED, 0, 0), Some(BadValue::TooFewRows)),
        (row(HOST, 0, 0), Some(BadValue::UnknownTag(HOST))),
        (row(u32::MAX, 0, 0), Some(BadValue::UnknownTag(u32::MAX))),
        (row(UNIT, 1, 0), Some(BadValue::UnusedField)),
        (row(TRUE, 0, 1), Some(BadValue::UnusedField)),
        (row(INTEGER, 1, 5), Some(BadValue::UnusedField)),
        (row(CHARACTER, 0, 0xd800), Some(BadValue::NotCharacter)),
        (row(CHARACTER, 0, -1), Some(BadValue::NotCharacter)),
        (row(TEXT, 1, 0), Some(BadValue::TextEnd)),
        (row(BLOB, u32::MAX, 0), Some(BadValue::TextEnd)),
        (row(TEXT, 0, 1), Some(BadValue::TextPlace)),
        (row(TEXT, 0, -1), Some(BadValue::TextPlace)),
        (row(ARRAY, 1, 0), Some(BadValue::TooFewRows)),
        (row(ARRAY, u32::MAX, 0), Some(BadValue::TooFewRows)),
        (row(RANGE, 0, 0), Some(BadValue::TooFewRows)),
    ];
    for (row, wanted) in cases.iter() {
        let found = refusal(alloc, [*row].as_slice(), [].as_slice());
        assert_eq!(rt; found, *wanted);
    }
}

#[test]
fn rows_and_bytes_are_refused(rt: HostRuntime) {
    let alloc = rt.alloc();
    let integer = row(INTEGER, 0, 0);
    let deep = row(ARRAY, 1, 0);
    let left = [integer, integer];
    assert_eq!(rt;
        refusal(alloc, left.as_slice(), [].as_slice()),
        Some(BadValue::RowsLeft)
    );
    assert_eq!(rt;
        refusal(alloc, [integer].as_slice(), b"x".as_slice()),
        Some(BadValue::BytesLeft)
    );
    assert_eq!(rt;
        refusal(alloc, [row(TEXT, 1, 0)].as_slice(), b"\xff".as_slice()),
        Some(BadValue::NotText)
    );
    let range = [row(RANGE, 0, 0), integer, row(UNIT, 0, 0)];
    assert_eq!(rt;
        refusal(alloc, range.as_slice(), [].as_slice()),
        Some(BadValue::NotInteger)
    );
    let pointer = [row(FN_PTR, 0, 0), integer];
    assert_eq!(rt;
        refusal(alloc, pointer.as_slice(), [].as_slice()),
        Some(BadValue::NotName)
    );
    let three = [deep, deep, deep, integer];
    assert_eq!(rt;
        refusal(alloc, three.as_slice(), [].as_slice()),
        Some(BadValue::TooDeep)
    );
    let large = [row(TEXT, 6, 0)];
    assert_eq!(rt;
        refusal(alloc, large.as_slice(), b"abcdef".as_slice()),
        Some(BadValue::TooLarge)
    );
    assert_eq!(rt;
        refusal(alloc, [row(TEXT, 5, 0)].as_slice(), b"abcde".as_slice()),
        None
    );
}

#[test]
fn keys_are_refused(rt: HostRuntime) {
    let alloc = rt.alloc();
    let unit = row(UNIT, 0, 0);
    let entries = [row(MAP, 2, 0), row(TEXT, 1, 0), unit, row(TEXT, 1, 1), unit];
    assert_eq!(rt; refusal(alloc, entries.as_slice(), b"ab".as_slice()), None);
    assert_eq!(rt;
        refusal(alloc, entries.as_slice(), b"aa".as_slice()),
        Some(BadValue::RepeatedKey)
    );
    assert_eq!(rt;
        refusal(alloc, entries.as_slice(), b"ba".as_slice()),
        Some(BadValue::KeyOrder)
    );
}

/// Arrays in arrays.
fn nested(alloc: Global) -> Result<Vec<CValue>, AllocError> {
    let mut rows = Vec::new(alloc);
    for _ in 0..MAX_DEPTH {
        rows.push(row(ARRAY, 1, 0))?;
    }
    rows.push(row(UNIT, 0, 0))?;
    Ok(rows)
}

fn limit(depth: usize) -> SizeLimits {
    SizeLimits { size: 1000, depth }
}

#[test]
fn the_limit_on_depth_is_limited(rt: HostRuntime) {
    let alloc = rt.alloc();
    let rows = made(&rt, nested(alloc));
    let values = made(&rt, read_values(alloc, &rows, &[], 1, limit(MAX_DEPTH)));
    let flat = made(&rt, written(alloc, &values));
    assert_same(&rt, flat.rows().len(), rows.len());
    let refused = read_values(alloc, &rows, &[], 1, limit(MAX_DEPTH + 1)).err();
    assert_same(&rt, refused, Some(BadValue::DepthLimit));
}
