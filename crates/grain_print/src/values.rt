//! Values as literals.

use crate::quote::{write_char, write_text};
use grain_base::{Dynamic, Float, FnPtr};
use std::alloc::{AllocError, Global};
use std::collections::BTreeMap;

/// The bits of the zero whose sign is set, which the text of a number doesn't show.
const NEGATIVE_ZERO: u64 = 0x8000_0000_0000_0000;

/// Appends a value as a literal. It takes the call stack by the depth of the value.
#[cycle(value)]
pub fn write_value(alloc: Global, out: &mut String, value: &Dynamic) -> Result<(), AllocError> {
    match value {
        Dynamic::Unit => out.push_str("()"),
        Dynamic::Bool(true) => out.push_str("true"),
        Dynamic::Bool(false) => out.push_str("false"),
        Dynamic::Int(x) => write!(out, "{x}"),
        Dynamic::Char(c) => write_char(out, *c),
        Dynamic::Str(text) => write_text(out, text),
        Dynamic::Range(from, to) => write!(out, "{from}..{to}"),
        Dynamic::RangeInclusive(from, to) => write!(out, "{from}..={to}"),
        Dynamic::Array(items) => {
            out.push_str("[")?;
            write_items(alloc, out, items, "")?;
            out.push_str("]")
        }
        Dynamic::Blob(bytes) => write_blob(alloc, out, bytes),
        Dynamic::Map(entries) => write_map(alloc, out, entries),
        Dynamic::FnPtr(pointer) => write_pointer(alloc, out, pointer),
        Dynamic::Shared(inner) => {
            out.push_str("shared(")?;
            write_value(alloc, out, inner)?;
            out.push_str(")")
        }
        Dynamic::Host(host) => {
            out.push_str("host(")?;
            write_text(out, &host.type_name)?;
            let id = host.id;
            write!(out, ", {id})")
        }
        Dynamic::Float(x) => write_float(out, *x),
    }
}

/// Appends a float: by its decimal digits, or by its bits if it is infinite or one of the many NaN.
fn write_float(out: &mut String, float: Float) -> Result<(), AllocError> {
    let Float { bits } = float;
    if bits == NEGATIVE_ZERO {
        out.push_str("-0.0")
    } else if float.number().is_finite() {
        write!(out, "{float}")
    } else {
        write!(out, "float({bits:#x})")
    }
}

/// Appends values with commas between them, and before the first what it is given.
#[cycle(value)]
fn write_items(
    alloc: Global,
    out: &mut String,
    items: &[Dynamic],
    before: &str,
) -> Result<(), AllocError> {
    for (place, item) in items.iter().enumerate() {
        out.push_str(if place == 0 { before } else { ", " })?;
        write_value(alloc, out, item)?;
    }
    Ok(())
}

/// Appends an object map.
#[cycle(value)]
fn write_map(
    alloc: Global,
    out: &mut String,
    entries: &BTreeMap<String, Dynamic>,
) -> Result<(), AllocError> {
    out.push_str("#{")?;
    for (place, (key, value)) in entries.iter().enumerate() {
        out.push_str(if place == 0 { "" } else { ", " })?;
        write_text(out, key)?;
        out.push_str(": ")?;
        write_value(alloc, out, value)?;
    }
    out.push_str("}")
}

/// Appends a function pointer: its name, and the values that are bound.
#[cycle(value)]
fn write_pointer(alloc: Global, out: &mut String, pointer: &FnPtr) -> Result<(), AllocError> {
    out.push_str("Fn(")?;
    write_text(out, &pointer.name)?;
    write_items(alloc, out, &pointer.curry, ", ")?;
    out.push_str(")")
}

/// Appends a blob by its bytes.
fn write_blob(alloc: Global, out: &mut String, bytes: &Vec<u8>) -> Result<(), AllocError> {
    let digits = hex::encode(alloc, bytes.as_slice())?;
    write!(out, "blob(\"{digits}\")")
}
