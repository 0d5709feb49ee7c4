//! Values as text.

use crate::interval::Interval;
use crate::value::{Foreign, Pointer, Value};
use grain_base::write_number;
use std::collections::BTreeMap;
use std::fmt;

/// How many bytes of a blob are shown without a blank between them.
const GROUP: usize = 8;

/// As `print` shows it: a text and a character as they are, unit as nothing, and all else as [`Debug`](fmt::Debug).
impl fmt::Display for Value {
    fn fmt<W: fmt::Write>(&self, f: &mut fmt::Formatter<W>) -> fmt::Result {
        match self {
            Value::Unit => Ok(()),
            Value::Text(text) => f.write_str(text.as_str()),
            Value::Char(character) => write!(f, "{character}"),
            value => write!(f, "{value:?}"),
        }
    }
}

/// As `debug` shows it, and what an array or a map shows of its parts: texts and characters are quoted.
impl fmt::Debug for Value {
    #[cycle(show)]
    fn fmt<W: fmt::Write>(&self, f: &mut fmt::Formatter<W>) -> fmt::Result {
        match self {
            Value::Unit => f.write_str("()"),
            Value::Bool(x) => f.write_str(if *x { "true" } else { "false" }),
            Value::Int(x) => write!(f, "{x}"),
            Value::Float(x) => write_number(*x, f),
            Value::Char(x) => write!(f, "{x:?}"),
            Value::Text(text) => show_text(text.as_str(), f),
            Value::Range(range) => show_range(range, f),
            Value::Array(list) => show_items(&list.items, f),
            Value::Blob(bytes) => show_bytes(bytes.as_slice(), f),
            Value::Map(object) => show_entries(&object.entries, f),
            Value::Pointer(pointer) => show_pointer(pointer, f),
            Value::Foreign(foreign) => show_foreign(foreign, f),
            Value::Shared(_) => f.write_str("<shared>"),
        }
    }
}

fn show_text<W: fmt::Write>(text: &str, f: &mut fmt::Formatter<W>) -> fmt::Result {
    write!(f, "{text:?}")
}

fn show_range<W: fmt::Write>(range: &Interval, f: &mut fmt::Formatter<W>) -> fmt::Result {
    let from = range.from;
    let to = range.to;
    let dots = if range.inclusive { "..=" } else { ".." };
    write!(f, "{from}{dots}{to}")
}

#[cycle(show)]
fn show_items<W: fmt::Write>(items: &[Value], f: &mut fmt::Formatter<W>) -> fmt::Result {
    f.write_str("[")?;
    let mut is_first = true;
    for item in items {
        if !is_first {
            f.write_str(", ")?;
        }
        is_first = false;
        fmt::Debug::fmt(item, f)?;
    }
    f.write_str("]")
}

#[cycle(show)]
fn show_entries<W: fmt::Write>(
    entries: &BTreeMap<String, Value>,
    f: &mut fmt::Formatter<W>,
) -> fmt::Result {
    f.write_str("#{")?;
    let mut is_first = true;
    for (name, value) in entries {
        if !is_first {
            f.write_str(", ")?;
        }
        is_first = false;
        show_text(name.as_str(), f)?;
        f.write_str(": ")?;
        fmt::Debug::fmt(value, f)?;
    }
    f.write_str("}")
}

fn show_pointer<W: fmt::Write>(pointer: &Pointer, f: &mut fmt::Formatter<W>) -> fmt::Result {
    let name = pointer.name();
    write!(f, "Fn({name})")
}

fn show_foreign<W: fmt::Write>(foreign: &Foreign, f: &mut fmt::Formatter<W>) -> fmt::Result {
    let kind = foreign.kind;
    let number = foreign.number;
    write!(f, "foreign({kind}, {number})")
}

fn show_bytes<W: fmt::Write>(bytes: &[u8], f: &mut fmt::Formatter<W>) -> fmt::Result {
    f.write_str("[")?;
    let mut is_first = true;
    for group in bytes.chunks(GROUP) {
        if !is_first {
            f.write_str(" ")?;
        }
        is_first = false;
        for byte in group {
            let byte = *byte;
            write!(f, "{byte:02x}")?;
        }
    }
    f.write_str("]")
}
