//! The texts of values.

use super::Dynamic;
use std::collections::BTreeMap;
use std::fmt;

/// The text of docs/FORMAT.md, "Texts". A shared value has the text of what it holds. It takes time by its length, and by
/// the number of shared marks.
impl fmt::Display for Dynamic {
    fn fmt<W: fmt::Write>(&self, f: &mut fmt::Formatter<W>) -> fmt::Result {
        write_value(self, f)
    }
}

#[cycle(text)]
fn write_value<W: fmt::Write>(value: &Dynamic, f: &mut fmt::Formatter<W>) -> fmt::Result {
    match value {
        Dynamic::Unit => write!(f, "()"),
        Dynamic::Bool(x) => write!(f, "{x}"),
        Dynamic::Int(x) => write!(f, "{x}"),
        Dynamic::Char(x) => write!(f, "{x}"),
        Dynamic::Str(text) => write!(f, "{text}"),
        Dynamic::Range(from, to) => write!(f, "{from}..{to}"),
        Dynamic::RangeInclusive(from, to) => write!(f, "{from}..={to}"),
        Dynamic::Array(items) => write_items(items, f),
        Dynamic::Blob(bytes) => write!(f, "{bytes:?}"),
        Dynamic::Map(entries) => write_entries(entries, f),
        Dynamic::FnPtr(pointer) => {
            let name = &pointer.name;
            write!(f, "Fn({name})")
        }
        Dynamic::Shared(inner) => write_value(inner, f),
        Dynamic::Host(value) => {
            let type_name = &value.type_name;
            write!(f, "<{type_name}>")
        }
        Dynamic::Float(x) => write!(f, "{x}"),
    }
}

#[cycle(text)]
fn write_items<W: fmt::Write>(items: &[Dynamic], f: &mut fmt::Formatter<W>) -> fmt::Result {
    write!(f, "[")?;
    for (i, item) in items.iter().enumerate() {
        if i > 0 {
            write!(f, ", ")?;
        }
        write_value(item, f)?;
    }
    write!(f, "]")
}

#[cycle(text)]
fn write_entries<W: fmt::Write>(
    entries: &BTreeMap<String, Dynamic>,
    f: &mut fmt::Formatter<W>,
) -> fmt::Result {
    let mut first = true;
    write!(f, "#{{")?;
    for (key, value) in entries {
        if !first {
            write!(f, ", ")?;
        }
        first = false;
        write!(f, "{key}: ")?;
        write_value(value, f)?;
    }
    write!(f, "}}")
}
