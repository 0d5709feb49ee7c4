//! Names and positions.

use crate::chance::Chance;
use grain::{Position, Strings, StringsError};
use std::alloc::Global;

/// Names of variables, functions and properties. The qualified ones require a module.
static NAMES: [&str; 16] = [
    "x",
    "len",
    "print",
    "a::b",
    "+",
    "get$x",
    "set$x",
    "",
    "math::sin",
    "été",
    "call",
    "y$1",
    "::x",
    "a::",
    "x::y::z",
    "this",
];

/// Some names, in order, at least one.
pub fn names(alloc: Global, chance: &mut Chance) -> Result<Strings, StringsError> {
    let first = chance.index(NAMES.len());
    Strings::new(alloc, NAMES.get(first..).unwrap_or_default())
}

/// A position: none in one of four cases, and else a line with a column or without.
pub fn position(chance: &mut Chance) -> Position {
    let column = chance.small(80);
    match chance.small(200) {
        line if line >= 50 => Position::new(line, column),
        _ => Position::NONE,
    }
}
