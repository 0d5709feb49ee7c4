//! The table of a switch in the making.

use rhai_syntax::Literal;

/// A value that leads somewhere.
#[derive(Clone, Copy, Drop)]
pub struct Leading {
    /// The value.
    pub value: Literal,
    /// The index of the constant.
    pub constant: u32,
}

/// A range of integers that leads somewhere.
#[derive(Clone, Copy, Drop)]
pub struct Spanning {
    /// The first integer.
    pub from: i64,
    /// The last integer, or the one after it.
    pub to: i64,
    /// Whether `to` is one of them.
    pub is_inclusive: bool,
}

/// A switch in the making. The code has its targets: those of the values in their order, and then those of the ranges in theirs.
#[derive(Drop)]
pub struct Table {
    /// The values, without repeats.
    pub values: Vec<Leading>,
    /// The ranges, of which the first that has the subject counts.
    pub ranges: Vec<Spanning>,
}
