//! What a value is, by number.

/// No value.
pub const UNIT: u32 = 0;

/// `false`.
pub const FALSE: u32 = 1;

/// `true`.
pub const TRUE: u32 = 2;

/// An integer.
pub const INTEGER: u32 = 3;

/// A character.
pub const CHARACTER: u32 = 4;

/// A text.
pub const TEXT: u32 = 5;

/// A range: its two integers follow, and it has those from the first up to the second, without it.
pub const RANGE: u32 = 6;

/// A range: its two integers follow, and it has those from the first up to the second, with it.
pub const RANGE_INCLUSIVE: u32 = 7;

/// An array: its values follow.
pub const ARRAY: u32 = 8;

/// A blob.
pub const BLOB: u32 = 9;

/// An object map: its entries follow, each a text and then a value.
pub const MAP: u32 = 10;

/// A function pointer: a text follows, its name, and then the values that are bound.
pub const FN_PTR: u32 = 11;

/// A shared value: what it holds follows.
pub const SHARED: u32 = 12;

/// A value of the host. No file has one.
pub const HOST: u32 = 13;

/// An operator of the language, by its number (docs/FORMAT.md, "Program files").
pub const OPERATOR: u32 = 14;

/// A floating-point number, by its 64 bits, which the row has as a signed number (two's complement).
pub const FLOAT: u32 = 15;
