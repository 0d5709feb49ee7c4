//! Why rows are no values.
ghost use Rattle.std.specs.Prelude.{◌≡◌};

use std::alloc::{AllocError, AllocFailed};
use thiserror::Error;

/// The greatest limit on the depth of values that are read. Reading, writing and dropping one recurse as deep.
pub const MAX_DEPTH: usize = 256;

/// Why rows are no values within the limits.
#[derive(Clone, Copy, Debug, PartialEq, Eq, Error)]
pub enum BadValue {
    /// The limit on the depth of values is above [`MAX_DEPTH`]. Nothing was read.
    #[error("the limit on the depth of values is above {MAX_DEPTH}")]
    DepthLimit,
    /// The rows end within a value, or before the last one.
    #[error("the rows end within a value")]
    TooFewRows,
    /// Rows follow the last value.
    #[error("rows follow the last value")]
    RowsLeft,
    /// Bytes follow the last text.
    #[error("bytes follow the last text")]
    BytesLeft,
    /// A tag is none of a value of a run.
    #[error("a row has the tag {0}, which no value has")]
    UnknownTag(u32),
    /// A field that its tag doesn't use isn't 0.
    #[error("a field that is not used is not 0")]
    UnusedField,
    /// The number of a character is no Unicode scalar value.
    #[error("a number is no character")]
    NotCharacter,
    /// The bytes of a text, a name or a key are not UTF-8.
    #[error("a text is not UTF-8")]
    NotText,
    /// A bound of a range isn't an integer.
    #[error("a bound of a range is no integer")]
    NotInteger,
    /// What follows the row of a value of the host isn't a range.
    #[error("a value of the host is no range")]
    NotForeign,
    /// The name of a function or a key of a map isn't a text.
    #[error("a name or a key is no text")]
    NotName,
    /// The bytes of a text or a blob don't follow those before them.
    #[error("the bytes of a text begin at another place")]
    TextPlace,
    /// The bytes of a text or a blob end after the last byte.
    #[error("a text ends behind the last byte")]
    TextEnd,
    /// A key of a map is less than the key before it.
    #[error("the keys of a map are out of order")]
    KeyOrder,
    /// A map has a key twice.
    #[error("a map has a key twice")]
    RepeatedKey,
    /// Values are nested deeper than the limit.
    #[error("values nested too deep")]
    TooDeep,
    /// A value is larger than the limit.
    #[error("a value is too large")]
    TooLarge,
    /// An allocation failed.
    #[error("out of memory")]
    OutOfMemory,
}

impl From<AllocError> for BadValue {
    ghost use Rattle.std.specs.Prelude.{◌≡◌};
    ghost use Rattle.rhai_flat.specs.declared.bad_value.BadValue.{BadValue};

    ghost from_gives = { λ _ e. e ≡ BadValue.OutOfMemory };

    fn from(_: AllocError) -> BadValue {
        BadValue::OutOfMemory
    }
}

impl<T: Drop> From<AllocFailed<T>> for BadValue {
    ghost use Rattle.std.specs.Prelude.{◌≡◌};
    ghost use Rattle.rhai_flat.specs.declared.bad_value.BadValue.{BadValue};

    ghost from_gives = { λ _ e. e ≡ BadValue.OutOfMemory };

    fn from(_: AllocFailed<T>) -> BadValue {
        BadValue::OutOfMemory
    }
}
