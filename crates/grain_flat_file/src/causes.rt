//! Why bytes are no file, by number.

/// The file has more bytes than the limit: `at` is how many, `limit` how many it may have.
pub const TOO_LARGE: u32 = 1;

/// The bytes don't begin as a file does.
pub const MAGIC: u32 = 2;

/// The file is of a version that the reader doesn't know.
pub const VERSION: u32 = 3;

/// The file is of another kind.
pub const KIND: u32 = 4;

/// The bytes end within a field.
pub const TRUNCATED: u32 = 5;

/// A number doesn't fit.
pub const TOO_WIDE: u32 = 6;

/// A number has a shorter spelling.
pub const NOT_SHORTEST: u32 = 7;

/// A text is not UTF-8.
pub const NOT_TEXT: u32 = 8;

/// A number is no character.
pub const NOT_CHARACTER: u32 = 9;

/// A byte is no tag.
pub const UNKNOWN_TAG: u32 = 10;

/// A key doesn't come after the one before it.
pub const KEY_ORDER: u32 = 11;

/// Values are nested deeper than the limit.
pub const TOO_DEEP: u32 = 12;

/// The names have more than 4294967295 bytes.
pub const NAMES_TOO_LONG: u32 = 13;

/// The constants of the cases of a switch don't strictly ascend.
pub const CASE_ORDER: u32 = 14;

/// A switch has a case whose constant isn't there.
pub const NO_CONSTANT: u32 = 15;

/// A switch has more cases than the limit.
pub const TOO_MANY_CASES: u32 = 16;

/// Two cases of a switch are of the same value.
pub const SAME_CASE: u32 = 17;

/// A position has line 0.
pub const NO_LINE: u32 = 18;

/// Bytes follow the last field.
pub const TRAILING: u32 = 19;
