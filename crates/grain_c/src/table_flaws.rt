//! What is wrong with address tables and streams, by number.

/// Nothing is wrong.
pub const SOUND: u32 = 0;

/// The bytes end if a number is due or isn't finished.
pub const TRUNCATED: u32 = 1;

/// A number or an address is above 4294967295.
pub const OVERFLOW: u32 = 2;

/// Two entries in a row have one address.
pub const OUT_OF_ORDER: u32 = 3;

/// Bytes follow the last entry or slot.
pub const TRAILING_BYTES: u32 = 4;
