//! What a call answers, by number: each number means one thing.

/// The number of the C interface. It rises with each change that can break a program (CHANGELOG.md).
pub const INTERFACE: u32 = 3;

/// The program is accepted, or the chunk passes.
pub const ACCEPTED: u32 = 0;

/// It is refused, and the refusal is written.
pub const REFUSED: u32 = 1;

/// A list of the caller's has too few places.
pub const SHORT: u32 = 2;

/// The allocator refused.
pub const OUT_OF_MEMORY: u32 = 3;

/// No pools have this flat form.
pub const NOT_FLAT: u32 = 4;

/// The chunks span more of the code than the limit allows.
pub const TOO_MUCH_WORK: u32 = 5;

/// The program has no chunk with this index.
pub const NO_CHUNK: u32 = 6;

/// Nothing is explained: the code isn't whole instructions whose indices are in bounds.
pub const BAD_CODE: u32 = 7;

/// The caller's function asked to stop. No function here answers this.
pub const STOPPED: u32 = 8;

/// The bytes are no file within the limits, and why is written.
pub const MALFORMED: u32 = 9;

/// A list of the file has 4294967296 entries or more, or a text or a blob as many bytes.
pub const TOO_LONG: u32 = 10;

/// A limit is above its greatest value.
pub const BAD_LIMIT: u32 = 11;

/// The positions of the file couldn't be given back to it.
pub const NOT_RESTORABLE: u32 = 12;
