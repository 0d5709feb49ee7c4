//! Why a program is refused, by number.
//!
//! These and the numbers of [`crate::kinds`], [`crate::lists`] and [`crate::shapes`] are constants and no enums, since an enum of
//! Rattle has no layout that C can rely on. `grain.h` has the enums.

/// The index of a chunk if no chunk is refused.
pub const WHOLE_PROGRAM: u64 = 0xffff_ffff_ffff_ffff;

/// The host lacks capabilities: `first` are those, `second` all that the host has.
pub const MISSING_CAPS: u32 = 1;

/// No instruction stands at the address.
pub const UNDECODABLE: u32 = 2;

/// Code goes on behind its last instruction. This is never answered.
pub const TRAILING_BYTES: u32 = 3;

/// A chunk runs backwards or past the code: `at` is its entry, `first` its end, `second` how many bytes the code has.
pub const CHUNK_OUT_OF_RANGE: u32 = 4;

/// The target `first` lies outside the chunk.
pub const JUMP_OUT_OF_RANGE: u32 = 5;

/// The target `first` lies inside an instruction, or the chunk with the entry `at` begins or ends in one, at `first`.
pub const JUMP_INTO_AN_INSTRUCTION: u32 = 6;

/// Two paths meet with unlike counts or unlike bases of handlers, the one with `first` operands, the other with `second`.
pub const DEPTH_CONFLICT: u32 = 7;

/// The instruction needs `first` operands, and there are `second`.
pub const UNDERFLOW: u32 = 8;

/// A path runs past the end of its chunk, or the chunk is empty.
pub const FALLS_OFF_THE_END: u32 = 9;

/// The chunk needs `first` operands and declares `second`.
pub const STACK_EXCEEDS_DECLARED: u32 = 10;

/// No iterator is there.
pub const ITERATOR_UNDERFLOW: u32 = 11;

/// No handler is armed.
pub const HANDLER_UNDERFLOW: u32 = 12;

/// `first` operands stood when the last handler was armed, and the instruction would leave `second` of them; or the same of
/// iterators.
pub const SINKS_BELOW_HANDLER: u32 = 13;

/// The index `first` is out of bounds; `second` says what it names, by a number of [`crate::kinds`].
pub const BAD_INDEX: u32 = 14;

/// The host lacks capabilities that the program declares: `first` are those, `second` all that the host has. Only a file declares
/// some.
pub const DECLARED_CAPS: u32 = 15;
