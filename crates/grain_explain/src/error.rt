//! Why rows are no stack typing.

use grain_base::{Caps, Flags};
use std::fmt;

/// Why rows are no stack typing of a chunk within its declared stack.
///
/// `row` is the number of a row, from 0. The instruction of a row is the one at its address.
#[derive(Clone, Copy, Debug, PartialEq, Eq)]
pub enum TypingError {
    /// The code isn't whole instructions.
    Undecodable {
        /// The address of the first thing that is no instruction.
        at: usize,
    },
    /// The chunk runs backwards or past the code.
    ChunkOutOfRange,
    /// The chunk ends inside an instruction.
    EndsInside,
    /// A base names a list that isn't before it.
    Unlinked {
        /// The index of the base.
        base: usize,
    },
    /// A row names a list that isn't there.
    NoList {
        /// The row.
        row: usize,
    },
    /// A row isn't above the one before it.
    NotAscending {
        /// The row.
        row: usize,
    },
    /// A row lies outside the chunk.
    OutsideChunk {
        /// The row.
        row: usize,
    },
    /// No instruction begins at a row's address.
    NoStart {
        /// The row.
        row: usize,
    },
    /// The chunk's entry has no row, or one with operands, iterators or armed handlers.
    BadEntry,
    /// A row has more operands than the chunk declares.
    TooDeep {
        /// The row.
        row: usize,
    },
    /// The host lacks capabilities that a row's instruction asks.
    MissingCaps {
        /// The row.
        row: usize,
        /// Those that aren't there.
        missing: Caps,
    },
    /// A row lacks operands that its instruction needs.
    Underflow {
        /// The row.
        row: usize,
        /// How many operands the instruction needs.
        need: u32,
    },
    /// A row lacks the iterator that its instruction needs.
    IteratorUnderflow {
        /// The row.
        row: usize,
    },
    /// A row has no armed handler, and its instruction disarms one.
    HandlerUnderflow {
        /// The row.
        row: usize,
    },
    /// A row's instruction isn't quiet, and doesn't leave what was on the stacks when the last handler was armed.
    SinksBelowHandler {
        /// The row.
        row: usize,
        /// How many operands there were when it was armed, or if enough are left, how many iterators.
        need: u32,
        /// How many the instruction leaves as they were.
        have: u32,
    },
    /// An edge of a row's instruction leads to an address that has no row with the counts of the edge.
    Unmatched {
        /// The row.
        row: usize,
        /// The address; behind the chunk's last instruction, the chunk's end.
        target: usize,
    },
}

impl fmt::Display for TypingError {
    fn fmt<W: fmt::Write>(&self, f: &mut fmt::Formatter<W>) -> fmt::Result {
        match self {
            TypingError::Undecodable { at } => write!(f, "undecodable at={at}"),
            TypingError::ChunkOutOfRange => write!(f, "chunk-out-of-range"),
            TypingError::EndsInside => write!(f, "ends-inside"),
            TypingError::Unlinked { base } => write!(f, "unlinked base={base}"),
            TypingError::NoList { row } => write!(f, "no-list row={row}"),
            TypingError::NotAscending { row } => write!(f, "not-ascending row={row}"),
            TypingError::OutsideChunk { row } => write!(f, "outside-chunk row={row}"),
            TypingError::NoStart { row } => write!(f, "no-start row={row}"),
            TypingError::BadEntry => write!(f, "bad-entry"),
            TypingError::TooDeep { row } => write!(f, "too-deep row={row}"),
            TypingError::MissingCaps { row, missing } => {
                write!(f, "missing-caps row={row} missing={:04x}", missing.bits())
            }
            TypingError::Underflow { row, need } => write!(f, "underflow row={row} need={need}"),
            TypingError::IteratorUnderflow { row } => write!(f, "iterator-underflow row={row}"),
            TypingError::HandlerUnderflow { row } => write!(f, "handler-underflow row={row}"),
            TypingError::SinksBelowHandler { row, need, have } => {
                write!(f, "sinks-below-handler row={row} need={need} have={have}")
            }
            TypingError::Unmatched { row, target } => {
                write!(f, "unmatched row={row} target={target}")
            }
        }
    }
}

impl std::error::Error for TypingError {}
