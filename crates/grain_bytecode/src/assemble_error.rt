//! Why operations, or the targets of switches, can't be written.

ghost use Rattle.std.specs.Prelude.{◌≡◌};
ghost use Rattle.grain_bytecode.specs.declared.assemble_error.AssembleError.TheVariants.{OutOfMemory};

use std::alloc::{AllocError, AllocFailed};
use std::fmt;

/// Why assembling was refused.
#[derive(Debug, Clone, PartialEq, Eq, Drop)]
pub enum AssembleError {
    /// An index into a pool is above 65535.
    PoolTooLarge {
        /// The pool: `constants`, `names`, `operators`, `op-assignments`, `fragments`, `chains`, `switches` or
        /// `custom syntax sites`.
        what: &'static str,
        /// The index.
        entries: usize,
    },
    /// A jump target is above the number of operations.
    JumpOutOfRange {
        /// The index of the operation that jumps.
        at: usize,
        /// The target.
        target: u32,
    },
    /// A target of a switch is no index of an offset.
    SwitchTargetOutOfRange {
        /// The index of the switch.
        table: usize,
        /// The target.
        target: u32,
    },
    /// The code would be longer than 4294967295 bytes.
    ChunkTooLarge {
        /// The greatest `usize`.
        bytes: usize,
    },
    /// An allocation failed.
    OutOfMemory,
}

impl From<AllocError> for AssembleError {
    ghost from_gives = { λ _ e. e ≡ OutOfMemory };

    fn from(_e: AllocError) -> AssembleError {
        AssembleError::OutOfMemory
    }
}

impl<T: Drop> From<AllocFailed<T>> for AssembleError {
    ghost from_gives = { λ _ e. e ≡ OutOfMemory };

    fn from(_e: AllocFailed<T>) -> AssembleError {
        AssembleError::OutOfMemory
    }
}

impl fmt::Display for AssembleError {
    ghost use Rattle.std.specs.Prelude.{Some};
    ghost use Rattle.grain_bytecode.specs.AssembleErrors.{assemble_error_text};

    ghost output = { λ error. Some (assemble_error_text error) };

    fn fmt<W: fmt::Write>(&self, f: &mut fmt::Formatter<W>) -> fmt::Result {
        match self {
            AssembleError::PoolTooLarge { what, entries } => {
                write!(f, "index {entries} into the {what} is above 65535")
            }
            AssembleError::JumpOutOfRange { at, target } => {
                write!(
                    f,
                    "operation {at} jumps to index {target}, where no operation is"
                )
            }
            AssembleError::SwitchTargetOutOfRange { table, target } => {
                write!(
                    f,
                    "switch {table} leads to index {target}, where no offset is"
                )
            }
            AssembleError::ChunkTooLarge { .. } => {
                write!(f, "code is longer than 4294967295 bytes")
            }
            AssembleError::OutOfMemory => write!(f, "out of memory"),
        }
    }
}

impl std::error::Error for AssembleError {}
