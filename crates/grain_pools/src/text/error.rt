//! Why a text can't be written.
ghost use Rattle.std.specs.Prelude.{◌≡◌};
ghost use Rattle.grain_pools.specs.declared.text.error.DisassembleError.TheVariants.{OutOfMemory};

use std::alloc::{AllocError, AllocFailed};
use std::fmt;

/// Why the text of an item was refused.
#[derive(Clone, Debug, PartialEq, Eq, Drop)]
pub enum DisassembleError {
    /// An index that the text needs finds nothing.
    Missing {
        /// What the index names: `name`, `constant`, `operator`, `op-assignment`, `chain`, `switch` or
        /// `custom syntax site`.
        what: &'static str,
        /// The index.
        index: u32,
    },
    /// An allocation failed.
    OutOfMemory,
}

impl From<AllocError> for DisassembleError {
    ghost from_gives = { λ _ e. e ≡ OutOfMemory };

    fn from(_e: AllocError) -> DisassembleError {
        DisassembleError::OutOfMemory
    }
}

impl<T: Drop> From<AllocFailed<T>> for DisassembleError {
    ghost from_gives = { λ _ e. e ≡ OutOfMemory };

    fn from(_e: AllocFailed<T>) -> DisassembleError {
        DisassembleError::OutOfMemory
    }
}

impl fmt::Display for DisassembleError {
    ghost use Rattle.std.specs.Prelude.{Some};
    ghost use Rattle.grain_pools.specs.LookedUp.{disassemble_error_text};

    ghost output = { λ error. Some (disassemble_error_text error) };

    fn fmt<W: fmt::Write>(&self, f: &mut fmt::Formatter<W>) -> fmt::Result {
        match self {
            DisassembleError::Missing { what, index } => {
                write!(f, "disassembly needs {what} {index}, which isn't there")
            }
            DisassembleError::OutOfMemory => write!(f, "out of memory"),
        }
    }
}

impl std::error::Error for DisassembleError {}
