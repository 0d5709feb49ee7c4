//! What explaining returns.
ghost use Rattle.std.specs.Prelude.{◌≡◌};
ghost use Rattle.grain_explain.specs.declared.refusal.ExplainError.TheVariants.{OutOfMemory};

use crate::row::{LinkedBase, Row};
use grain_rules::VerifyError;
use std::alloc::{AllocError, AllocFailed};
use std::fmt;

/// Why a chunk is refused, and a path to its flaw.
#[derive(Debug, PartialEq, Eq, Drop)]
pub struct Refusal {
    /// The flaw.
    pub error: VerifyError,
    /// A path to the flaw, the last state first and the chunk's entry last. The first row shows the flaw. It is empty if the
    /// chunk's own frame is refused, to which nothing leads.
    pub way: Vec<Row>,
    /// For a `DepthConflict` another path to the same address, with other counts. Otherwise it is empty.
    pub other: Vec<Row>,
}

/// The states at instructions of a chunk, and why the chunk is refused, if it is.
#[derive(Debug, PartialEq, Eq, Drop)]
pub struct ExplainedChunk {
    /// The rows, in ascending order of addresses, each of which is reached. If the chunk isn't refused they are a stack typing
    /// of it, and exactly what is reached; otherwise they are what the walk visited, among it all of the refusal's path.
    pub rows: Vec<Row>,
    /// For each row the address of a predecessor, from which an edge leads to the row; `None` at the entry and nowhere else.
    pub origins: Vec<Option<u32>>,
    /// The bases of armed handlers, whose lists the rows name.
    pub bases: Vec<LinkedBase>,
    /// Why the chunk is refused.
    pub refusal: Option<Refusal>,
}

/// Why nothing is explained.
#[derive(Clone, Copy, Debug, PartialEq, Eq)]
pub enum ExplainError {
    /// The code isn't whole instructions with their indices in bounds.
    BadCode,
    /// An allocation failed.
    OutOfMemory,
}

impl fmt::Display for ExplainError {
    fn fmt<W: fmt::Write>(&self, f: &mut fmt::Formatter<W>) -> fmt::Result {
        f.write_str(match *self {
            ExplainError::BadCode => "bad code",
            ExplainError::OutOfMemory => "out of memory",
        })
    }
}

impl std::error::Error for ExplainError {}

impl From<AllocError> for ExplainError {
    ghost from_gives = { λ _ e. e ≡ OutOfMemory };

    fn from(_: AllocError) -> ExplainError {
        ExplainError::OutOfMemory
    }
}

impl<T: Drop> From<AllocFailed<T>> for ExplainError {
    ghost from_gives = { λ _ e. e ≡ OutOfMemory };

    fn from(_: AllocFailed<T>) -> ExplainError {
        ExplainError::OutOfMemory
    }
}
