//! Why no program is made.

use grain::{AssembleError, BuildError, StringsError, VerifyError};
use std::alloc::{AllocError, AllocFailed};
use thiserror::Error;

/// Why no program is made.
#[derive(Debug, Drop, Error)]
pub enum SmithError {
    /// What was written is refused, and so is an error of this crate. No seed is known that leads here.
    #[error("what was written is refused: {0}")]
    Refused(BuildError),
    /// There are as many functions as chunks, and so no chunk for the top level: an error of this crate too.
    #[error("missing `main`")]
    Uneven,
    /// An allocation failed.
    #[error("out of memory")]
    OutOfMemory,
}

impl From<AllocError> for SmithError {
    fn from(_: AllocError) -> SmithError {
        SmithError::OutOfMemory
    }
}

impl<T: Drop> From<AllocFailed<T>> for SmithError {
    fn from(_: AllocFailed<T>) -> SmithError {
        SmithError::OutOfMemory
    }
}

impl From<StringsError> for SmithError {
    fn from(_: StringsError) -> SmithError {
        // The names are few and short.
        SmithError::OutOfMemory
    }
}

impl From<BuildError> for SmithError {
    fn from(refusal: BuildError) -> SmithError {
        match refusal {
            BuildError::OutOfMemory => SmithError::OutOfMemory,
            refusal => SmithError::Refused(refusal),
        }
    }
}

impl From<AssembleError> for SmithError {
    fn from(refusal: AssembleError) -> SmithError {
        SmithError::from(BuildError::from(refusal))
    }
}

impl From<VerifyError> for SmithError {
    fn from(refusal: VerifyError) -> SmithError {
        SmithError::from(BuildError::from(refusal))
    }
}
