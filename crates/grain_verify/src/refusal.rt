//! Why a program is refused, and for which of its chunks.
//!
//! `VerifyError` has the fields and the text of the original, which names no chunk. So the index of the chunk is kept next to it.
ghost use Rattle.std.specs.Prelude.{◌≡◌, ◌≢◌, None, Some};
ghost use Rattle.grain_rules.specs.declared.error.VerifyError.{VerifyError};

use grain_rules::VerifyError;
use std::alloc::AllocError;

/// Why a program is refused, and for which of its chunks.
#[derive(Clone, Copy, Debug, PartialEq, Eq)]
pub struct Refusal {
    /// The index of the chunk that is refused; each chunk before it passes. `None` if a test before the chunks fails, or an
    /// allocation failed.
    pub chunk: Option<usize>,
    /// What is wrong.
    pub error: VerifyError,
}

impl Refusal {
    /// A refusal for no chunk.
    pub(crate) fn of_whole(error: VerifyError) -> Refusal
        ensures chunk { result.chunk ≡ None }
        ensures error { result.error ≡ error }
    {
        Refusal { chunk: None, error }
    }

    /// The refusal of the chunk with this index; of no chunk if an allocation failed.
    pub(crate) fn of_chunk(index: usize, error: VerifyError) -> Refusal
        ensures error { result.error ≡ error }
        ensures chunk { error ≢ VerifyError.OutOfMemory → result.chunk ≡ Some index }
        ensures memory { error ≡ VerifyError.OutOfMemory → result.chunk ≡ None }
    {
        let chunk = match error {
            VerifyError::OutOfMemory => None,
            _ => Some(index),
        };
        Refusal { chunk, error }
    }
}

impl From<AllocError> for Refusal {
    ghost use Rattle.std.specs.Prelude.{◌≡◌, None};
    ghost use Rattle.grain_rules.specs.declared.error.VerifyError.{VerifyError};

    ghost from_gives = { λ _ r. r ≡ record { chunk = None; error = VerifyError.OutOfMemory } };

    fn from(_: AllocError) -> Refusal {
        Refusal::of_whole(VerifyError::OutOfMemory)
    }
}
