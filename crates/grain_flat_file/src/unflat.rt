//! Why a program has no flat form.

use std::alloc::{AllocError, AllocFailed};

/// Why a program has no flat form.
#[derive(Clone, Copy, Debug, PartialEq, Eq)]
pub enum Unflat {
    /// An allocation failed.
    OutOfMemory,
    /// A list has 4294967296 entries or more, or a text or a blob as many bytes.
    TooLong,
}

impl From<AllocError> for Unflat {
    ghost use Rattle.std.specs.Prelude.{◌≡◌};
    ghost use Rattle.grain_flat_file.specs.declared.unflat.Unflat.{Unflat};

    ghost from_gives = { λ _ e. e ≡ Unflat.OutOfMemory };

    fn from(_: AllocError) -> Unflat {
        Unflat::OutOfMemory
    }
}

impl<T: Drop> From<AllocFailed<T>> for Unflat {
    ghost use Rattle.std.specs.Prelude.{◌≡◌};
    ghost use Rattle.grain_flat_file.specs.declared.unflat.Unflat.{Unflat};

    ghost from_gives = { λ _ e. e ≡ Unflat.OutOfMemory };

    fn from(_: AllocFailed<T>) -> Unflat {
        Unflat::OutOfMemory
    }
}
