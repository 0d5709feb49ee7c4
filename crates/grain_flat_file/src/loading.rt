//! Reading a program file into its flat form.
ghost use Rattle.std.specs.Prelude.{◌≡◌, ◌⊎◌, IfErr, IfOk};
ghost use Rattle.grain.specs.Program.{Program};
ghost use Rattle.grain_file.specs.Loading.{IsFileOf};
ghost use Rattle.grain_file.specs.declared.file.ReadError.{ReadError};
ghost use Rattle.grain_flat_file.specs.Loading.{IsFlatReadCause};

use crate::contents::FlatFile;
use crate::unflat::Unflat;
use grain_file::{Limits, ReadError, read};
use std::alloc::{AllocError, Global};

/// Why a file isn't read.
#[derive(Clone, Copy, Debug, PartialEq, Eq)]
pub enum FileStop {
    /// The bytes are no file within the limits, or an allocation failed.
    Read(ReadError),
    /// A list of the program has more entries than a row can count.
    TooLong,
}

impl From<AllocError> for FileStop {
    ghost use Rattle.std.specs.Prelude.{◌≡◌};
    ghost use Rattle.grain_file.specs.declared.file.ReadError.{ReadError};
    ghost use Rattle.grain_flat_file.specs.declared.loading.FileStop.{FileStop};

    ghost from_gives = { λ _ e. e ≡ FileStop.Read ReadError.OutOfMemory };

    fn from(_: AllocError) -> FileStop {
        FileStop::Read(ReadError::OutOfMemory)
    }
}

/// The flat form of the program that the bytes are a file of. It costs one [`read`] and one [`FlatFile::new`].
///
/// # Errors
/// As these.
pub fn read_flat(alloc: Global, bytes: &[u8], limits: &Limits) -> Result<FlatFile, FileStop>
    // What is read is what the bytes are a file of.
    ensures file { IfOk result (IsFileOf limits.now bytes.now) }
    // Of whatever the bytes are a file within the limits, that is read, memory and rows apart.
    ensures only { (p : Program) → IsFileOf limits.now bytes.now p → IfErr result (λ e.
        (e ≡ FileStop.Read ReadError.OutOfMemory) ⊎ (e ≡ FileStop.TooLong)) }
    // Which fault it is, and where.
    ensures exact { IfErr result (IsFlatReadCause limits.now bytes.now) }
{
    let program = match read(alloc, bytes, limits) {
        Ok(program) => program,
        Err(error) => return Err(FileStop::Read(error)),
    };
    match FlatFile::new(alloc, program) {
        Ok(file) => Ok(file),
        Err(Unflat::OutOfMemory) => Err(FileStop::Read(ReadError::OutOfMemory)),
        Err(Unflat::TooLong) => Err(FileStop::TooLong),
    }
}
