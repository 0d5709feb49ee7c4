//! Why bytes are refused, and why a program is not written.
ghost use Rattle.std.specs.Prelude.{◌≡◌};
ghost use Rattle.grain_format.specs.declared.error.Stop.TheVariants.{OutOfMemory};

use std::alloc::{AllocError, AllocFailed};
use std::{error, fmt};
use thiserror::Error;

/// What is wrong with the bytes, at the first place where something is.
#[derive(Clone, Copy, Debug, PartialEq, Eq)]
pub enum FieldFault {
    /// The bytes don't begin as a file does.
    Magic,
    /// The file is of a version that this reader doesn't know.
    Version,
    /// The file is of another kind.
    Kind,
    /// The bytes end within a field.
    Truncated,
    /// A number doesn't fit.
    TooWide,
    /// A number has a shorter spelling.
    NotShortest,
    /// A text is not UTF-8.
    NotText,
    /// A number is no Unicode scalar value.
    NotCharacter,
    /// A byte is no tag.
    UnknownTag,
    /// A key doesn't come after the one before it.
    KeyOrder,
    /// Values are nested deeper than the limit.
    TooDeep,
    /// The names have more than 4294967295 bytes.
    NamesTooLong,
    /// The constants of the cases of a switch don't strictly ascend.
    CaseOrder,
    /// A switch has a case whose constant isn't there.
    NoConstant,
    /// A switch has more cases than the limit.
    TooManyCases,
    /// Two cases of a switch are of the same value.
    SameCase,
    /// A position has line 0.
    NoLine,
    /// Bytes follow the last field.
    Trailing,
}

impl FieldFault {
    /// What is wrong, in a few words.
    fn sentence(self) -> &'static str {
        match self {
            FieldFault::Magic => "not a Grain file",
            FieldFault::Version => "unknown version",
            FieldFault::Kind => "a file of another kind",
            FieldFault::Truncated => "the file ends within a field",
            FieldFault::TooWide => "number too large",
            FieldFault::NotShortest => "number with a shorter spelling",
            FieldFault::NotText => "text is not UTF-8",
            FieldFault::NotCharacter => "not a character",
            FieldFault::UnknownTag => "unknown tag",
            FieldFault::KeyOrder => "keys out of order",
            FieldFault::TooDeep => "values nested too deep",
            FieldFault::NamesTooLong => "names too long",
            FieldFault::CaseOrder => "cases out of order",
            FieldFault::NoConstant => "case without its constant",
            FieldFault::TooManyCases => "too many cases",
            FieldFault::SameCase => "cases of the same value",
            FieldFault::NoLine => "position without a line",
            FieldFault::Trailing => "bytes after the end",
        }
    }
}

impl fmt::Display for FieldFault {
    fn fmt<W: fmt::Write>(&self, f: &mut fmt::Formatter<W>) -> fmt::Result {
        f.write_str(self.sentence())
    }
}

impl error::Error for FieldFault {}

/// Why reading stopped.
#[derive(Clone, Copy, Debug, PartialEq, Eq)]
pub enum Stop {
    /// An allocation failed.
    OutOfMemory,
    /// The bytes at the cursor are at fault.
    FieldFault(FieldFault),
}

impl From<AllocError> for Stop {
    ghost from_gives = { λ _ e. e ≡ OutOfMemory };

    fn from(_e: AllocError) -> Stop {
        Stop::OutOfMemory
    }
}

impl<T: Drop> From<AllocFailed<T>> for Stop {
    ghost from_gives = { λ _ e. e ≡ OutOfMemory };

    fn from(_e: AllocFailed<T>) -> Stop {
        Stop::OutOfMemory
    }
}

/// What of a program no file keeps.
#[derive(Clone, Copy, Debug, PartialEq, Eq, Error)]
pub enum Unkept {
    /// Fragments of syntax that weren't compiled.
    #[error("fragments of syntax")]
    Residuals,
    /// A case of a switch whose key isn't the constant that it names, shared marks apart.
    #[error("a case whose key isn't its constant")]
    CaseKey,
    /// A constant that holds a value of the host.
    #[error("a value of the host")]
    HostValue,
}

/// Why a program isn't written.
#[derive(Clone, Copy, Debug, PartialEq, Eq, Error)]
pub enum WriteError {
    /// It has something that no file keeps.
    #[error("no file keeps {0}")]
    Unkept(Unkept),
    /// An allocation failed.
    #[error("out of memory")]
    OutOfMemory,
}

impl From<AllocError> for WriteError {
    ghost use Rattle.std.specs.Prelude.{◌≡◌};
    ghost use Rattle.grain_format.specs.declared.error.WriteError.{WriteError};

    ghost from_gives = { λ _ e. e ≡ WriteError.OutOfMemory };

    fn from(_e: AllocError) -> WriteError {
        WriteError::OutOfMemory
    }
}

impl<T: Drop> From<AllocFailed<T>> for WriteError {
    ghost use Rattle.std.specs.Prelude.{◌≡◌};
    ghost use Rattle.grain_format.specs.declared.error.WriteError.{WriteError};

    ghost from_gives = { λ _ e. e ≡ WriteError.OutOfMemory };

    fn from(_e: AllocFailed<T>) -> WriteError {
        WriteError::OutOfMemory
    }
}
