//! Why there is no session.

use grain::{Caps, Refusal};
use grain_file::ReadError;
use rhai_values::Cause;
use std::alloc::{AllocError, AllocFailed};

/// Why a source text has no session.
#[derive(Drop)]
pub enum CompileStop {
    /// The text, or that of a module, has an error: a report with its line, its column and an excerpt. Or the table of modules
    /// has one.
    NoScript(String),
    /// Out of memory.
    OutOfMemory,
}

/// Why a program file has no session.
#[derive(Drop)]
pub enum LoadStop {
    /// The bytes are no program file within the limits.
    Read(ReadError),
    /// The program declares capabilities that the host lacks: these.
    Lacks(Caps),
    /// Its chunks span more bytes of code than the limit.
    Work,
    /// It is refused.
    Refused(Refusal),
    /// A constant is a value of another host.
    Constant,
    /// Out of memory.
    OutOfMemory,
}

impl From<AllocError> for CompileStop {
    fn from(_: AllocError) -> CompileStop {
        CompileStop::OutOfMemory
    }
}

impl<T: Drop> From<AllocFailed<T>> for CompileStop {
    fn from(_: AllocFailed<T>) -> CompileStop {
        CompileStop::OutOfMemory
    }
}

impl From<AllocError> for LoadStop {
    fn from(_: AllocError) -> LoadStop {
        LoadStop::OutOfMemory
    }
}

impl<T: Drop> From<AllocFailed<T>> for LoadStop {
    fn from(_: AllocFailed<T>) -> LoadStop {
        LoadStop::OutOfMemory
    }
}

impl From<Cause> for LoadStop {
    fn from(cause: Cause) -> LoadStop {
        match cause {
            Cause::OutOfMemory => LoadStop::OutOfMemory,
            _ => LoadStop::Constant,
        }
    }
}
