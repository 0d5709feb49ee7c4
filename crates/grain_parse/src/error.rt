//! Why a text is refused.
ghost use Rattle.std.specs.Prelude.{◌≡◌};

use grain::VerifyError;
use grain_lexer::{LineProblem, LineStop};
use std::alloc::AllocError;
use thiserror::Error;

/// Why reading stopped, and where.
#[derive(Clone, Copy, Debug)]
pub(crate) struct Flaw {
    /// The index of the line.
    pub line: usize,
    /// How many bytes of the line are left at the flaw.
    pub left: usize,
    /// What is wrong.
    pub stop: LineStop,
}

/// A line that is refused.
#[derive(Debug, Drop, Error)]
#[error("line {line}, column {column}: {problem}")]
pub struct SyntaxError {
    /// Which line it is, from 1.
    pub line: usize,
    /// At which of its bytes something is wrong, from 1; one past the last if something is missing.
    pub column: usize,
    /// The line itself.
    pub text: String,
    /// What is wrong.
    pub problem: LineProblem,
}

/// Why lines that are all well make no program.
#[derive(Debug, Drop)]
pub(crate) enum Unfinished {
    /// The names have more than 4294967295 bytes.
    NamesTooLong,
    /// The allocator refused.
    OutOfMemory,
}

impl From<AllocError> for Unfinished {
    fn from(_e: AllocError) -> Unfinished {
        Unfinished::OutOfMemory
    }
}

/// Why a text makes no program.
#[derive(Debug, Drop, Error)]
pub enum ParseError {
    /// A line is refused.
    #[error("{0}")]
    Syntax(SyntaxError),
    /// The program isn't accepted, so that no number is found for `stack auto`.
    #[error("{0}")]
    Refused(VerifyError),
    /// The names have more than 4294967295 bytes.
    #[error("names too long")]
    NamesTooLong,
    /// The allocator refused.
    #[error("out of memory")]
    OutOfMemory,
}

impl From<AllocError> for ParseError {
    ghost use Rattle.std.specs.Prelude.{◌≡◌};
    ghost use Rattle.grain_parse.specs.declared.error.ParseError.{ParseError};

    ghost from_gives = { λ _ e. e ≡ ParseError.OutOfMemory };

    fn from(_e: AllocError) -> ParseError {
        ParseError::OutOfMemory
    }
}
