//! Why a command ends without its result.

use grain_listing::push_shown;
use rhai_errors::CompileError;
use std::alloc::{AllocError, Global};
use std::{fmt, io};
use thiserror::Error;

/// Why a command ends without its result. File names and messages are as they are: [`Failure::said`] escapes them.
#[derive(Debug, Drop, Error)]
pub enum Failure {
    /// Something is wrong with a file.
    #[error("{what}")]
    File {
        /// Which file it is.
        file: String,
        /// What is wrong, and where.
        what: String,
    },
    /// A file could not be read.
    #[error("{what}")]
    Unreadable {
        /// Which file it is.
        file: String,
        /// Why.
        what: String,
    },
    /// Something is wrong with a file, of which several lines say what.
    #[error("{lines}")]
    Lines {
        /// Which file it is.
        file: String,
        /// What is wrong, in lines in which all is escaped.
        lines: String,
    },
    /// A script can't be compiled.
    #[error("{report}")]
    Script {
        /// The positions, sentences and lines, in which everything is escaped.
        report: String,
        /// The same without words.
        errors: Vec<CompileError>,
    },
    /// An argument is wrong.
    #[error("{what}")]
    Argument {
        /// Which one it is.
        argument: String,
        /// What is wrong.
        what: String,
    },
    /// An argument isn't UTF-8.
    #[error("an argument is not UTF-8")]
    NotText,
    /// Standard output could not be written.
    #[error("standard output: {0}")]
    Output(io::Error),
    /// Binary output would go to a terminal.
    #[error("standard output: a terminal shows no binary file (use -o FILE)")]
    Terminal,
    /// An allocation failed.
    #[error("out of memory")]
    OutOfMemory,
}

impl From<AllocError> for Failure {
    fn from(_e: AllocError) -> Failure {
        Failure::OutOfMemory
    }
}

impl Failure {
    /// Why something is wrong with a file.
    pub fn of<T: fmt::Display + Drop>(alloc: Global, file: &str, what: T) -> Failure {
        match texts(alloc, file, what) {
            Ok((file, what)) => Failure::File { file, what },
            Err(AllocError) => Failure::OutOfMemory,
        }
    }

    /// Why something is wrong with a file, in lines in which all is escaped.
    pub fn of_lines(alloc: Global, file: &str, lines: String) -> Failure {
        match String::from_str(alloc, file) {
            Ok(file) => Failure::Lines { file, lines },
            Err(_) => Failure::OutOfMemory,
        }
    }

    /// Why an argument is wrong.
    pub fn of_argument(alloc: Global, argument: &str, what: &str) -> Failure {
        match texts(alloc, argument, what) {
            Ok((argument, what)) => Failure::Argument { argument, what },
            Err(AllocError) => Failure::OutOfMemory,
        }
    }

    /// Why something could not be written.
    pub fn of_output(error: io::Error) -> Failure {
        match error.kind() {
            io::ErrorKind::OutOfMemory => Failure::OutOfMemory,
            _ => Failure::Output(error),
        }
    }

    /// Why a file could not be read.
    pub fn of_input(alloc: Global, file: &str, error: io::Error) -> Failure {
        if error.kind() == io::ErrorKind::OutOfMemory {
            return Failure::OutOfMemory;
        }
        match texts(alloc, file, error) {
            Ok((file, what)) => Failure::Unreadable { file, what },
            Err(AllocError) => Failure::OutOfMemory,
        }
    }

    /// Whether the reader of standard output has left, as `head` does once it has enough: no message is due then.
    pub fn is_left_alone(&self) -> bool {
        match self {
            Failure::Output(error) => error.kind() == io::ErrorKind::BrokenPipe,
            _ => false,
        }
    }

    /// Whether the arguments are wrong.
    pub fn is_of_arguments(&self) -> bool {
        matches!(self, Failure::Argument { .. } | Failure::NotText)
    }

    /// The message: lines, of which each has its end. Control characters of files and of their names are escaped.
    ///
    /// # Errors
    /// [`AllocError`] if memory was refused.
    pub fn said(&self, alloc: Global) -> Result<String, AllocError> {
        let mut text = String::new(alloc);
        match self {
            Failure::File { file: of, what }
            | Failure::Unreadable { file: of, what }
            | Failure::Argument { argument: of, what } => {
                push_named(of, &mut text)?;
                push_shown(what, &mut text)?;
            }
            Failure::Lines { file, lines } => {
                push_named(file, &mut text)?;
                text.push_str(lines)?;
            }
            Failure::Script { report, .. } => {
                text.push_str(report)?;
                return Ok(text);
            }
            failure => write!(text, "error: {failure}")?,
        }
        text.push('\n')?;
        Ok(text)
    }

    /// Says it on standard error.
    pub fn say(&self, rt: &HostRuntime) {
        // If standard error can't be written either, the status alone says it.
        let _said = match self.said(rt.alloc()) {
            Ok(text) => eprint!(rt; "{text}"),
            Err(AllocError) => eprintln!(rt; "error: out of memory"),
        };
    }
}

/// Appends which file or argument is wrong.
fn push_named(name: &str, text: &mut String) -> Result<(), AllocError> {
    text.push_str("error: ")?;
    push_shown(name, text)?;
    text.push_str(": ")
}

fn texts<T: fmt::Display + Drop>(
    alloc: Global,
    file: &str,
    what: T,
) -> Result<(String, String), AllocError> {
    let file = String::from_str(alloc, file)?;
    let what = format!(in alloc; "{what}")?;
    Ok((file, what))
}
