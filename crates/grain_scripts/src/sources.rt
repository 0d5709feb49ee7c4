//! Source texts, and what is wrong with them.

use grain_cli::excerpt::push_report;
use grain_cli::failure::Failure;
use grain_cli::files::shown;
use rhai_compile::{CompileError, Problem, flaws};
use std::alloc::{AllocError, Global};

/// How long reports of errors get before no other is added.
const LONGEST_REPORTS: usize = 65_536;

/// The text of a script.
///
/// # Errors
/// The bytes are no text.
pub fn text_of(alloc: Global, path: &str, bytes: Vec<u8>) -> Result<String, Failure> {
    match String::from_utf8(bytes) {
        Ok(script) => Ok(script),
        Err(_) => Err(Failure::of(alloc, shown(path), "the text is not UTF-8")),
    }
}

/// Why a script can't be compiled, of which this is the first error.
pub fn refused(alloc: Global, path: &str, source: &str, error: CompileError) -> Failure {
    if error.problem == Problem::OutOfMemory {
        return Failure::OutOfMemory;
    }
    match with_all_errors(alloc, path, source, error) {
        Ok(failure) => failure,
        Err(AllocError) => Failure::OutOfMemory,
    }
}

/// The errors of its syntax, or else the one that the compiler found: each with its line and a caret, as far as there is room.
fn with_all_errors(
    alloc: Global,
    path: &str,
    source: &str,
    error: CompileError,
) -> Result<Failure, AllocError> {
    let mut errors = flaws(alloc, source)?;
    if errors.is_empty() {
        errors.push(error)?;
    }
    let mut text = String::new(alloc);
    for error in &errors {
        if text.len() < LONGEST_REPORTS {
            push_report(shown(path), source, error, &mut text)?;
        }
    }
    Ok(Failure::Script {
        report: text,
        errors,
    })
}
