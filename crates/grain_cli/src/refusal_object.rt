//! Why a file is refused, as members of a JSON object (docs/COMMAND.md).

use crate::loading::Obstacle;
use crate::places::{Spot, spot_of};
use grain::{Caps, Flags, Position, Program, Refusal, VerifyError};
use grain_file::ReadError;
use grain_listing::name_of;
use json::Writer;
use std::alloc::{AllocError, Global};

fn write_number(json: &mut Writer, name: &str, number: u64) -> Result<(), AllocError> {
    json.key(name)?;
    json.u64(number)
}

/// Writes a number, or null if there is none.
fn write_option(json: &mut Writer, name: &str, number: Option<u64>) -> Result<(), AllocError> {
    json.key(name)?;
    match number {
        Some(number) => json.u64(number),
        None => json.null(),
    }
}

fn write_words(json: &mut Writer, name: &str, words: &str) -> Result<(), AllocError> {
    json.key(name)?;
    json.string(words)
}

/// Writes a position with its line, and its column, which is null if there is none.
///
/// # Errors
/// [`AllocError`] if memory was refused.
pub fn write_site(json: &mut Writer, name: &str, line: u64, column: u64) -> Result<(), AllocError> {
    json.key(name)?;
    json.begin_object()?;
    write_number(json, "line", line)?;
    write_option(json, "column", (column > 0).then_some(column))?;
    json.end_object()
}

/// Writes a position, or null if there is none.
fn write_position(json: &mut Writer, position: Position) -> Result<(), AllocError> {
    match position.line() {
        Some(line) => {
            let column = position.position().unwrap_or(0);
            write_site(json, "position", line as u64, column as u64)
        }
        None => {
            json.key("position")?;
            json.null()
        }
    }
}

/// Writes capabilities by their names.
fn write_capabilities(json: &mut Writer, name: &str, caps: Caps) -> Result<(), AllocError> {
    json.key(name)?;
    json.begin_array()?;
    for (name, _) in caps.iter_names() {
        json.string(name)?;
    }
    if caps.bits() & 0x8000 != 0 {
        json.string("0x8000")?;
    }
    json.end_array()
}

/// The kind of a refusal, as verdicts have it.
fn kind_of(error: &VerifyError) -> &'static str {
    match error {
        VerifyError::MissingCaps { .. } => "missing-caps",
        VerifyError::Undecodable { .. } => "undecodable",
        VerifyError::TrailingBytes { .. } => "trailing-bytes",
        VerifyError::ChunkOutOfRange { .. } => "chunk-out-of-range",
        VerifyError::JumpOutOfRange { .. } => "jump-out-of-range",
        VerifyError::JumpIntoAnInstruction { .. } => "jump-into-an-instruction",
        VerifyError::DepthConflict { .. } => "depth-conflict",
        VerifyError::Underflow { .. } => "underflow",
        VerifyError::FallsOffTheEnd => "falls-off-the-end",
        VerifyError::StackExceedsDeclared { .. } => "stack-exceeds-declared",
        VerifyError::IteratorUnderflow { .. } => "iterator-underflow",
        VerifyError::HandlerUnderflow { .. } => "handler-underflow",
        VerifyError::SinksBelowHandler { .. } => "sinks-below-handler",
        VerifyError::BadIndex { .. } => "bad-index",
        VerifyError::OutOfMemory => "out-of-memory",
    }
}

/// A number of a refusal, with its name.
type Numbered = (&'static str, u64);

/// The numbers of a refusal besides its address, by the names that verdicts have for them.
fn numbers_of(error: &VerifyError) -> [Option<Numbered>; 3] {
    match *error {
        VerifyError::TrailingBytes { len, .. } => [Some(("len", len as u64)), None, None],
        VerifyError::ChunkOutOfRange { entry, end, len } => [
            Some(("entry", u64::from(entry))),
            Some(("end", u64::from(end))),
            Some(("len", len as u64)),
        ],
        VerifyError::JumpOutOfRange { target, .. }
        | VerifyError::JumpIntoAnInstruction { target, .. } => {
            [Some(("target", u64::from(target))), None, None]
        }
        VerifyError::DepthConflict {
            expected,
            found,
            ..
        } => [
            Some(("expected", expected as u64)),
            Some(("found", found as u64)),
            None,
        ],
        VerifyError::Underflow { need, have, .. }
        | VerifyError::SinksBelowHandler { need, have, .. } => [
            Some(("need", need as u64)),
            Some(("have", have as u64)),
            None,
        ],
        VerifyError::StackExceedsDeclared { needed, declared } => [
            Some(("needed", needed as u64)),
            Some(("declared", u64::from(declared))),
            None,
        ],
        VerifyError::BadIndex { index, .. } => [Some(("index", u64::from(index))), None, None],
        VerifyError::MissingCaps { .. }
        | VerifyError::Undecodable { .. }
        | VerifyError::FallsOffTheEnd
        | VerifyError::IteratorUnderflow { .. }
        | VerifyError::HandlerUnderflow { .. }
        | VerifyError::OutOfMemory => [None, None, None],
    }
}

/// Writes what a refusal says besides its address.
fn write_details(json: &mut Writer, error: &VerifyError) -> Result<(), AllocError> {
    for (name, number) in numbers_of(error).into_iter().flatten() {
        write_number(json, name, number)?;
    }
    match error {
        VerifyError::MissingCaps { missing, .. } => write_capabilities(json, "missing", *missing),
        VerifyError::BadIndex { what, .. } => write_words(json, "what", what),
        _ => Ok(()),
    }
}

/// Writes where a refusal is: its chunk, function, address and position, each null if there is none.
fn write_spot(json: &mut Writer, program: &Program, spot: Spot) -> Result<(), AllocError> {
    write_option(json, "chunk", spot.chunk.map(|chunk| chunk as u64))?;
    match spot.chunk {
        Some(chunk) => write_words(json, "function", name_of(program, chunk))?,
        None => {
            json.key("function")?;
            json.null()?;
        }
    }
    write_option(json, "address", spot.address.map(|at| at as u64))?;
    match spot.address {
        Some(at) => write_position(json, program.position(at))?,
        None => {
            json.key("position")?;
            json.null()?;
        }
    }
    write_option(json, "constant", spot.constant.map(|index| index as u64))
}

/// Writes why a program is refused.
fn write_refusal(
    json: &mut Writer,
    program: &Program,
    refusal: &Refusal,
) -> Result<(), AllocError> {
    write_words(json, "kind", kind_of(&refusal.error))?;
    write_spot(json, program, spot_of(program, refusal))?;
    write_details(json, &refusal.error)
}

/// Writes the object that says why a program isn't taken.
///
/// # Errors
/// [`AllocError`] if memory was refused.
pub fn write_obstacle(
    json: &mut Writer,
    program: &Program,
    obstacle: &Obstacle,
) -> Result<(), AllocError> {
    json.begin_object()?;
    match obstacle {
        Obstacle::Capabilities(missing) => {
            write_words(json, "kind", "capabilities")?;
            write_capabilities(json, "missing", *missing)?;
        }
        Obstacle::Work { spans, most } => {
            write_words(json, "kind", "work")?;
            write_number(json, "spans", *spans)?;
            write_number(json, "limit", *most)?;
        }
        Obstacle::Refused(refusal) => write_refusal(json, program, refusal)?,
    }
    json.end_object()
}

/// Writes the object that says why bytes are no program file.
///
/// # Errors
/// [`AllocError`] if memory was refused.
pub fn write_malformed(
    alloc: Global,
    json: &mut Writer,
    error: &ReadError,
) -> Result<(), AllocError> {
    json.begin_object()?;
    match error {
        ReadError::Malformed { at, part, fault } => {
            let fault = format!(in alloc; "{fault:?}")?;
            let part = format!(in alloc; "{part}")?;
            write_words(json, "kind", "malformed")?;
            write_words(json, "fault", &fault)?;
            write_words(json, "part", &part)?;
            write_number(json, "byte", *at as u64)?;
        }
        ReadError::TooLarge { .. } => write_words(json, "kind", "too-large")?,
        ReadError::DepthLimit { .. } => write_words(json, "kind", "depth-limit")?,
        ReadError::OutOfMemory => write_words(json, "kind", "out-of-memory")?,
    }
    json.end_object()
}
