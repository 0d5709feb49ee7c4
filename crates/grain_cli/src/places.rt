//! Where in a program an address is.

use grain::{Chunk, Program, Refusal, VerifyError};
use grain_listing::{Needing, lacking, name_of, push_name, push_position};
use std::alloc::{AllocError, Global};

/// What a chunk is called that isn't known.
const UNKNOWN: &str = "?";

fn holds(chunk: Chunk, at: usize) -> bool {
    chunk.entry() as usize <= at && at < chunk.end() as usize
}

/// The index of the first chunk that an address is in.
pub fn chunk_at(program: &Program, at: usize) -> Option<usize> {
    if holds(program.main(), at) {
        return Some(0);
    }
    let index = program
        .functions()
        .iter()
        .position(|function| holds(function.chunk, at))?;
    index.checked_add(1)
}

/// Where a refusal is.
#[derive(Clone, Copy)]
pub struct Spot {
    /// The index of the chunk.
    pub chunk: Option<usize>,
    /// The address.
    pub address: Option<usize>,
    /// The constant that needs capabilities.
    pub constant: Option<usize>,
    /// Whether the functions need some.
    pub is_of_functions: bool,
}

/// The address that a refusal names.
fn address_of(error: &VerifyError) -> Option<usize> {
    match *error {
        VerifyError::MissingCaps { at, .. }
        | VerifyError::Undecodable { at }
        | VerifyError::JumpOutOfRange { at, .. }
        | VerifyError::JumpIntoAnInstruction { at, .. }
        | VerifyError::DepthConflict { at, .. }
        | VerifyError::Underflow { at, .. }
        | VerifyError::IteratorUnderflow { at }
        | VerifyError::HandlerUnderflow { at }
        | VerifyError::SinksBelowHandler { at, .. }
        | VerifyError::BadIndex { at, .. } => Some(at),
        VerifyError::TrailingBytes { .. }
        | VerifyError::ChunkOutOfRange { .. }
        | VerifyError::FallsOffTheEnd
        | VerifyError::StackExceedsDeclared { .. }
        | VerifyError::OutOfMemory => None,
    }
}

/// Where capabilities are missing before any chunk.
fn spot_of_needing(needing: Option<Needing>) -> Spot {
    Spot {
        chunk: None,
        address: None,
        constant: match needing {
            Some(Needing::Constant(index)) => Some(index),
            _ => None,
        },
        is_of_functions: needing == Some(Needing::Functions),
    }
}

/// Where a refusal of a program is.
pub fn spot_of(program: &Program, refusal: &Refusal) -> Spot {
    if let (None, VerifyError::MissingCaps { .. }) = (refusal.chunk, &refusal.error) {
        return spot_of_needing(lacking(program));
    }
    let address = address_of(&refusal.error);
    let chunk = match (refusal.chunk, address) {
        (Some(chunk), _) => Some(chunk),
        (None, Some(at)) => chunk_at(program, at),
        (None, None) => None,
    };
    Spot {
        chunk,
        address,
        constant: None,
        is_of_functions: false,
    }
}

/// Appends the name of the chunk with this index.
fn push_chunk(
    program: &Program,
    chunk: Option<usize>,
    text: &mut String,
) -> Result<(), AllocError> {
    match chunk {
        Some(chunk) => push_name(name_of(program, chunk), text),
        None => text.push_str(UNKNOWN),
    }
}

/// Appends an address, with its function, and its position if that is known.
fn push_address(
    program: &Program,
    chunk: Option<usize>,
    at: usize,
    text: &mut String,
) -> Result<(), AllocError> {
    push_chunk(program, chunk, text)?;
    let position = program.position(at);
    if !position.is_none() {
        text.push_str(" at ")?;
        push_position(position, text)?;
    }
    write!(text, ", address {at}")
}

/// Appends where a refusal is, in parentheses, if it is somewhere.
///
/// # Errors
/// [`AllocError`] if memory was refused.
pub fn push_spot(program: &Program, spot: Spot, text: &mut String) -> Result<(), AllocError> {
    match spot {
        Spot {
            constant: Some(index),
            ..
        } => write!(text, " (constant {index})"),
        Spot {
            is_of_functions: true,
            ..
        } => text.push_str(" (functions)"),
        Spot {
            address: Some(at),
            chunk,
            ..
        } => {
            text.push_str(" (")?;
            push_address(program, chunk, at, text)?;
            text.push(')')
        }
        Spot {
            chunk: Some(chunk),
            ..
        } => {
            text.push_str(" (")?;
            push_chunk(program, Some(chunk), text)?;
            text.push(')')
        }
        _ => Ok(()),
    }
}

/// An address as text: the function and the position, if these are known.
pub fn write_place(alloc: Global, program: &Program, at: usize) -> Result<String, AllocError> {
    let mut text = String::new(alloc);
    push_chunk(program, chunk_at(program, at), &mut text)?;
    let position = program.position(at);
    if position.is_none() {
        write!(text, " at address {at}")?;
    } else {
        text.push_str(" at ")?;
        push_position(position, &mut text)?;
    }
    Ok(text)
}
