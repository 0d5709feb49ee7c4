//! What instructions and chunks are called.

use crate::cut::{is_cut, write_cut};
use crate::shown::push_shown;
use grain::{DisassembleError, Program};
use grain_base::Position;
use grain_code::Op;
use std::alloc::AllocError;

/// What instructions and chunks are called.
#[derive(Clone, Copy)]
pub enum Naming<'a> {
    /// By their indices, if nothing is known of what these lead to.
    Indices,
    /// By the names and values of this program.
    Program(&'a Program),
}

/// What the top level is called.
pub const MAIN: &str = "main";

/// What a chunk of a program is called whose name isn't known.
const NAMELESS: &str = "?";

/// What the chunk at a place of a program is called: the top level at 0, then the functions. It takes constant time.
pub fn name_of(program: &Program, place: usize) -> &str {
    let Some(index) = place.checked_sub(1) else {
        return MAIN;
    };
    match program.functions().get(index) {
        Some(function) => program.names().get(function.name).unwrap_or(NAMELESS),
        None => NAMELESS,
    }
}

/// Appends the text of an operation, or its debug text if an index finds nothing.
fn write_named(program: &Program, op: &Op, text: &mut String) -> Result<(), AllocError> {
    if is_cut(program, op) {
        return write_cut(program, op, text);
    }
    match op.disassemble(*text.allocator(), program) {
        Ok(named) => push_shown(&named, text),
        Err(DisassembleError::OutOfMemory) => Err(AllocError),
        Err(DisassembleError::Missing { .. }) => write!(text, "{op:?}  (an index finds nothing)"),
    }
}

impl<'a> Naming<'a> {
    /// Appends the text of an operation. Names, texts and values that are long are cut, so that it takes constant time.
    ///
    /// # Errors
    /// [`AllocError`] if memory was refused.
    pub fn write_op(self, op: &Op, text: &mut String) -> Result<(), AllocError> {
        match self {
            Naming::Indices => write!(text, "{op:?}"),
            Naming::Program(program) => write_named(program, op, text),
        }
    }

    /// What the chunk at a place is called, if chunks have names.
    pub fn chunk_name(self, place: usize) -> Option<&'a str> {
        match self {
            Naming::Indices => None,
            Naming::Program(program) => Some(name_of(program, place)),
        }
    }

    /// The position of the instruction at an address, if it is known.
    pub fn position(self, at: usize) -> Option<Position> {
        match self {
            Naming::Indices => None,
            Naming::Program(program) => {
                let position = program.position(at);
                (!position.is_none()).then_some(position)
            }
        }
    }
}
