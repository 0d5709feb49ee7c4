//! The pieces of the code: how many bytes it has, and its instructions.

use crate::model::{Layout, Piece, Section, put};
use grain::{Instruction, Op, disassemble};
use grain_file::Item;
use std::alloc::{AllocError, Global};
use std::io;

/// The code of a file.
#[derive(Clone, Copy)]
pub struct Code<'a> {
    /// The code.
    pub code: &'a [u8],
    /// The place of its first byte in the file.
    pub start: usize,
    /// The bytes of the file.
    pub bytes: &'a [u8],
}

/// The address after the instruction at an address.
fn end_of(code: &[u8], at: usize) -> usize {
    match Instruction::at(code, at) {
        Some(instruction) => at.saturating_add(instruction.width()),
        None => at,
    }
}

/// The piece of an instruction.
fn piece_of(alloc: Global, code: Code<'_>, at: usize, op: &Op) -> Result<Piece, AllocError> {
    Ok(Piece {
        start: code.start.saturating_add(at),
        end: code.start.saturating_add(end_of(code.code, at)),
        text: format!(in alloc; "{at}: {op:?}")?,
    })
}

/// Writes an instruction.
fn put_instruction<L: Layout>(
    alloc: Global,
    section: &Section,
    code: Code<'_>,
    at: usize,
    op: &Op,
    layout: &mut L,
) -> io::Result<()> {
    let piece = piece_of(alloc, code, at, op)?;
    put(layout, section, &piece, code.bytes)
}

/// Writes each instruction of the code. It returns the address after the last.
fn put_instructions<L: Layout>(
    alloc: Global,
    section: &Section,
    code: Code<'_>,
    layout: &mut L,
) -> io::Result<usize> {
    let mut last = 0usize;
    for (at, op) in disassemble(code.code) {
        last = end_of(code.code, at);
        put_instruction(alloc, section, code, at, &op, layout)?;
    }
    Ok(last)
}

/// Writes how many bytes the code has.
fn put_length<L: Layout>(
    alloc: Global,
    section: &Section,
    code: Code<'_>,
    item: &Item,
    layout: &mut L,
) -> io::Result<()> {
    let len = code.code.len();
    let piece = Piece {
        start: item.start,
        end: code.start,
        text: format!(in alloc; "{len} bytes")?,
    };
    put(layout, section, &piece, code.bytes)
}

/// Writes what follows the last instruction, if anything does.
fn put_rest<L: Layout>(
    alloc: Global,
    section: &Section,
    code: Code<'_>,
    last: usize,
    item: &Item,
    layout: &mut L,
) -> io::Result<()> {
    if last >= code.code.len() {
        return Ok(());
    }
    let piece = Piece {
        start: code.start.saturating_add(last),
        end: item.end,
        text: format!(in alloc; "{last}: no instruction")?,
    };
    put(layout, section, &piece, code.bytes)
}

/// Writes the pieces of the code of a file with these bytes: its length, its instructions, and what follows the last of these.
pub fn put_code<L: Layout>(
    alloc: Global,
    section: &Section,
    code: &[u8],
    item: &Item,
    bytes: &[u8],
    layout: &mut L,
) -> io::Result<()> {
    let start = item.end.saturating_sub(code.len());
    let code = Code { code, start, bytes };
    put_length(alloc, section, code, item, layout)?;
    let last = put_instructions(alloc, section, code, layout)?;
    put_rest(alloc, section, code, last, item, layout)
}
