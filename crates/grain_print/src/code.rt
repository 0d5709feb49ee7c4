//! Instructions with their labels and positions, in parts of the code.

use crate::chains::write_position;
use crate::forms::form_of;
use crate::marks::{Marks, write_address};
use crate::quote::{cut, write_front};
use crate::values::write_value;
use grain::{Positions, Program, decode};
use grain_base::{Dynamic, Position};
use grain_code::{Field, Op, Pool};
use std::alloc::{AllocError, Global};
use std::ops::Range;

/// The text of a value as a comment shows it.
fn shown_value(alloc: Global, value: &Dynamic) -> Result<String, AllocError> {
    let mut text = String::new(alloc);
    write_value(alloc, &mut text, value)?;
    cut(alloc, &text)
}

/// The texts of constants as comments show them, each of 64 bytes at most. It takes time by the size of the constants, once for however
/// many instructions load them.
pub fn shown_values(alloc: Global, consts: &[Dynamic]) -> Result<Vec<String>, AllocError> {
    let mut values = Vec::with_capacity(alloc, consts.len())?;
    for value in consts {
        values.push(shown_value(alloc, value)?)?;
    }
    Ok(values)
}

/// Appends the beginning of the name at an index, or of the text of a constant, as a comment.
fn write_meaning(
    out: &mut String,
    program: &Program,
    values: &[String],
    pool: Pool,
    index: u32,
) -> Result<(), AllocError> {
    match pool {
        Pool::Names => match program.names().get(index) {
            Some(name) => {
                out.push_str(" ; ")?;
                write_front(out, name)
            }
            None => Ok(()),
        },
        Pool::Constants => match values.get(index as usize) {
            Some(value) => {
                out.push_str(" ; ")?;
                out.push_str(value)
            }
            None => Ok(()),
        },
        Pool::Operators
        | Pool::OpAssignments
        | Pool::Fragments
        | Pool::Chains
        | Pool::Switches
        | Pool::SyntaxSites => Ok(()),
    }
}

fn write_field(out: &mut String, marks: &Marks, field: Field) -> Result<(), AllocError> {
    match field {
        Field::Index(_, index) => write!(out, " #{index}"),
        Field::Slot(slot) => write!(out, " {slot}"),
        Field::Count(count) => write!(out, " {count}"),
        Field::Target(target) => {
            out.push_str(" ")?;
            write_address(out, marks, target)
        }
    }
}

/// Appends a label if a line at the address has one.
fn write_label(out: &mut String, marks: &Marks, at: usize) -> Result<(), AllocError> {
    if marks.has_label(at) {
        write!(out, "L{at}:\n")?;
    }
    Ok(())
}

fn write_instruction(
    out: &mut String,
    program: &Program,
    marks: &Marks,
    values: &[String],
    at: usize,
    op: &Op,
) -> Result<(), AllocError> {
    let tag = program.code().get(at).copied().unwrap_or_default();
    let mnemonic = match form_of(tag) {
        Some(form) => form.mnemonic,
        None => "",
    };
    write!(out, "  {mnemonic}")?;
    let fields = op.fields();
    for field in fields.as_slice() {
        write_field(out, marks, *field)?;
    }
    write_position(out, program.position(at))?;
    for field in fields.as_slice() {
        if let Field::Index(pool, index) = field {
            write_meaning(out, program, values, *pool, *index)?;
        }
    }
    out.push_str("\n")
}

/// Appends a byte of the code that begins no instruction.
fn write_byte(out: &mut String, program: &Program, at: usize) -> Result<(), AllocError> {
    let byte = program.code().get(at).copied().unwrap_or_default();
    write!(out, "  byte 0x{byte:02x}")?;
    write_position(out, program.position(at))?;
    out.push_str("\n")
}

/// Appends the instruction at an address, or the byte if it is past the last instruction.
fn write_line(
    out: &mut String,
    program: &Program,
    marks: &Marks,
    values: &[String],
    at: usize,
) -> Result<(), AllocError> {
    write_label(out, marks, at)?;
    if at >= marks.whole {
        return write_byte(out, program, at);
    }
    match decode(program.code(), at) {
        Some(op) => write_instruction(out, program, marks, values, at, &op),
        None => Ok(()),
    }
}

/// Appends the lines that begin in a part of the code: the instructions, and then each byte that begins none. The first part has the
/// head of the section, and the last one the label at the end.
pub fn write_code(
    out: &mut String,
    program: &Program,
    marks: &Marks,
    values: &[String],
    part: Range<usize>,
) -> Result<(), AllocError> {
    let len = program.code().len();
    if part.start == 0 {
        out.push_str(".code\n")?;
    }
    for at in part.start..part.end.min(len) {
        if marks.begins_line(at) {
            write_line(out, program, marks, values, at)?;
        }
    }
    if part.end > len {
        write_label(out, marks, len)?;
    }
    Ok(())
}

/// How many positions past the code a text has without a line for each.
pub const UNLISTED: usize = 65_536;

/// Appends the positions in a part of the addresses that are of no line of the code. The first part has the head of the section.
/// A position that is none has a line if there are very many past the code: a text is no shorter than its positions then.
pub fn write_places(
    out: &mut String,
    positions: &Positions,
    marks: &Marks,
    len: usize,
    part: Range<usize>,
) -> Result<(), AllocError> {
    let Positions::Dense(list) = positions else {
        return Ok(());
    };
    if part.start == 0 {
        out.push_str(".places\n")?;
    }
    let lists_all = list.len() > len.saturating_add(UNLISTED);
    for at in part.start..part.end.min(list.len()) {
        let position = list.get(at).copied().unwrap_or(Position::NONE);
        let is_listed = !position.is_none() || (lists_all && at >= len);
        if !is_listed || (at < len && marks.begins_line(at)) {
            continue;
        }
        write!(out, "  {at}")?;
        write_position(out, position)?;
        out.push_str("\n")?;
    }
    Ok(())
}
