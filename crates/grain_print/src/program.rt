//! A program as a whole.

use crate::chains::write_chain;
use crate::code::{shown_values, write_code, write_places};
use crate::marks::{Marks, write_address};
use crate::operators::{write_assign_op, write_token};
use crate::quote::write_text;
use crate::switches::write_switch;
use crate::values::write_value;
use grain::{FnAccess, Positions, Program};
use grain_base::{Caps, Flags};
use grain_code::{Chunk, Function};
use std::alloc::{AllocError, Global};
use std::ops::Range;

/// Appends the names of capabilities with bars between them, and the bit that has none as a number.
pub fn write_capabilities(out: &mut String, caps: Caps) -> Result<(), AllocError> {
    let mut is_first = true;
    for (name, _) in caps.iter_names() {
        out.push_str(if is_first { "" } else { " | " })?;
        out.push_str(name)?;
        is_first = false;
    }
    if caps.bits() & 0x8000 != 0 {
        out.push_str(if is_first { "" } else { " | " })?;
        out.push_str("0x8000")?;
    }
    Ok(())
}

/// Appends what a program has besides its code and its pools.
fn write_head(out: &mut String, program: &Program) -> Result<(), AllocError> {
    out.push_str(".caps \"")?;
    write_capabilities(out, program.caps())?;
    out.push_str("\"\n")?;
    let id = program.debug_id();
    write!(out, ".id {id}\n")?;
    if let Some(source) = program.source() {
        out.push_str(".source ")?;
        write_text(out, source)?;
        out.push_str("\n")?;
    }
    let residuals = program.residual_count();
    if residuals != 0 {
        write!(out, ".fragments {residuals}\n")?;
    }
    if let Positions::Dense(list) = program.positions() {
        let len = list.len();
        write!(out, ".positions {len}\n")?;
    }
    Ok(())
}

fn write_names(out: &mut String, program: &Program) -> Result<(), AllocError> {
    out.push_str(".names\n")?;
    let mut index = 0usize;
    for name in program.names().iter() {
        out.push_str("  ")?;
        write_text(out, name)?;
        write!(out, " ; {index}\n")?;
        index = index.saturating_add(1);
    }
    Ok(())
}

fn write_constants(alloc: Global, out: &mut String, program: &Program) -> Result<(), AllocError> {
    out.push_str(".constants\n")?;
    for (index, value) in program.consts().iter().enumerate() {
        out.push_str("  ")?;
        write_value(alloc, out, value)?;
        write!(out, " ; {index}\n")?;
    }
    Ok(())
}

fn write_operators(out: &mut String, program: &Program) -> Result<(), AllocError> {
    out.push_str(".operators\n")?;
    for token in program.tokens() {
        out.push_str("  ")?;
        write_token(out, token)?;
        out.push_str("\n")?;
    }
    out.push_str(".op-assignments\n")?;
    for assign_op in program.assign_ops() {
        out.push_str("  ")?;
        write_assign_op(out, assign_op)?;
        out.push_str("\n")?;
    }
    Ok(())
}

fn write_chains(out: &mut String, program: &Program) -> Result<(), AllocError> {
    out.push_str(".chains\n")?;
    for chain in program.chains() {
        out.push_str("  ")?;
        write_chain(out, chain)?;
        out.push_str("\n")?;
    }
    Ok(())
}

fn write_switches(
    alloc: Global,
    out: &mut String,
    program: &Program,
    marks: &Marks,
) -> Result<(), AllocError> {
    out.push_str(".switches\n")?;
    for switch in program.switches() {
        write_switch(alloc, out, marks, switch)?;
    }
    Ok(())
}

/// Appends where a chunk begins and ends, and how many operands it declares.
pub fn write_chunk(out: &mut String, marks: &Marks, chunk: Chunk) -> Result<(), AllocError> {
    write_address(out, marks, chunk.entry())?;
    out.push_str(" ")?;
    write_address(out, marks, chunk.end())?;
    let max_stack = chunk.max_stack();
    write!(out, " stack {max_stack}")
}

/// Appends a function: its name, its parameters, who may call it, the type of its receiver, and its chunk.
pub fn write_function(
    out: &mut String,
    marks: &Marks,
    function: &Function,
) -> Result<(), AllocError> {
    let name = function.name;
    write!(out, "function #{name} (")?;
    for (place, param) in function.params.iter().enumerate() {
        out.push_str(if place == 0 { "" } else { ", " })?;
        write!(out, "#{param}")?;
    }
    out.push_str(match function.access {
        FnAccess::Public => ") public",
        FnAccess::Private => ") private",
    })?;
    if let Some(this_type) = function.this_type {
        write!(out, " on #{this_type}")?;
    }
    out.push_str(" ")?;
    write_chunk(out, marks, function.chunk)
}

fn write_chunks(out: &mut String, program: &Program, marks: &Marks) -> Result<(), AllocError> {
    out.push_str(".chunks\n  main ")?;
    write_chunk(out, marks, program.main())?;
    out.push_str("\n")?;
    for function in program.functions() {
        out.push_str("  ")?;
        write_function(out, marks, function)?;
        out.push_str("\n")?;
    }
    Ok(())
}

/// How many addresses a part of the code or of the positions has.
const PART: usize = 4096;

/// The number of parts of this many addresses and of the end after them.
fn count_parts(addresses: usize) -> usize {
    addresses.checked_div(PART).unwrap_or(0).saturating_add(1)
}

/// The addresses of a part.
fn part_at(index: usize) -> Range<usize> {
    let start = index.saturating_mul(PART);
    start..start.saturating_add(PART)
}

/// The assembly text of a program, in pieces: it need not be held at once.
#[derive(Drop)]
pub struct Printer<'a> {
    alloc: Global,
    program: &'a Program,
    marks: Marks,
    /// The texts of the constants in comments.
    values: Vec<String>,
}

impl<'a> Printer<'a> {
    /// The text of a program. It takes memory for a byte of each byte of the code and up to 67 bytes for each constant, and time by the
    /// size of the program.
    ///
    /// # Errors
    /// If the allocator refused.
    pub fn new(alloc: Global, program: &'a Program) -> Result<Printer<'a>, AllocError> {
        Ok(Printer {
            alloc,
            program,
            marks: Marks::of(alloc, program)?,
            values: shown_values(alloc, program.consts())?,
        })
    }

    /// How many pieces the text has.
    #[must_use]
    pub fn count_pieces(&self) -> usize {
        let of_code = count_parts(self.program.code().len());
        of_code
            .saturating_add(1)
            .saturating_add(self.count_places())
    }

    /// How many parts the positions have.
    fn count_places(&self) -> usize {
        match self.program.positions() {
            Positions::Dense(list) => count_parts(list.len()),
            Positions::Stripped => 0,
        }
    }

    /// Appends all before the code.
    fn write_front(&self, out: &mut String) -> Result<(), AllocError> {
        let Printer {
            alloc,
            program,
            marks,
            ..
        } = self;
        write_head(out, program)?;
        write_names(out, program)?;
        write_constants(*alloc, out, program)?;
        write_operators(out, program)?;
        write_chains(out, program)?;
        write_switches(*alloc, out, program, marks)?;
        write_chunks(out, program, marks)
    }

    /// Appends the piece at an index: all before the code, lines of the code, or positions that are of no line.
    ///
    /// # Errors
    /// If the allocator refused.
    pub fn write_piece(&self, index: usize, out: &mut String) -> Result<(), AllocError> {
        let program = self.program;
        let len = program.code().len();
        let Some(index) = index.checked_sub(1) else {
            return self.write_front(out);
        };
        match index.checked_sub(count_parts(len)) {
            None => write_code(out, program, &self.marks, &self.values, part_at(index)),
            Some(index) => write_places(out, program.positions(), &self.marks, len, part_at(index)),
        }
    }
}

/// The assembly text of a program (docs/ASSEMBLY.md), complete: what is parsed of it is this program. It is all pieces of a
/// [`Printer`], and takes memory for the text.
///
/// # Errors
/// An allocation failed. Each program has a text, also one that no file keeps and one that isn't accepted.
pub fn print(alloc: Global, program: &Program) -> Result<String, AllocError> {
    let printer = Printer::new(alloc, program)?;
    let mut out = String::new(alloc);
    for index in 0..printer.count_pieces() {
        printer.write_piece(index, &mut out)?;
    }
    Ok(out)
}
