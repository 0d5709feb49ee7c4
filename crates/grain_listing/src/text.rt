//! Programs and code as text, for people.

use crate::code::{CodeListing, effect_of};
use crate::handlers::{Handlers, SHOWN};
use crate::naming::Naming;
use crate::paint::{Kind, Paint};
use crate::program::ProgramListing;
use crate::refusal::{early_rule, write_early_wrong};
use crate::sentence::{rule, write_wrong};
use crate::shown::{push_name, push_position};
use grain_code::{Chunk, Flow, Op};
use grain_explain::{ExplainedChunk, Refusal as ExplainedRefusal, Row};
use grain_rules::VerifyError;
use std::alloc::AllocError;

/// How wide the column of bytes is at least.
const BYTES: usize = 14;

/// How wide the columns of operands, iterators and bases are at least, with what is between them.
const STATE: usize = 30;

/// What marks the instruction at which the flaw is.
const HERE: &str = "  <== here";

/// How a listing is written.
#[derive(Clone, Copy)]
pub struct Style<'a> {
    /// Whether it is coloured.
    pub paint: Paint,
    /// What instructions and chunks are called.
    pub naming: Naming<'a>,
}

/// Writes spaces from a width on up to another.
fn pad(from: usize, width: usize, text: &mut String) -> Result<(), AllocError> {
    for _ in from..width {
        text.push_str(" ")?;
    }
    Ok(())
}

/// Writes bytes in hexadecimal.
pub fn write_hex(bytes: &[u8], text: &mut String) -> Result<(), AllocError> {
    for byte in bytes {
        write!(text, "{byte:02x}")?;
    }
    Ok(())
}

/// Writes an address and the bytes of the instruction there, in columns.
fn write_place(code: &CodeListing, at: usize, text: &mut String) -> Result<(), AllocError> {
    write!(text, "{at:>9}  ")?;
    let bytes = code.bytes_at(at);
    write_hex(bytes, text)?;
    pad(bytes.len().saturating_mul(2), BYTES, text)?;
    text.push_str("  ")
}

/// Appends the bases of armed handlers, that of the last first, and at most four; `-` if there are none.
///
/// # Errors
/// [`AllocError`] if memory was refused.
pub fn write_bases(handlers: Handlers<'_>, list: u32, text: &mut String) -> Result<(), AllocError> {
    if list == 0 {
        return text.push_str("-");
    }
    let mut rest = list;
    for place in 0..SHOWN {
        let Some(base) = handlers.last(rest) else {
            break;
        };
        if place > 0 {
            text.push_str(" ")?;
        }
        let operands = base.operands;
        let iterators = base.iterators;
        write!(text, "{operands}/{iterators}")?;
        rest = base.next;
    }
    let hidden = handlers.count(rest);
    if hidden > 0 {
        write!(text, " and {hidden} more")?;
    }
    Ok(())
}

/// Writes the state at an instruction, in columns.
fn write_state(handlers: Handlers<'_>, row: &Row, text: &mut String) -> Result<(), AllocError> {
    let before = text.len();
    let operands = row.operands;
    let iterators = row.iterators;
    write!(text, "{operands:>8} {iterators:>9}  ")?;
    write_bases(handlers, row.bases, text)?;
    pad(text.len().saturating_sub(before), STATE, text)
}

/// Writes an arrow to the target of an operation, if it has one.
fn write_target(op: &Op, text: &mut String) -> Result<(), AllocError> {
    let effect = effect_of(op);
    let Some(target) = effect.target_address() else {
        return Ok(());
    };
    let how = match effect.flow {
        Flow::AdvancesIterator => "at its end ",
        Flow::PushesHandler => "catches ",
        _ => "",
    };
    write!(text, "  {how}-> {target}")?;
    Ok(())
}

/// Writes the operation at an address, with an arrow to its target, and its position, if that is known.
fn write_op(naming: Naming<'_>, at: usize, op: &Op, text: &mut String) -> Result<(), AllocError> {
    naming.write_op(op, text)?;
    write_target(op, text)?;
    if let Some(position) = naming.position(at) {
        text.push_str("  @")?;
        push_position(position, text)?;
    }
    Ok(())
}

/// The row of an address among rows that are in the order of addresses.
pub fn row_at(chunk: &ExplainedChunk, at: usize) -> Option<(&Row, Option<u32>)> {
    let place = chunk
        .rows
        .binary_search_by(|row| (row.at as usize).cmp(&at))
        .ok()?;
    let row = chunk.rows.get(place)?;
    Some((row, chunk.origins.get(place).copied().flatten()))
}

/// The address at which the path to a flaw ends; none if no path leads to it.
fn flaw_of(chunk: &ExplainedChunk) -> Option<usize> {
    let refusal = chunk.refusal.as_ref()?;
    Some(refusal.way.first()?.at as usize)
}

/// What is said of an instruction without a row. The walk over a refused chunk stops at its flaw.
fn unreached(chunk: &ExplainedChunk) -> &'static str {
    match chunk.refusal {
        Some(_) => "  not visited",
        None => "  unreachable",
    }
}

/// Writes a line of a chunk's table, without its end.
fn write_item(
    naming: Naming<'_>,
    code: &CodeListing,
    handlers: Handlers<'_>,
    chunk: &ExplainedChunk,
    item: &(usize, Op),
    text: &mut String,
) -> Result<(), AllocError> {
    let (at, op) = item;
    write_place(code, *at, text)?;
    match row_at(chunk, *at) {
        Some((row, _)) => write_state(handlers, row, text)?,
        None => {
            let said = unreached(chunk);
            text.push_str(said)?;
            pad(said.len(), STATE, text)?;
        }
    }
    write_op(naming, *at, op, text)?;
    if flaw_of(chunk) == Some(*at) {
        text.push_str(HERE)?;
    }
    Ok(())
}

/// What a line of a chunk's table is: the flaw's, one without a row, or neither.
fn kind_of(chunk: &ExplainedChunk, at: usize) -> Kind {
    if flaw_of(chunk) == Some(at) {
        Kind::Flaw
    } else if row_at(chunk, at).is_none() {
        Kind::Unreached
    } else {
        Kind::Usual
    }
}

/// Writes the table of a chunk.
fn write_table(
    style: Style<'_>,
    code: &CodeListing,
    handlers: Handlers<'_>,
    items: &[(usize, Op)],
    chunk: &ExplainedChunk,
    text: &mut String,
) -> Result<(), AllocError> {
    let Style { paint, naming } = style;
    paint.write(
        Kind::Heading,
        "  address  bytes           operands iterators  bases     instruction\n",
        text,
    )?;
    for item in items {
        let kind = kind_of(chunk, item.0);
        paint.begin(kind, text)?;
        write_item(naming, code, handlers, chunk, item, text)?;
        paint.end(kind, text)?;
        text.push_str("\n")?;
    }
    Ok(())
}

/// Writes why a program is refused before its chunks, and the rule that it breaks.
fn write_early_refusal(
    style: Style<'_>,
    error: &VerifyError,
    text: &mut String,
) -> Result<(), AllocError> {
    let Style { paint, naming } = style;
    text.push_str("  ")?;
    paint.begin(Kind::Flaw, text)?;
    write_early_wrong(naming, error, text)?;
    paint.end(Kind::Flaw, text)?;
    let rule = early_rule(error);
    write!(text, "\n  The rule: {rule}\n")
}

/// Writes what is wrong, and the rule that it breaks.
fn write_sentences(
    paint: Paint,
    error: &VerifyError,
    path: &[Row],
    other: &[Row],
    text: &mut String,
) -> Result<(), AllocError> {
    text.push_str("  ")?;
    paint.begin(Kind::Flaw, text)?;
    write_wrong(error, path, other, text)?;
    paint.end(Kind::Flaw, text)?;
    let rule = rule(error);
    write!(text, "\n  The rule: {rule}\n")?;
    Ok(())
}

/// Writes a path from the entry of a chunk, each state on a line of its own.
fn write_path(
    naming: Naming<'_>,
    title: &str,
    code: &CodeListing,
    handlers: Handlers<'_>,
    path: &[Row],
    text: &mut String,
) -> Result<(), AllocError> {
    write!(text, "  {title}\n")?;
    for row in path.iter().rev() {
        let at = row.at as usize;
        write_place(code, at, text)?;
        write_state(handlers, row, text)?;
        if let Some(op) = code.op_at(at) {
            write_op(naming, at, op, text)?;
        }
        text.push_str("\n")?;
    }
    Ok(())
}

/// Writes why a chunk is refused, with the paths to its flaw.
fn write_refusal(
    style: Style<'_>,
    code: &CodeListing,
    handlers: Handlers<'_>,
    refusal: &ExplainedRefusal,
    text: &mut String,
) -> Result<(), AllocError> {
    let Style { paint, naming } = style;
    let ExplainedRefusal { error, way, other } = refusal;
    write_sentences(paint, error, way, other, text)?;
    if way.is_empty() {
        return Ok(());
    }
    if other.is_empty() {
        return write_path(naming, "A path there:", code, handlers, way, text);
    }
    write_path(naming, "One path there:", code, handlers, way, text)?;
    write_path(naming, "Another path there:", code, handlers, other, text)
}

/// Writes what a chunk is called, where it is, and whether it passes.
fn write_head(
    style: Style<'_>,
    place: usize,
    chunk: &Chunk,
    is_refused: bool,
    text: &mut String,
) -> Result<(), AllocError> {
    match style.naming.chunk_name(place) {
        Some(name) => push_name(name, text)?,
        None => write!(text, "chunk {place}")?,
    }
    let entry = chunk.entry();
    let end = chunk.end();
    let declared = chunk.max_stack();
    write!(text, " from {entry} to {end}, which declares {declared}: ")?;
    if is_refused {
        style.paint.write(Kind::Flaw, "refused", text)?;
    } else {
        style.paint.write(Kind::Good, "passes", text)?;
    }
    text.push_str("\n")
}

/// Writes the explained chunk at a place: its instructions with the states there, and why it is refused, if it is. If no chunk is
/// explained there, nothing is written.
///
/// # Errors
/// [`AllocError`] if memory was refused.
pub fn write_chunk(
    style: Style<'_>,
    program: &ProgramListing,
    place: usize,
    text: &mut String,
) -> Result<(), AllocError> {
    let Some(chunk) = program.chunks.get(place) else {
        return Ok(());
    };
    let Some(explained) = program.explained.chunks.get(place) else {
        return Ok(());
    };
    let handlers = program.handlers_at(place);
    write_head(style, place, chunk, explained.refusal.is_some(), text)?;
    let code = &program.code;
    let items = code.between(chunk.entry() as usize, chunk.end() as usize);
    if !items.is_empty() {
        write_table(style, code, handlers, items, explained, text)?;
    }
    match &explained.refusal {
        Some(refusal) => write_refusal(style, code, handlers, refusal, text),
        None => Ok(()),
    }
}

/// Writes code without chunks, after an empty line; of no code nothing.
///
/// # Errors
/// [`AllocError`] if memory was refused.
pub fn write_code(
    style: Style<'_>,
    code: &CodeListing,
    text: &mut String,
) -> Result<(), AllocError> {
    let Style { paint, naming } = style;
    if code.bytes.is_empty() {
        return Ok(());
    }
    paint.write(
        Kind::Heading,
        "\n  address  bytes           instruction\n",
        text,
    )?;
    for (at, op) in &code.items {
        write_place(code, *at, text)?;
        write_op(naming, *at, op, text)?;
        text.push_str("\n")?;
    }
    if let Some(at) = code.damage() {
        write!(text, "{at:>9}  ")?;
        paint.write(Kind::Flaw, "no instruction", text)?;
        text.push_str("\n")?;
    }
    Ok(())
}

/// How many parts the listing of a program has: its chunks, or one if it is refused before these.
pub fn count_parts(program: &ProgramListing) -> usize {
    program.explained.chunks.len().max(1)
}

/// Writes one part of the listing: an empty line and the chunk with this index. If the program is refused before its chunks, the part
/// is the code and the refusal. All parts together are the listing, so it need not be in memory at once.
///
/// # Errors
/// [`AllocError`] if memory was refused.
pub fn write_part(
    style: Style<'_>,
    program: &ProgramListing,
    place: usize,
    text: &mut String,
) -> Result<(), AllocError> {
    let explained = &program.explained;
    if !explained.chunks.is_empty() {
        text.push_str("\n")?;
        return write_chunk(style, program, place, text);
    }
    write_code(style, &program.code, text)?;
    match &explained.verdict {
        Err(refusal) => write_early_refusal(style, &refusal.error, text),
        Ok(_) => Ok(()),
    }
}

/// Writes all parts of a program.
///
/// # Errors
/// [`AllocError`] if memory was refused.
pub fn write_program(
    style: Style<'_>,
    program: &ProgramListing,
    text: &mut String,
) -> Result<(), AllocError> {
    for place in 0..count_parts(program) {
        write_part(style, program, place, text)?;
    }
    Ok(())
}
