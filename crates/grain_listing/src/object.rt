//! Programs and code as members of an object of JSON, for programs.

use crate::code::{CodeListing, effect_of};
use crate::handlers::{Handlers, SHOWN};
use crate::naming::Naming;
use crate::program::ProgramListing;
use crate::refusal::{early_rule, write_early_wrong};
use crate::sentence::{rule, write_wrong};
use crate::text::{row_at, write_hex};
use grain_base::Position;
use grain_code::{Chunk, Flow, Op};
use grain_explain::{ExplainedChunk, LinkedBase, Refusal as ExplainedRefusal, Row};
use grain_rules::{Effect, VerifyError};
use grain_stream::JsonStream;
use json::Writer;
use std::alloc::{AllocError, Global};
use std::io;
use std::io::Write;

/// Those of what has no rows.
const NO_HANDLERS: Handlers<'static> = Handlers {
    bases: &[],
    depths: &[],
};

fn write_number(name: &str, number: u64, json: &mut Writer) -> Result<(), AllocError> {
    json.key(name)?;
    json.u64(number)
}

/// Writes a member that is a number, or null if there is none.
fn write_option(name: &str, number: Option<u32>, json: &mut Writer) -> Result<(), AllocError> {
    match number {
        Some(number) => write_number(name, u64::from(number), json),
        None => write_null(name, json),
    }
}

/// Writes a member that is a size, or null if there is none.
fn write_size(name: &str, size: Option<usize>, json: &mut Writer) -> Result<(), AllocError> {
    match size {
        Some(size) => write_number(name, size as u64, json),
        None => write_null(name, json),
    }
}

fn write_truth(name: &str, truth: bool, json: &mut Writer) -> Result<(), AllocError> {
    json.key(name)?;
    json.boolean(truth)
}

fn write_words(name: &str, words: &str, json: &mut Writer) -> Result<(), AllocError> {
    json.key(name)?;
    json.string(words)
}

fn write_null(name: &str, json: &mut Writer) -> Result<(), AllocError> {
    json.key(name)?;
    json.null()
}

/// Begins a member that is an array.
fn begin_array(name: &str, json: &mut Writer) -> Result<(), AllocError> {
    json.key(name)?;
    json.begin_array()
}

/// Begins a member that is an object.
fn begin_object(name: &str, json: &mut Writer) -> Result<(), AllocError> {
    json.key(name)?;
    json.begin_object()
}

/// Adds a member that is null.
fn add_null<W: Write>(name: &str, json: &mut JsonStream<W>) -> io::Result<()> {
    let mut piece = json.piece()?;
    write_null(name, &mut piece)?;
    json.add(piece)
}

/// Begins a member of a stream that is an array.
fn open_array<W: Write>(name: &str, json: &mut JsonStream<W>) -> io::Result<()> {
    json.key(name)?;
    json.begin_array()
}

/// Begins a member of a stream that is an object.
fn open_object<W: Write>(name: &str, json: &mut JsonStream<W>) -> io::Result<()> {
    json.key(name)?;
    json.begin_object()
}

/// Writes the base of an armed handler.
fn write_base(base: &LinkedBase, json: &mut Writer) -> Result<(), AllocError> {
    json.begin_object()?;
    write_number("operands", u64::from(base.operands), json)?;
    write_number("iterators", u64::from(base.iterators), json)?;
    json.end_object()
}

/// Writes how many handlers are armed, and the bases of the last of them.
fn write_bases(handlers: Handlers<'_>, list: u32, json: &mut Writer) -> Result<(), AllocError> {
    write_number("handlers", handlers.count(list) as u64, json)?;
    begin_array("bases", json)?;
    let mut rest = list;
    for _ in 0..SHOWN {
        let Some(base) = handlers.last(rest) else {
            break;
        };
        write_base(base, json)?;
        rest = base.next;
    }
    json.end_array()
}

/// Writes the state at an address.
fn write_state(handlers: Handlers<'_>, row: &Row, json: &mut Writer) -> Result<(), AllocError> {
    json.begin_object()?;
    write_number("at", u64::from(row.at), json)?;
    write_number("operands", u64::from(row.operands), json)?;
    write_number("iterators", u64::from(row.iterators), json)?;
    write_bases(handlers, row.bases, json)?;
    json.end_object()
}

/// Adds the state at an address.
fn add_state<W: Write>(
    handlers: Handlers<'_>,
    row: &Row,
    json: &mut JsonStream<W>,
) -> io::Result<()> {
    let mut piece = json.piece()?;
    write_state(handlers, row, &mut piece)?;
    json.add(piece)
}

/// Adds a path, the chunk's entry first.
fn add_path<W: Write>(
    name: &str,
    handlers: Handlers<'_>,
    path: &[Row],
    json: &mut JsonStream<W>,
) -> io::Result<()> {
    open_array(name, json)?;
    for row in path.iter().rev() {
        add_state(handlers, row, json)?;
    }
    json.end_array()
}

/// Writes the state at an instruction, and from where it is reached.
fn write_found(
    handlers: Handlers<'_>,
    found: Option<(&Row, Option<u32>)>,
    json: &mut Writer,
) -> Result<(), AllocError> {
    match found {
        Some((row, from)) => {
            json.key("state")?;
            write_state(handlers, row, json)?;
            write_option("from", from, json)
        }
        None => {
            write_null("state", json)?;
            write_null("from", json)
        }
    }
}

/// Writes the bytes of an instruction.
fn write_bytes(alloc: Global, bytes: &[u8], json: &mut Writer) -> Result<(), AllocError> {
    let mut digits = String::new(alloc);
    write_hex(bytes, &mut digits)?;
    write_words("bytes", digits.as_str(), json)
}

/// Writes an operation.
fn write_op(
    alloc: Global,
    naming: Naming<'_>,
    op: &Op,
    json: &mut Writer,
) -> Result<(), AllocError> {
    let mut shown = String::new(alloc);
    naming.write_op(op, &mut shown)?;
    write_words("instruction", shown.as_str(), json)
}

/// Writes a position. A column that isn't known is null.
fn write_known_position(position: Position, json: &mut Writer) -> Result<(), AllocError> {
    begin_object("position", json)?;
    write_size("line", position.line(), json)?;
    write_size("column", position.position(), json)?;
    json.end_object()
}

/// Writes the position of an instruction, or null if it isn't known; by indices there are no positions, and no member.
fn write_position(naming: Naming<'_>, at: usize, json: &mut Writer) -> Result<(), AllocError> {
    match (naming, naming.position(at)) {
        (Naming::Indices, _) => Ok(()),
        (Naming::Program(_), Some(position)) => write_known_position(position, json),
        (Naming::Program(_), None) => write_null("position", json),
    }
}

/// Writes where an operation leads.
fn write_flow(effect: &Effect, json: &mut Writer) -> Result<(), AllocError> {
    write_option("target", effect.target_address(), json)?;
    write_truth("catches", matches!(effect.flow, Flow::PushesHandler), json)?;
    write_truth("falls", effect.falls(), json)
}

/// Writes an instruction with the state there, and from where it is reached.
fn write_item(
    alloc: Global,
    naming: Naming<'_>,
    code: &CodeListing,
    item: &(usize, Op),
    handlers: Handlers<'_>,
    found: Option<(&Row, Option<u32>)>,
    json: &mut Writer,
) -> Result<(), AllocError> {
    let (at, op) = item;
    json.begin_object()?;
    write_number("at", *at as u64, json)?;
    write_bytes(alloc, code.bytes_at(*at), json)?;
    write_op(alloc, naming, op, json)?;
    write_position(naming, *at, json)?;
    write_flow(&effect_of(op), json)?;
    write_found(handlers, found, json)?;
    json.end_object()
}

/// Adds an instruction with the state there, and from where it is reached.
fn add_item<W: Write>(
    alloc: Global,
    naming: Naming<'_>,
    code: &CodeListing,
    item: &(usize, Op),
    handlers: Handlers<'_>,
    found: Option<(&Row, Option<u32>)>,
    json: &mut JsonStream<W>,
) -> io::Result<()> {
    let mut piece = json.piece()?;
    write_item(alloc, naming, code, item, handlers, found, &mut piece)?;
    json.add(piece)
}

/// Writes a refusal as the verdict has it.
fn write_error(alloc: Global, error: &VerifyError, json: &mut Writer) -> Result<(), AllocError> {
    let said = format!(in alloc; "{error}")?;
    write_words("error", said.as_str(), json)
}

/// Writes what is wrong, in a sentence.
fn write_sentence(
    alloc: Global,
    error: &VerifyError,
    path: &[Row],
    other: &[Row],
    json: &mut Writer,
) -> Result<(), AllocError> {
    let mut said = String::new(alloc);
    write_wrong(error, path, other, &mut said)?;
    write_words("wrong", said.as_str(), json)
}

/// Writes why a chunk is refused, in words.
fn write_reason(
    alloc: Global,
    refusal: &ExplainedRefusal,
    json: &mut Writer,
) -> Result<(), AllocError> {
    let ExplainedRefusal { error, way, other } = refusal;
    write_error(alloc, error, json)?;
    write_sentence(alloc, error, way, other, json)?;
    write_words("rule", rule(error), json)
}

/// Adds why a chunk is refused, in words.
fn add_reason<W: Write>(
    alloc: Global,
    refusal: &ExplainedRefusal,
    json: &mut JsonStream<W>,
) -> io::Result<()> {
    let mut piece = json.piece()?;
    write_reason(alloc, refusal, &mut piece)?;
    json.add(piece)
}

/// Adds why a chunk is refused, with the paths to its flaw.
fn add_refusal<W: Write>(
    alloc: Global,
    handlers: Handlers<'_>,
    refusal: &ExplainedRefusal,
    json: &mut JsonStream<W>,
) -> io::Result<()> {
    open_object("refusal", json)?;
    add_reason(alloc, refusal, json)?;
    add_path("path", handlers, &refusal.way, json)?;
    add_path("other_path", handlers, &refusal.other, json)?;
    json.end_object()
}

/// Adds why a chunk is refused, if it is.
fn add_chunk_refusal<W: Write>(
    alloc: Global,
    handlers: Handlers<'_>,
    refusal: &Option<ExplainedRefusal>,
    json: &mut JsonStream<W>,
) -> io::Result<()> {
    match refusal {
        Some(refusal) => add_refusal(alloc, handlers, refusal, json),
        None => add_null("refusal", json),
    }
}

/// Adds the instructions of a chunk.
fn add_chunk_items<W: Write>(
    alloc: Global,
    naming: Naming<'_>,
    code: &CodeListing,
    chunk: &Chunk,
    explained: &ExplainedChunk,
    handlers: Handlers<'_>,
    json: &mut JsonStream<W>,
) -> io::Result<()> {
    open_array("items", json)?;
    for item in code.between(chunk.entry() as usize, chunk.end() as usize) {
        let found = row_at(explained, item.0);
        add_item(alloc, naming, code, item, handlers, found, json)?;
    }
    json.end_array()
}

/// Writes what a chunk is called, if chunks have names.
fn write_name(naming: Naming<'_>, place: usize, json: &mut Writer) -> Result<(), AllocError> {
    match naming.chunk_name(place) {
        Some(name) => write_words("name", name, json),
        None => Ok(()),
    }
}

/// Writes what a chunk is called, where it is, and what it declares.
fn write_head(
    naming: Naming<'_>,
    place: usize,
    chunk: &Chunk,
    json: &mut Writer,
) -> Result<(), AllocError> {
    write_name(naming, place, json)?;
    write_number("entry", u64::from(chunk.entry()), json)?;
    write_number("end", u64::from(chunk.end()), json)?;
    write_number("declared", u64::from(chunk.max_stack()), json)
}

/// Adds what a chunk is called, where it is, and what it declares.
fn add_head<W: Write>(
    naming: Naming<'_>,
    place: usize,
    chunk: &Chunk,
    json: &mut JsonStream<W>,
) -> io::Result<()> {
    let mut piece = json.piece()?;
    write_head(naming, place, chunk, &mut piece)?;
    json.add(piece)
}

/// Adds an explained chunk.
fn add_chunk<W: Write>(
    alloc: Global,
    naming: Naming<'_>,
    program: &ProgramListing,
    place: usize,
    chunk: &Chunk,
    explained: &ExplainedChunk,
    json: &mut JsonStream<W>,
) -> io::Result<()> {
    let handlers = program.handlers_at(place);
    let code = &program.code;
    json.begin_object()?;
    add_head(naming, place, chunk, json)?;
    add_chunk_refusal(alloc, handlers, &explained.refusal, json)?;
    add_chunk_items(alloc, naming, code, chunk, explained, handlers, json)?;
    json.end_object()
}

/// What is listed.
#[derive(Clone, Copy)]
pub enum Listed<'a> {
    /// Nothing.
    Nothing,
    /// Code alone.
    Code(&'a CodeListing),
    /// A program.
    Program(&'a ProgramListing),
}

impl<'a> Listed<'a> {
    /// Why code with chunks is refused before these, if it is.
    fn early_error(self) -> Option<&'a VerifyError> {
        let Listed::Program(program) = self else {
            return None;
        };
        match &program.explained.verdict {
            Err(refusal) if program.explained.chunks.is_empty() => Some(&refusal.error),
            _ => None,
        }
    }

    /// The code that is listed without chunks, if there is any.
    fn bare_code(self) -> Option<&'a CodeListing> {
        match self {
            Listed::Code(code) => Some(code),
            Listed::Program(program) if program.explained.chunks.is_empty() => Some(&program.code),
            Listed::Nothing | Listed::Program(_) => None,
        }
    }
}

/// Writes why code with chunks is refused before these, in words.
fn write_early_reason(
    alloc: Global,
    naming: Naming<'_>,
    error: &VerifyError,
    json: &mut Writer,
) -> Result<(), AllocError> {
    let mut said = String::new(alloc);
    write_early_wrong(naming, error, &mut said)?;
    write_error(alloc, error, json)?;
    write_words("wrong", said.as_str(), json)?;
    write_words("rule", early_rule(error), json)
}

/// Adds why code with chunks is refused before these, in words.
fn add_early_reason<W: Write>(
    alloc: Global,
    naming: Naming<'_>,
    error: &VerifyError,
    json: &mut JsonStream<W>,
) -> io::Result<()> {
    let mut piece = json.piece()?;
    write_early_reason(alloc, naming, error, &mut piece)?;
    json.add(piece)
}

/// Adds why code with chunks is refused before these. No path leads there.
fn add_refusal_before<W: Write>(
    alloc: Global,
    naming: Naming<'_>,
    error: &VerifyError,
    json: &mut JsonStream<W>,
) -> io::Result<()> {
    open_object("refusal", json)?;
    add_early_reason(alloc, naming, error, json)?;
    add_path("path", NO_HANDLERS, &[], json)?;
    add_path("other_path", NO_HANDLERS, &[], json)?;
    json.end_object()
}

/// Adds why code with chunks is refused before these, if it is.
fn add_early_refusal<W: Write>(
    alloc: Global,
    naming: Naming<'_>,
    listed: Listed<'_>,
    json: &mut JsonStream<W>,
) -> io::Result<()> {
    match listed.early_error() {
        Some(error) => add_refusal_before(alloc, naming, error, json),
        None => add_null("refusal", json),
    }
}

/// Adds the instructions of code that is listed without chunks.
fn add_items<W: Write>(
    alloc: Global,
    naming: Naming<'_>,
    listed: Listed<'_>,
    json: &mut JsonStream<W>,
) -> io::Result<()> {
    open_array("items", json)?;
    if let Some(code) = listed.bare_code() {
        for item in &code.items {
            add_item(alloc, naming, code, item, NO_HANDLERS, None, json)?;
        }
    }
    json.end_array()
}

fn add_chunks<W: Write>(
    alloc: Global,
    naming: Naming<'_>,
    listed: Listed<'_>,
    json: &mut JsonStream<W>,
) -> io::Result<()> {
    open_array("chunks", json)?;
    if let Listed::Program(program) = listed {
        let pairs = program.chunks.iter().zip(program.explained.chunks.iter());
        for (place, (chunk, explained)) in pairs.enumerate() {
            add_chunk(alloc, naming, program, place, chunk, explained, json)?;
        }
    }
    json.end_array()
}

/// Writes what is listed as the members `refusal`, `items` and `chunks` of an object. Besides what is listed it takes memory for the
/// text of one instruction.
///
/// # Errors
/// The output can't be written, or memory was refused.
pub fn write_listed<W: Write>(
    alloc: Global,
    naming: Naming<'_>,
    listed: Listed<'_>,
    json: &mut JsonStream<W>,
) -> io::Result<()> {
    add_early_refusal(alloc, naming, listed, json)?;
    add_items(alloc, naming, listed, json)?;
    add_chunks(alloc, naming, listed, json)
}
