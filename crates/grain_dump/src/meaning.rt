//! What the parts of a file spell, as assembly text has it (docs/ASSEMBLY.md).

use grain::{Positions, Program, Sidecar};
use grain_base::{Caps, Flags};
use grain_code::Function;
use grain_file::Part;
use grain_print::{
    Marks, write_assign_op, write_capabilities, write_chain, write_chunk, write_front,
    write_function, write_switch, write_text, write_token, write_value,
};
use std::alloc::{AllocError, Global};

/// What is written if there is nothing.
const NONE: &str = "none";

fn write_caps(out: &mut String, program: &Program) -> Result<(), AllocError> {
    let caps = program.caps();
    if caps.is_empty() {
        return out.push_str(NONE);
    }
    if caps == Caps::all() {
        return out.push_str("all");
    }
    write_capabilities(out, caps)
}

/// Appends a function, and what it is called.
fn write_named(
    alloc: Global,
    out: &mut String,
    program: &Program,
    function: &Function,
) -> Result<(), AllocError> {
    write_function(out, &Marks::none(alloc), function)?;
    match program.names().get(function.name) {
        Some(name) => {
            out.push_str(" ; ")?;
            write_front(out, name)
        }
        None => Ok(()),
    }
}

fn write_name(out: &mut String, program: &Program, index: usize) -> Result<(), AllocError> {
    let name = match u32::try_from(index) {
        Ok(index) => program.names().get(index),
        Err(_) => None,
    };
    write_text(out, name.unwrap_or_default())
}

fn write_source(out: &mut String, program: &Program) -> Result<(), AllocError> {
    match program.source() {
        Some(source) => write_text(out, source),
        None => out.push_str(NONE),
    }
}

/// Appends how many positions there are.
fn write_positions(out: &mut String, program: &Program) -> Result<(), AllocError> {
    match program.positions() {
        Positions::Stripped => out.push_str(NONE),
        Positions::Dense(list) => {
            let len = list.len();
            write!(out, "{len}")
        }
    }
}

/// Appends how many items a list has.
fn write_len(out: &mut String, program: &Program, list: Part) -> Result<(), AllocError> {
    let len = match list {
        Part::Functions => program.functions().len(),
        Part::Names => program.names().len(),
        Part::Constants => program.consts().len(),
        Part::Operators => program.tokens().len(),
        Part::OpAssignments => program.assign_ops().len(),
        Part::Chains => program.chains().len(),
        Part::Switches => program.switches().len(),
        _ => return Ok(()),
    };
    write!(out, "{len}")
}

/// Appends an item of a list.
fn write_item(
    alloc: Global,
    out: &mut String,
    program: &Program,
    part: Part,
) -> Result<(), AllocError> {
    match part {
        Part::Function(index) => match program.functions().get(index) {
            Some(function) => write_named(alloc, out, program, function),
            None => Ok(()),
        },
        Part::Name(index) => write_name(out, program, index),
        Part::Constant(index) => match program.consts().get(index) {
            Some(value) => write_value(alloc, out, value),
            None => Ok(()),
        },
        Part::Operator(index) => match program.tokens().get(index) {
            Some(token) => write_token(out, token),
            None => Ok(()),
        },
        Part::OpAssignment(index) => match program.assign_ops().get(index) {
            Some(assign_op) => write_assign_op(out, assign_op),
            None => Ok(()),
        },
        Part::Chain(index) => match program.chains().get(index) {
            Some(chain) => write_chain(out, chain),
            None => Ok(()),
        },
        Part::Switch(index) => match program.switches().get(index) {
            Some(switch) => write_switch(alloc, out, &Marks::none(alloc), switch),
            None => Ok(()),
        },
        Part::Position(index) => {
            let position = program.position(index);
            write!(out, "{position}")
        }
        _ => Ok(()),
    }
}

/// Appends what a part of a program file spells: of a list how many items it has, of anything else the text that assembly text
/// has for it. A switch has more than one line.
pub fn write_part(
    alloc: Global,
    out: &mut String,
    program: &Program,
    part: Part,
) -> Result<(), AllocError> {
    match part {
        Part::Header => out.push_str("program, version 2"),
        Part::Capabilities => write_caps(out, program),
        Part::Id => {
            let id = program.debug_id();
            write!(out, "{id}")
        }
        Part::Code => {
            let len = program.code().len();
            write!(out, "{len} bytes")
        }
        Part::MainChunk => write_chunk(out, &Marks::none(alloc), program.main()),
        Part::SourceName => write_source(out, program),
        Part::Positions => write_positions(out, program),
        part if part.index().is_some() => write_item(alloc, out, program, part),
        list => write_len(out, program, list),
    }
}

/// Appends what a part of a sidecar file spells.
pub fn write_sidecar_part(
    out: &mut String,
    sidecar: &Sidecar,
    part: Part,
) -> Result<(), AllocError> {
    match part {
        Part::Header => out.push_str("sidecar, version 2"),
        Part::Id => {
            let id = sidecar.debug_id;
            write!(out, "{id}")
        }
        Part::AddressTable => {
            let len = sidecar.positions.len();
            write!(out, "{len} bytes")
        }
        Part::ChainStream => {
            let len = sidecar.chains.len();
            write!(out, "{len} bytes")
        }
        _ => Ok(()),
    }
}
