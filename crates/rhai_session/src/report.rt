//! Faults as texts.

use grain::{Chunk, Program};
use rhai_engine::State;
use rhai_runtime::Fault;
use std::alloc::{AllocError, Global};
use std::fmt::Write;

/// How many calls a report shows.
const SHOWN_CALLS: usize = 16;

/// What the top level is called.
const MAIN: &str = "main";

fn holds(chunk: Chunk, at: usize) -> bool {
    chunk.entry() as usize <= at && at < chunk.end() as usize
}

/// The name of the function that an address is in.
fn name_at(program: &Program, at: usize) -> &str {
    if holds(program.main(), at) {
        return MAIN;
    }
    for function in program.functions() {
        if holds(function.chunk, at) {
            return program.names().get(function.name).unwrap_or("");
        }
    }
    ""
}

/// Appends the function of an address, and its line and column if the program has positions.
fn push_call(text: &mut String, program: &Program, at: usize) -> Result<(), AllocError> {
    text.push_str(name_at(program, at))?;
    let position = program.position(at);
    if let (Some(line), Some(column)) = (position.line(), position.position()) {
        write!(text, ":{line}:{column}")?;
    }
    Ok(())
}

/// Why a run failed: the fault, and the calls that it ended, each on a line of its own.
pub(crate) fn report(alloc: Global, state: &State, fault: &Fault) -> Result<String, AllocError> {
    let program = state.program();
    let mut text = fault.text(alloc, program)?;
    let calls = state.backtrace();
    if calls.is_empty() {
        return Ok(text);
    }
    text.push_str("\n  in ")?;
    push_call(&mut text, program, fault.at)?;
    for call in calls.iter().take(SHOWN_CALLS) {
        text.push_str("\n  called from ")?;
        push_call(&mut text, program, *call)?;
    }
    let left_out = calls.len().saturating_sub(SHOWN_CALLS);
    if left_out > 0 {
        write!(text, "\n  and {left_out} more calls")?;
    }
    Ok(text)
}
