//! Chains.

use grain_base::{Flags, Position};
use grain_pools::{Chain, Root, Step, StepFlags, Tail};
use std::alloc::AllocError;

/// Appends a position behind what it is of, unless it is none.
pub fn write_position(out: &mut String, position: Position) -> Result<(), AllocError> {
    if position.is_none() {
        return Ok(());
    }
    write!(out, " @{position}")
}

fn write_root(out: &mut String, root: &Root) -> Result<(), AllocError> {
    match root {
        Root::Local { slot, name } => write!(out, "local {slot} #{name}"),
        Root::Named { name, pos } => {
            write!(out, "named #{name}")?;
            write_position(out, *pos)
        }
        Root::This { pos } => {
            out.push_str("this")?;
            write_position(out, *pos)
        }
        Root::Temporary => out.push_str("temporary"),
    }
}

fn write_flags(out: &mut String, flags: StepFlags) -> Result<(), AllocError> {
    match flags.bits() {
        0 => Ok(()),
        bits => write!(out, " flags {bits}"),
    }
}

/// Appends the positions of an index: its own, and that of its bracket.
fn write_brackets(out: &mut String, pos: Position, bracket: Position) -> Result<(), AllocError> {
    if bracket.is_none() {
        write_position(out, pos)
    } else {
        write!(out, " @{pos} @{bracket}")
    }
}

fn write_step(out: &mut String, step: &Step) -> Result<(), AllocError> {
    match step {
        Step::Index {
            operand,
            flags,
            pos,
            bracket,
        } => {
            write!(out, " index {operand}")?;
            write_flags(out, *flags)?;
            write_brackets(out, *pos, *bracket)
        }
        Step::Property {
            name,
            getter,
            setter,
            flags,
            pos,
        } => {
            write!(out, " property #{name} #{getter} #{setter}")?;
            write_flags(out, *flags)?;
            write_position(out, *pos)
        }
        Step::Method {
            name,
            argc,
            operand,
            flags,
            pos,
        } => {
            write!(out, " method #{name} {argc} {operand}")?;
            write_flags(out, *flags)?;
            write_position(out, *pos)
        }
    }
}

fn write_tail(out: &mut String, tail: &Tail) -> Result<(), AllocError> {
    match tail {
        Tail::Read => out.push_str(" read"),
        Tail::Assign { op: None } => out.push_str(" assign"),
        Tail::Assign { op: Some(op) } => write!(out, " assign #{op}"),
    }
}

/// Appends a chain: its root, its steps, its tail, and how many operands the steps take.
pub fn write_chain(out: &mut String, chain: &Chain) -> Result<(), AllocError> {
    write_root(out, &chain.root)?;
    for step in &chain.steps {
        write_step(out, step)?;
    }
    write_tail(out, &chain.tail)?;
    let operands = chain.operands;
    write!(out, " operands {operands}")
}
