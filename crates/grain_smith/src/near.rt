//! Programs that are one step away from an accepted one.

use crate::chance::Chance;
use crate::draft::{Draft, drafted};
use crate::error::SmithError;
use crate::options::SmithOptions;
use crate::smithing::smith;
use crate::steps::Pieces;
use grain::{Function, Parts, Program, assemble, resolve_switch_targets};
use std::alloc::{AllocError, Global};

/// Makes the numbers that decide the change others than those that decided the program.
const SALT: u64 = 0x6e65_6172;

/// How many changes are tried, each of the accepted program, until one is refused.
const TRIES: u32 = 3;

/// The functions of a program.
fn functions(alloc: Global, program: &Program) -> Result<Vec<Function>, AllocError> {
    let mut copies = Vec::new(alloc);
    for function in program.functions() {
        copies.push(Function {
            name: function.name,
            params: function.params.to_vec(alloc)?,
            access: function.access,
            this_type: function.this_type,
            chunk: function.chunk,
        })?;
    }
    Ok(copies)
}

/// What the program of a seed has except for its code and chunks. It is made a second time, since it isn't copied.
fn parts(alloc: Global, seed: u64, options: &SmithOptions) -> Result<Parts, SmithError> {
    let Draft {
        ops,
        mut parts,
        cuts: _,
        heads: _,
    } = drafted(alloc, seed, options)?;
    let (_, offsets) = assemble(alloc, &ops)?;
    resolve_switch_targets(&mut parts.switches, &offsets)?;
    Ok(parts)
}

/// The accepted program of a seed, with one thing changed.
fn changed(
    alloc: Global,
    seed: u64,
    options: &SmithOptions,
    program: &Program,
    chance: &mut Chance,
) -> Result<Program, SmithError> {
    let mut pieces = Pieces {
        caps: program.caps(),
        code: program.code().to_vec(alloc)?,
        main: program.main(),
        functions: functions(alloc, program)?,
        parts: parts(alloc, seed, options)?,
    };
    pieces.change(alloc, chance)?;
    Ok(pieces.program(alloc))
}

/// The program of [`smith`] with one thing changed: a byte, an instruction, a target, a chunk, a capability or a part of a pool.
/// Most such programs are refused, and all have a file. The seed and the options alone decide which program it is. It takes a few
/// times as long as [`smith`].
///
/// # Errors
/// As [`smith`].
pub fn smith_near(alloc: Global, seed: u64, options: &SmithOptions) -> Result<Program, SmithError> {
    let smithed = smith(alloc, seed, options)?;
    let program = smithed.program();
    let mut chance = Chance::new(seed ^ SALT);
    let mut near = changed(alloc, seed, options, program, &mut chance)?;
    for _turn in 1..TRIES {
        if near.verify().is_err() {
            break;
        }
        near = changed(alloc, seed, options, program, &mut chance)?;
    }
    Ok(near)
}
