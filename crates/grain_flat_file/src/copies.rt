//! What a flat file takes of its program as it is.
ghost use Rattle.std.specs.Prelude.{◌≡◌, [], IfOk, length, unwrap_or};
ghost use Rattle.grain.specs.Program.{Program};
ghost use Rattle.grain_file.specs.ProgramFile.{halves};
ghost use Rattle.grain_flat_file.specs.Contents.{AreCopies, AreNumbers};

use grain::Program;
use grain_base::Flags;
use grain_bytecode::Positions;
use std::alloc::{AllocError, Global};

/// What a program has in numbers.
#[derive(Clone, Copy)]
pub(crate) struct Numbers {
    /// The capabilities that it declares.
    pub(crate) caps: u16,
    /// The low half of its number.
    pub(crate) id_low: u64,
    /// The high half.
    pub(crate) id_high: u64,
    /// Whether its source has a name.
    pub(crate) has_source: bool,
    /// Whether it has positions.
    pub(crate) has_positions: bool,
    /// How many bytes of the code it has positions of.
    pub(crate) positions: usize,
    /// How many operators there are.
    pub(crate) operators: usize,
    /// How many op-assignments.
    pub(crate) op_assignments: usize,
    /// How many fragments that weren't compiled.
    pub(crate) fragments: usize,
    /// How many functions.
    pub(crate) functions: usize,
}

/// The low half of the number of a program.
fn low_half(id: u128) -> u64
    ensures { result ≡ (halves id).0 }
{
    (id % (1 << 64)) as u64
}

/// The high half.
fn high_half(id: u128) -> u64
    ensures { result ≡ (halves id).1 }
{
    (id / (1 << 64)) as u64
}

/// How many positions of the code there are.
fn count_positions(program: &Program) -> usize
    ensures { result ≡ length (unwrap_or program.now.positions []) }
{
    match program.positions() {
        Positions::Dense(positions) => positions.len(),
        Positions::Stripped => 0,
    }
}

/// What the program has in numbers.
pub(crate) fn numbers_of(program: &Program) -> Numbers
    ensures { AreNumbers program.now result }
{
    let id = program.debug_id();
    Numbers {
        caps: program.caps().bits(),
        id_low: low_half(id),
        id_high: high_half(id),
        has_source: program.source().is_some(),
        has_positions: !program.positions().is_stripped(),
        positions: count_positions(program),
        operators: program.tokens().len(),
        op_assignments: program.assign_ops().len(),
        fragments: program.residual_count(),
        functions: program.num_functions(),
    }
}

/// Copies of what a program has as bytes and starts.
#[derive(Drop)]
pub(crate) struct Copies {
    /// The code.
    pub(crate) code: Vec<u8>,
    /// The bytes of the names.
    pub(crate) names: Vec<u8>,
    /// Where each name begins, and where the last one ends.
    pub(crate) starts: Vec<u32>,
    /// The name of the source.
    pub(crate) source: Vec<u8>,
}

/// The name of the source, which is empty if there is none.
fn source_of(program: &Program) -> &[u8]
    ensures { result.now ≡ unwrap_or program.now.source [] }
{
    match program.source() {
        Some(source) => source.as_bytes(),
        None => &[],
    }
}

/// Copies what the program has as bytes and starts.
pub(crate) fn copies_of(alloc: Global, program: &Program) -> Result<Copies, AllocError>
    ensures { IfOk result (AreCopies program.now) }
{
    let code = Vec::from_slice(alloc, program.code())?;
    let names = Vec::from_slice(alloc, program.names().blob())?;
    let starts = Vec::from_slice(alloc, program.names().starts())?;
    let source = Vec::from_slice(alloc, source_of(program))?;
    Ok(Copies {
        code,
        names,
        starts,
        source,
    })
}
