//! Why a chunk is accepted or refused, as rows that cross to C.
//!
//! A row names its bases by an index into one list, so that no record points into another.
ghost use Rattle.std.specs.Prelude.{◌≡◌, ◌++◌, IfErr, IfOk, OnOk, map, reverse, zip};
ghost use Rattle.grain_flat.specs.Explaining.{ExplainsChunk, IsFlatCause, IsMadeOfRows, base_row};
ghost use Rattle.grain_flat.specs.Explaining.{list_place, other_of, path_row, row_record, way_of};
ghost use Rattle.grain_flat.specs.Flat.{IsFlat};

use crate::kinds::{NO_ADDRESS, NO_BASE};
use crate::records::{CBase, CChunk, CPools, CRow};
use crate::row_reads::{Rows, Tables};
use grain_base::Caps;
use grain_code::Chunk;
use grain_explain::{
    ExplainError, ExplainedChunk, LinkedBase, Refusal as ExplainedRefusal, Row, explain_chunks,
};
use std::alloc::{AllocError, Global};

/// Why a chunk whose pools have this flat form is accepted or refused, as [`explain_chunks`] says.
///
/// # Errors
/// Those of [`explain_chunks`].
pub fn explain_chunk(
    alloc: Global,
    caps: Caps,
    code: &[u8],
    chunk: &CChunk,
    pools: &CPools<'_>,
) -> Result<ExplainedChunk, ExplainError>
    requires { IsFlat pools.now }
    ensures explained { IfOk result (ExplainsChunk caps.0 code.now chunk.now pools.now) }
    ensures cause { IfErr result (IsFlatCause caps.0 code.now pools.now) }
{
    let mut tables = Tables::new(alloc);
    if tables.fill(pools).is_err() {
        return Err(ExplainError::OutOfMemory);
    }
    let rows = Rows::new(pools, tables);
    let chunks = [Chunk::new(chunk.entry, chunk.end, chunk.max_stack)];
    let mut explained = match explain_chunks(alloc, caps, code, &chunks, &rows) {
        Ok(explained) => explained,
        Err(error) => return Err(error),
    };
    match explained.pop() {
        Some(explained) => Ok(explained),
        None => unreachable!(),
    }
}

/// The place of the first base of a list, or that there is none.
fn place_of(list: u32) -> u32
    ensures { result ≡ list_place list }
{
    if list == 0 { NO_BASE } else { list - 1 }
}

/// What stands at an instruction, and from where an edge leads there.
fn row_of(row: &Row, from: Option<u32>) -> CRow
    ensures { result ≡ row_record (row.now, from) }
{
    CRow {
        at: row.at,
        operands: row.operands,
        iterators: row.iterators,
        from: from.unwrap_or(NO_ADDRESS),
        base: place_of(row.bases),
    }
}

fn base_of(base: &LinkedBase) -> CBase
    ensures { result ≡ base_row base.now }
{
    CBase {
        operands: base.operands,
        iterators: base.iterators,
        next: place_of(base.next),
    }
}

/// An explained chunk as rows.
#[derive(Drop)]
pub struct ExplanationRows {
    /// What stands at each instruction that was visited, and then the rows of the paths.
    pub rows: Vec<CRow>,
    /// The bases.
    pub bases: Vec<CBase>,
    /// How many rows say what stands at an instruction.
    pub visited: usize,
    /// How many rows the path to the flaw has.
    pub path: usize,
    /// How many rows the other path has.
    pub other: usize,
}

/// The rows, each with an address from which an edge leads there.
fn rows_alone(alloc: Global, rows: &[Row], origins: &[Option<u32>]) -> Result<Vec<CRow>, AllocError>
    ensures { IfOk result (λ records. records.items ≡ map row_record (zip rows.now origins.now)) }
{
    rows.iter()
        .zip(origins)
        .map(|(row, from)| row_of(row, *from))
        .collect(alloc)
}

/// The bases as they cross.
fn bases_of(alloc: Global, bases: &[LinkedBase]) -> Result<Vec<CBase>, AllocError>
    ensures { IfOk result (λ records. records.items ≡ map base_row bases.now) }
{
    bases.iter().map(base_of).collect(alloc)
}

/// Adds the rows of a way, from its first state on: it is listed from the last.
fn add_path(records: &mut Vec<CRow>, way: &[Row]) -> Result<(), AllocError>
    ensures { OnOk result (records.new.items ≡ records.old.items ++ map path_row (reverse way.now)) }
{
    for row in way.iter().rev() {
        records.push(row_of(row, None))?;
    }
    Ok(())
}

/// The way to a flaw, if there is one.
fn way_of(refusal: &Option<ExplainedRefusal>) -> &[Row]
    ensures { result.now ≡ way_of refusal.now }
{
    match refusal {
        Some(refusal) => &refusal.way,
        None => &[],
    }
}

/// The other way to a conflict.
fn other_of(refusal: &Option<ExplainedRefusal>) -> &[Row]
    ensures { result.now ≡ other_of refusal.now }
{
    match refusal {
        Some(refusal) => &refusal.other,
        None => &[],
    }
}

/// An explained chunk as rows.
///
/// # Errors
/// An allocation failed.
pub fn rows_of(alloc: Global, chunk: &ExplainedChunk) -> Result<ExplanationRows, AllocError>
    ensures { IfOk result (IsMadeOfRows chunk.now) }
{
    let (way, other) = (way_of(&chunk.refusal), other_of(&chunk.refusal));
    let mut rows = rows_alone(alloc, &chunk.rows, &chunk.origins)?;
    let visited = rows.len();
    add_path(&mut rows, way)?;
    add_path(&mut rows, other)?;
    let bases = bases_of(alloc, &chunk.bases)?;
    Ok(ExplanationRows {
        rows,
        bases,
        visited,
        path: way.len(),
        other: other.len(),
    })
}
