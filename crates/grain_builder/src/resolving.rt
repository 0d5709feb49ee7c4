//! Labels become indices of operations.
ghost use Rattle.std.specs.Prelude.{◌≡◌, ◌≤◌, IfOk, map, slice_index};
ghost use Rattle.grain_builder.specs.Assembled.{label_target, op_in, place_in, targets_of};
ghost use Rattle.grain_builder.specs.Finished.{IsComplete};
ghost use Rattle.grain_builder.specs.Resolved.{resolved_op, resolved_tables};

use crate::assembler::{Assembler, Label, PlacedOp, TableTargets};
use grain_base::pos::Site;
use grain_code::{Chunk, Op};
use grain_pools::Chain;
use rhai_errors::CompileError;
use std::alloc::{AllocError, Global};

/// Operations whose targets are indices of operations.
#[derive(Drop)]
pub struct Assembled {
    /// The operations.
    pub ops: Vec<Op>,
    /// The place of each.
    pub places: Vec<Site>,
    /// The chains.
    pub chains: Vec<Chain>,
    /// Where each switch leads.
    pub tables: Vec<TableTargets>,
    /// The chunks.
    pub cuts: Vec<Chunk>,
}

/// The operation to which a label is bound, or the first one if there is no such label.
fn target(targets: &[u32], label: u32) -> u32
    ensures { result ≡ slice_index targets.now label }
{
    match targets.get(label as usize) {
        Some(target) => *target,
        None => 0,
    }
}

/// The operation with its label resolved.
fn resolve(op: Op, targets: &[u32]) -> Op
    ensures { result ≡ resolved_op targets.now op }
{
    match op {
        Op::Jump(label) => Op::Jump(target(targets, label)),
        Op::JumpIfTrue { target: label } => Op::JumpIfTrue {
            target: target(targets, label),
        },
        Op::JumpIfFalse { target: label } => Op::JumpIfFalse {
            target: target(targets, label),
        },
        Op::SkipIfNotUnit { target: label } => Op::SkipIfNotUnit {
            target: target(targets, label),
        },
        Op::IterNext { exit, counter_slot } => Op::IterNext {
            exit: target(targets, exit),
            counter_slot,
        },
        Op::PushHandler {
            target: label,
            catch_var,
        } => Op::PushHandler {
            target: target(targets, label),
            catch_var,
        },
        op => op,
    }
}

fn resolve_ops(alloc: Global, ops: &[PlacedOp], targets: &[u32]) -> Result<Vec<Op>, AllocError>
    ensures { IfOk result (λ v. v.items ≡ map (resolved_op targets.now) (map op_in ops.now)) }
{
    let mut found = Vec::new(alloc);
    for placed in ops {
        found.push(resolve(placed.op, targets))?;
    }
    Ok(found)
}

/// The places of the operations in the source text.
fn source_places(alloc: Global, ops: &[PlacedOp]) -> Result<Vec<Site>, AllocError>
    ensures { IfOk result (λ v. v.items ≡ map place_in ops.now) }
{
    let mut found = Vec::new(alloc);
    for placed in ops {
        found.push(placed.place)?;
    }
    Ok(found)
}

/// The operations to which the labels are bound.
fn targets_of_labels(alloc: Global, labels: &[Label]) -> Result<Vec<u32>, AllocError>
    ensures { IfOk result (λ v. v.items ≡ map label_target labels.now) }
{
    let mut targets = Vec::new(alloc);
    for label in labels {
        targets.push(label.at)?;
    }
    Ok(targets)
}

fn resolve_labels(alloc: Global, labels: &[u32], targets: &[u32]) -> Result<Vec<u32>, AllocError>
    ensures { IfOk result (λ v. v.items ≡ map (slice_index targets.now) labels.now) }
{
    let mut resolved = Vec::new(alloc);
    for label in labels {
        resolved.push(target(targets, *label))?;
    }
    Ok(resolved)
}

fn resolve_table(
    alloc: Global,
    table: &TableTargets,
    targets: &[u32],
) -> Result<TableTargets, AllocError>
    ensures { IfOk result (λ t. targets_of t ≡ map (slice_index targets.now) (targets_of table.now)) }
{
    let cases = resolve_labels(alloc, &table.cases, targets)?;
    Ok(TableTargets {
        cases,
        default: target(targets, table.default),
    })
}

fn resolve_tables(
    alloc: Global,
    tables: &[TableTargets],
    targets: &[u32],
) -> Result<Vec<TableTargets>, AllocError>
    ensures { IfOk result (λ v. map targets_of v.items
        ≡ resolved_tables targets.now (map targets_of tables.now)) }
{
    let mut resolved = Vec::new(alloc);
    for table in tables {
        resolved.push(resolve_table(alloc, table, targets)?)?;
    }
    Ok(resolved)
}

impl Assembler {
    /// The operations, with the operations to which their labels are bound as targets, of at least one chunk. Each chunk has a typing by index.
    ///
    /// # Errors
    /// The allocator refused.
    pub fn finish(self) -> Result<Assembled, CompileError>
        requires closed { self.pending ≡ 0 }
        requires ended { 1 ≤ self.level.home }
        ensures complete { IfOk result IsComplete }
        ensures places { IfOk result (λ done. done.places.items ≡ self.places) }
    {
        let targets = targets_of_labels(self.alloc, &self.labels)?;
        let tables = resolve_tables(self.alloc, &self.tables, &targets)?;
        let ops = resolve_ops(self.alloc, &self.ops, &targets)?;
        let places = source_places(self.alloc, &self.ops)?;
        Ok(Assembled {
            ops,
            places,
            chains: self.chains,
            tables,
            cuts: self.cuts,
        })
    }
}
