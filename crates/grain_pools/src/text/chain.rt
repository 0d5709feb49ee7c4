//! The texts of chains and of their steps and tails.
ghost use Rattle.std.specs.Prelude.{OnOk, IfErr};
ghost use Rattle.grain_pools.specs.LookedUp.{FindsAll, NamesMissing, LooksUp, chain_sought, chain_at_sought, path_sought, root_sought, step_sought, steps_sought, tail_sought};

use super::assign_op::write_assign_op_at;
use super::error::DisassembleError;
use super::found::{find_chain, find_name};
use crate::chain::{Chain, Root, Step, StepFlags, Tail};
use crate::lookups::Lookups;
use bitflags::Flags;
use std::alloc::{AllocError, Global};

impl Step {
    /// The text of the step: where its index lies among the operands, its name, or its name with its arguments
    /// (docs/FORMAT.md, "Texts"). It takes time by its length.
    ///
    /// # Errors
    ///
    /// [`DisassembleError::Missing`] if its name isn't there, [`DisassembleError::OutOfMemory`] if a growth was
    /// refused.
    pub fn disassemble<L: Lookups>(
        &self,
        alloc: Global,
        lookups: &L,
    ) -> Result<String, DisassembleError>
        ensures ok { OnOk result (FindsAll (L.pools lookups.now) (step_sought self.now)) }
        ensures missing { IfErr result
            (NamesMissing (L.pools lookups.now) (step_sought self.now)) }
    {
        let mut out = String::new(alloc);
        write_step(&mut out, lookups, self)?;
        Ok(out)
    }
}

impl Tail {
    /// The text of the tail: nothing if the chain reads, `=` or the op-assignment if it assigns (docs/FORMAT.md,
    /// "Texts"). It takes time by its length.
    ///
    /// # Errors
    ///
    /// [`DisassembleError::Missing`] if the op-assignment or a name of it isn't there,
    /// [`DisassembleError::OutOfMemory`] if an allocation failed.
    pub fn disassemble<L: Lookups>(
        &self,
        alloc: Global,
        lookups: &L,
    ) -> Result<String, DisassembleError>
        ensures ok { OnOk result (FindsAll (L.pools lookups.now) (tail_sought self.now)) }
        ensures missing { IfErr result
            (NamesMissing (L.pools lookups.now) (tail_sought self.now)) }
    {
        let mut out = String::new(alloc);
        write_tail(&mut out, lookups, self)?;
        Ok(out)
    }
}

impl Chain {
    /// The text of the chain: its root, the name of the root, its steps and its tail (docs/FORMAT.md, "Texts"). It takes
    /// time by its length.
    ///
    /// # Errors
    ///
    /// [`DisassembleError::Missing`] for the first name or op-assignment that isn't there, in the order of the text;
    /// [`DisassembleError::OutOfMemory`] if an allocation failed.
    pub fn disassemble<L: Lookups>(
        &self,
        alloc: Global,
        lookups: &L,
    ) -> Result<String, DisassembleError>
        ensures ok { OnOk result (FindsAll (L.pools lookups.now) (chain_sought self.now)) }
        ensures missing { IfErr result
            (NamesMissing (L.pools lookups.now) (chain_sought self.now)) }
    {
        let mut out = String::new(alloc);
        write_chain(&mut out, lookups, self)?;
        Ok(out)
    }
}

/// What precedes a step that ends early if it is taken on unit.
fn mark(flags: StepFlags) -> &'static str {
    if flags.contains(StepFlags::SKIP_IF_UNIT) {
        "?"
    } else {
        ""
    }
}

/// Writes the arguments of a method: how many there are, and which of the operands is the first.
fn write_arguments(out: &mut String, argc: u8, operand: u16) -> Result<(), AllocError> {
    if argc == 0 {
        write!(out, "()")
    } else {
        write!(out, "({argc} args from {operand})")
    }
}

fn write_step<L: Lookups>(
    out: &mut String,
    lookups: &L,
    step: &Step,
) -> Result<(), DisassembleError>
    ensures { LooksUp (L.pools lookups.now) (step_sought step.now) result }
{
    match step {
        Step::Index { operand, flags, .. } => {
            let mark = mark(*flags);
            write!(out, "{mark}[{operand}]")?;
            Ok(())
        }
        Step::Property { name, flags, .. } => {
            let mark = mark(*flags);
            let name = find_name(lookups, *name)?;
            write!(out, ".{mark}{name}")?;
            Ok(())
        }
        Step::Method {
            name,
            argc,
            operand,
            flags,
            ..
        } => {
            let mark = mark(*flags);
            let name = find_name(lookups, *name)?;
            write!(out, ".{mark}{name}")?;
            write_arguments(out, *argc, *operand)?;
            Ok(())
        }
    }
}

/// Writes the steps with a space between them.
#[tactic(auto, using(crate::proofs::FirstMissing::first_missing_append))]
fn write_steps<L: Lookups>(
    out: &mut String,
    lookups: &L,
    steps: &[Step],
) -> Result<(), DisassembleError>
    ensures { LooksUp (L.pools lookups.now) (steps_sought steps.now) result }
{
    for (i, step) in steps.iter().enumerate() {
        if i > 0 {
            out.push(' ')?;
        }
        write_step(out, lookups, step)?;
    }
    Ok(())
}

/// Writes the root and its name.
fn write_root<L: Lookups>(
    out: &mut String,
    lookups: &L,
    root: &Root,
) -> Result<(), DisassembleError>
    ensures { LooksUp (L.pools lookups.now) (root_sought root.now) result }
{
    match root {
        Root::Local { name, .. } | Root::Named { name, .. } => {
            let name = find_name(lookups, *name)?;
            write!(out, "{root:?} {name}")?;
            Ok(())
        }
        Root::This { .. } => {
            write!(out, "{root:?} this")?;
            Ok(())
        }
        Root::Temporary => {
            write!(out, "{root:?} <temp value>")?;
            Ok(())
        }
    }
}

fn write_tail<L: Lookups>(
    out: &mut String,
    lookups: &L,
    tail: &Tail,
) -> Result<(), DisassembleError>
    ensures { LooksUp (L.pools lookups.now) (tail_sought tail.now) result }
{
    match tail {
        Tail::Read => Ok(()),
        Tail::Assign { op: None } => {
            out.push('=')?;
            Ok(())
        }
        Tail::Assign { op: Some(index) } => write_assign_op_at(out, lookups, *index),
    }
}

/// Writes the steps and the tail.
fn write_path<L: Lookups>(
    out: &mut String,
    lookups: &L,
    steps: &[Step],
    tail: &Tail,
) -> Result<(), DisassembleError>
    ensures { LooksUp (L.pools lookups.now) (path_sought steps.now tail.now) result }
{
    write_steps(out, lookups, steps)?;
    out.push(' ')?;
    write_tail(out, lookups, tail)
}

#[tactic(auto, using(crate::proofs::FirstMissing::first_missing_append))]
fn write_chain<L: Lookups>(
    out: &mut String,
    lookups: &L,
    chain: &Chain,
) -> Result<(), DisassembleError>
    ensures { LooksUp (L.pools lookups.now) (chain_sought chain.now) result }
{
    write_root(out, lookups, &chain.root)?;
    out.push(' ')?;
    write_path(out, lookups, &chain.steps, &chain.tail)
}

/// Writes the number of operands and the text of the chain at the index.
pub fn write_chain_at<L: Lookups>(
    out: &mut String,
    lookups: &L,
    index: u32,
) -> Result<(), DisassembleError>
    ensures { LooksUp (L.pools lookups.now) (chain_at_sought index) result }
{
    let chain = find_chain(lookups, index)?;
    let operands = chain.operands;
    write!(out, "Chain({index}, {operands} total operands): ")?;
    write_chain(out, lookups, chain)
}
