//! The texts of op-assignments.
ghost use Rattle.std.specs.Prelude.{OnOk, IfErr};
ghost use Rattle.grain_pools.specs.LookedUp.{FindsAll, NamesMissing, LooksUp, assign_op_sought, assign_op_at_sought};

use super::error::DisassembleError;
use super::found::{find_assign_op, find_name};
use crate::assign_op::AssignOp;
use crate::lookups::Lookups;
use std::alloc::Global;

impl AssignOp {
    /// The text of the op-assignment: its name and its operator, and after a `/` the same of the operator that it stands
    /// for (docs/FORMAT.md, "Texts"). It takes time by its length.
    ///
    /// # Errors
    ///
    /// [`DisassembleError::Missing`] for the first of the two names that isn't there, [`DisassembleError::OutOfMemory`]
    /// if an allocation failed.
    pub fn disassemble<L: Lookups>(
        &self,
        alloc: Global,
        lookups: &L,
    ) -> Result<String, DisassembleError>
        ensures ok { OnOk result (FindsAll (L.pools lookups.now) (assign_op_sought self.now)) }
        ensures missing { IfErr result
            (NamesMissing (L.pools lookups.now) (assign_op_sought self.now)) }
    {
        let mut out = String::new(alloc);
        write_assign_op(&mut out, lookups, self)?;
        Ok(out)
    }
}

fn write_assign_op<L: Lookups>(
    out: &mut String,
    lookups: &L,
    assign_op: &AssignOp,
) -> Result<(), DisassembleError>
    ensures { LooksUp (L.pools lookups.now) (assign_op_sought assign_op.now) result }
{
    let first = find_name(lookups, assign_op.op_assign_name)?;
    let second = find_name(lookups, assign_op.op_name)?;
    let op_assign = &assign_op.op_assign;
    let op = &assign_op.op;
    write!(out, "{first} ({op_assign:?}) / {second} ({op:?})")?;
    Ok(())
}

/// Writes the text of the op-assignment at the index.
pub fn write_assign_op_at<L: Lookups>(
    out: &mut String,
    lookups: &L,
    index: u32,
) -> Result<(), DisassembleError>
    ensures { LooksUp (L.pools lookups.now) (assign_op_at_sought index) result }
{
    let assign_op = find_assign_op(lookups, index)?;
    write_assign_op(out, lookups, assign_op)
}
