//! Operations, by how they are left.
ghost use Rattle.std.specs.Prelude.{◌≡◌, ◌+◌, ◌-◌, ◌≤◌, OnOk, Some, false, slice_get};
ghost use Rattle.grain_rules.specs.Flow.{Falls, Ends, Jumps, Branches};
ghost use Rattle.grain_rules.specs.Rows.{flow_of};
ghost use Rattle.grain_builder.specs.Fitting.{HasEffect};
ghost use Rattle.grain_builder.specs.Unfinished.{LeavesOperands, spot, AddsPlace};

use crate::assembler::{Assembler, PlacedOp};
use grain_base::pos::Site;
use grain_code::Op;
use rhai_errors::{CompileError, Problem, Thing};

/// A chunk declares at most this many operands.
pub(crate) const MAX_OPERANDS: usize = 65535;

/// There are more operands than a chunk can declare.
pub(crate) fn too_many(place: Site) -> CompileError {
    CompileError::new(place, Problem::TooMany(Thing::Items))
}

impl Assembler {
    /// One more operation that falls through, and takes and gives this many operands.
    ///
    /// # Errors
    /// There are more operands than a chunk can declare, or the allocator refused.
    pub fn put(
        &mut self,
        place: Site,
        op: Op,
        takes: usize,
        gives: usize,
    ) -> Result<(), CompileError>
        requires falls { flow_of op ≡ Falls }
        requires does { HasEffect op self.old.operands takes gives }
        requires room { self.old.level.floor + takes ≤ self.old.operands }
        ensures leaves { OnOk result (LeavesOperands self.old self.new (self.old.operands - takes + gives)) }
        ensures placed { OnOk result (AddsPlace self.old self.new place) }
    {
        let kept = self.operands - takes;
        if gives > MAX_OPERANDS.saturating_sub(kept) {
            return Err(too_many(place));
        }
        self.ops.push(PlacedOp { op, place })?;
        self.operands = kept + gives;
        self.is_fixed = true;
        Ok(())
    }

    /// One more operation that ends the run. Code after it finds this many operands.
    ///
    /// # Errors
    /// As [`Assembler::put`].
    pub fn stop(
        &mut self,
        place: Site,
        op: Op,
        takes: usize,
        left: usize,
    ) -> Result<(), CompileError>
        requires ends { flow_of op ≡ Ends }
        requires does { HasEffect op self.old.operands takes 0 }
        requires room { self.old.level.floor + takes ≤ self.old.operands }
        ensures leaves { OnOk result (LeavesOperands self.old self.new left) }
        ensures loose { OnOk result (self.new.fixed ≡ false) }
        ensures placed { OnOk result (AddsPlace self.old self.new place) }
    {
        if left > MAX_OPERANDS {
            return Err(too_many(place));
        }
        self.ops.push(PlacedOp { op, place })?;
        self.operands = left;
        self.is_fixed = false;
        Ok(())
    }

    /// Jumps to a label. Code after it finds this many operands.
    ///
    /// # Errors
    /// As [`Assembler::put`].
    pub fn jump(&mut self, place: Site, label: u32, left: usize) -> Result<(), CompileError>
        requires there { slice_get self.old.labels label ≡ Some (spot self.old.operands self.old.level) }
        requires room { self.old.level.floor ≤ self.old.operands }
        ensures leaves { OnOk result (LeavesOperands self.old self.new left) }
        ensures loose { OnOk result (self.new.fixed ≡ false) }
        ensures placed { OnOk result (AddsPlace self.old self.new place) }
    {
        if left > MAX_OPERANDS {
            return Err(too_many(place));
        }
        let op = Op::Jump(label);
        self.ops.push(PlacedOp { op, place })?;
        self.operands = left;
        self.is_fixed = false;
        Ok(())
    }

    /// Jumps to a label or falls through, after this many operands were taken.
    ///
    /// # Errors
    /// As [`Assembler::put`].
    pub fn branch(
        &mut self,
        place: Site,
        op: Op,
        label: u32,
        takes: usize,
    ) -> Result<(), CompileError>
        requires branches { flow_of op ≡ Branches label }
        requires does { HasEffect op self.old.operands takes 0 }
        requires room { self.old.level.floor + takes ≤ self.old.operands }
        requires there { slice_get self.old.labels label ≡ Some (spot (self.old.operands - takes) self.old.level) }
        ensures leaves { OnOk result (LeavesOperands self.old self.new (self.old.operands - takes)) }
        ensures placed { OnOk result (AddsPlace self.old self.new place) }
    {
        let operands = self.operands - takes;
        self.ops.push(PlacedOp { op, place })?;
        self.operands = operands;
        self.is_fixed = true;
        Ok(())
    }
}
