//! Iterators, handlers, switches and chains.
ghost use Rattle.std.specs.Prelude.{◌≡◌, ℕ, ◌+◌, ◌-◌, ◌≤◌, IfOk, OnOk, Some, false, length, slice_get};
ghost use Rattle.std.specs.List.{Contains};
ghost use Rattle.grain_pools.specs.Chain.{consumed};
ghost use Rattle.grain_rules.specs.Counts.{without_last};
ghost use Rattle.grain_builder.specs.Assembled.{targets_of};
ghost use Rattle.grain_builder.specs.Unfinished.{StaysIn, LeavesOperands, SameLabels, spot, level_with_handler, level_with_iterator, level_without_iterator, AddsPlace};

use crate::assembler::{Assembler, PlacedOp, TableTargets};
use crate::level::Level;
use crate::writing::{MAX_OPERANDS, too_many};
use grain_base::pos::Site;
use grain_code::Op;
use grain_pools::Chain;
use rhai_errors::{CompileError, Problem, Thing};

impl Assembler {
    /// Takes a value and begins to go over it.
    ///
    /// # Errors
    /// The allocator refused.
    pub fn begin_iterator(&mut self, place: Site) -> Result<(), CompileError>
        requires { self.old.level.floor + 1 ≤ self.old.operands }
        ensures operands { OnOk result (self.new.operands ≡ self.old.operands - 1) }
        ensures level { OnOk result (self.new.level ≡ level_with_iterator self.old.level) }
        ensures labels { OnOk result (SameLabels self.old self.new) }
        ensures placed { OnOk result (AddsPlace self.old self.new place) }
    {
        let level = self.level.with_iterator(place)?;
        let op = Op::IterInit;
        self.ops.push(PlacedOp { op, place })?;
        self.operands -= 1;
        self.level = level;
        self.is_fixed = true;
        Ok(())
    }

    /// Gives the next item of the last iterator, or ends it and jumps to the label.
    ///
    /// # Errors
    /// There are more operands than a chunk can declare, or the allocator refused.
    pub fn advance(
        &mut self,
        place: Site,
        exit: u32,
        counter_slot: Option<u16>,
    ) -> Result<(), CompileError>
        requires room { self.old.level.floor ≤ self.old.operands }
        requires one { self.old.level.least + 1 ≤ self.old.level.iterators }
        requires there { slice_get self.old.labels exit
            ≡ Some (spot self.old.operands (level_without_iterator self.old.level)) }
        ensures leaves { OnOk result (LeavesOperands self.old self.new (self.old.operands + 1)) }
        ensures placed { OnOk result (AddsPlace self.old self.new place) }
    {
        if self.operands >= MAX_OPERANDS {
            return Err(too_many(place));
        }
        let op = Op::IterNext { exit, counter_slot };
        self.ops.push(PlacedOp { op, place })?;
        self.operands += 1;
        self.is_fixed = true;
        Ok(())
    }

    /// Drops the last iterator.
    ///
    /// # Errors
    /// The allocator refused.
    pub fn drop_iterator(&mut self, place: Site) -> Result<(), CompileError>
        requires { self.old.level.least + 1 ≤ self.old.level.iterators }
        ensures operands { OnOk result (self.new.operands ≡ self.old.operands) }
        ensures level { OnOk result (self.new.level ≡ level_without_iterator self.old.level) }
        ensures labels { OnOk result (SameLabels self.old self.new) }
        ensures placed { OnOk result (AddsPlace self.old self.new place) }
    {
        let level = self.level.without_iterator()?;
        let op = Op::IterDrop;
        self.ops.push(PlacedOp { op, place })?;
        self.level = level;
        self.is_fixed = true;
        Ok(())
    }

    /// A new label for a handler that is armed here: what it catches finds the handler still armed.
    ///
    /// # Errors
    /// As [`Assembler::label`].
    pub fn catch_label(&mut self) -> Result<u32, CompileError>
        ensures here { IfOk result (λ l. slice_get self.new.labels l
            ≡ Some (spot self.old.operands (level_with_handler self.old.operands self.old.level))) }
        ensures outer { IfOk result (λ l. slice_get self.new.outers l ≡ Some self.old.pending) }
        ensures pending { IfOk result (λ l. self.new.pending ≡ l + 1) }
        ensures labels { OnOk result (StaysIn self.old.labels self.new.labels) }
        ensures outers { OnOk result (StaysIn self.old.outers self.new.outers) }
        ensures operands { OnOk result (self.new.operands ≡ self.old.operands) }
        ensures level { OnOk result (self.new.level ≡ self.old.level) }
        ensures places { OnOk result (self.new.places ≡ self.old.places) }
    {
        let operands = self.operands;
        let level = self.level.with_handler(operands)?;
        self.label_in(operands, level)
    }

    /// Arms a handler, which catches at the label.
    ///
    /// # Errors
    /// The allocator refused.
    pub fn arm(&mut self, place: Site, label: u32, name: Option<u32>) -> Result<(), CompileError>
        requires room { self.old.level.floor ≤ self.old.operands }
        requires there { slice_get self.old.labels label
            ≡ Some (spot self.old.operands (level_with_handler self.old.operands self.old.level)) }
        ensures operands { OnOk result (self.new.operands ≡ self.old.operands) }
        ensures level { OnOk result (self.new.level ≡ level_with_handler self.old.operands self.old.level) }
        ensures labels { OnOk result (SameLabels self.old self.new) }
        ensures placed { OnOk result (AddsPlace self.old self.new place) }
    {
        let level = self.level.with_handler(self.operands)?;
        let op = Op::PushHandler {
            target: label,
            catch_var: name,
        };
        self.ops.push(PlacedOp { op, place })?;
        self.level = level;
        self.is_fixed = true;
        Ok(())
    }

    /// Disarms the last handler. What was around it surrounds the next operation.
    ///
    /// # Errors
    /// The allocator refused.
    pub fn disarm(&mut self, place: Site, outer: Level) -> Result<(), CompileError>
        requires armed { 1 ≤ length self.old.level.bases }
        requires bases { outer.bases ≡ without_last self.old.level.bases }
        requires iterators { outer.iterators ≡ self.old.level.iterators }
        requires home { outer.home ≡ self.old.level.home }
        ensures operands { OnOk result (self.new.operands ≡ self.old.operands) }
        ensures level { OnOk result (self.new.level ≡ outer) }
        ensures labels { OnOk result (SameLabels self.old self.new) }
        ensures placed { OnOk result (AddsPlace self.old self.new place) }
    {
        let _based = &outer.floor;
        let op = Op::PopHandler;
        self.ops.push(PlacedOp { op, place })?;
        self.level = outer;
        self.is_fixed = true;
        Ok(())
    }

    /// Leads the subject on top, which stays, to the labels of a new switch, and returns its index. Code after it finds as many
    /// operands.
    ///
    /// # Errors
    /// There are too many switches, or the allocator refused.
    pub fn switch(&mut self, place: Site, targets: TableTargets) -> Result<u32, CompileError>
        requires room { self.old.level.floor + 1 ≤ self.old.operands }
        requires there { (l : ℕ) → Contains (targets_of targets) l
            → slice_get self.old.labels l ≡ Some (spot self.old.operands self.old.level) }
        ensures leaves { OnOk result (LeavesOperands self.old self.new self.old.operands) }
        ensures loose { OnOk result (self.new.fixed ≡ false) }
        ensures placed { OnOk result (AddsPlace self.old self.new place) }
    {
        let Ok(index) = u16::try_from(self.tables.len()) else {
            return Err(CompileError::new(place, Problem::TooMany(Thing::Switches)));
        };
        let index = u32::from(index);
        self.tables.push(targets)?;
        let op = Op::Switch(index);
        self.ops.push(PlacedOp { op, place })?;
        self.is_fixed = false;
        Ok(index)
    }

    /// A chain, which takes its operands, its root and what it assigns, and gives one.
    ///
    /// # Errors
    /// There are too many chains or operands, or the allocator refused.
    pub fn chain(&mut self, place: Site, chain: Chain) -> Result<(), CompileError>
        requires { self.old.level.floor + consumed chain ≤ self.old.operands }
        ensures leaves { OnOk result (LeavesOperands self.old self.new (self.old.operands - consumed chain + 1)) }
        ensures placed { OnOk result (AddsPlace self.old self.new place) }
    {
        let Ok(index) = u16::try_from(self.chains.len()) else {
            return Err(CompileError::new(place, Problem::TooMany(Thing::Chains)));
        };
        let index = u32::from(index);
        let takes = chain.consumes();
        let kept = self.operands - takes;
        if kept >= MAX_OPERANDS {
            return Err(too_many(place));
        }
        self.chains.push(chain)?;
        let op = Op::Chain(index);
        self.ops.push(PlacedOp { op, place })?;
        self.operands = kept + 1;
        self.is_fixed = true;
        Ok(())
    }
}
