//! Handlers of faults, and faults that are raised again.
ghost use Rattle.std.specs.Prelude.{◌≡◌, ◌+◌, ◌-◌, ◌≤◌, OnOk, Some, length, slice_get};
ghost use Rattle.grain_rules.specs.Counts.{without_last};
ghost use Rattle.grain_builder.specs.Unfinished.{SameLabels, spot, level_with_handler};
ghost use Rattle.rhai_emit.specs.Rules.{LeadsAway, IsWritten, Stands, AddsPlaces};
ghost use Rattle.rhai_emit.specs.Places.{here};

use crate::emitter::Emitter;
use crate::scope::Local;
use crate::writing::check_index;
use grain_base::pos::Site;
use grain_code::{Op, Pool};
use rhai_errors::CompileError;
use rhai_syntax::{Binding, Catch};

/// The name of a fault that is raised again. No source text can contain it.
const FAULT: &str = "fault$";

impl Emitter {
    /// Arms a handler, which catches at the label and binds the fault to this name.
    pub fn arm(&mut self, place: Site, target: u32, name: Option<u32>) -> Result<(), CompileError>
        requires stands { Stands self.old }
        requires there { slice_get self.old.code.labels target
            ≡ Some (spot self.old.code.operands (level_with_handler self.old.code.operands self.old.code.level)) }
        ensures stands { OnOk result (Stands self.new) }
        ensures operands { OnOk result (self.new.code.operands ≡ self.old.code.operands) }
        ensures level { OnOk result (self.new.code.level
            ≡ level_with_handler self.old.code.operands self.old.code.level) }
        ensures labels { OnOk result (SameLabels self.old.code self.new.code) }
        ensures scope { OnOk result (self.new.scope ≡ self.old.scope) }
        ensures placed { OnOk result (AddsPlaces self.old self.new (here place)) }
    {
        if let Some(name) = name {
            check_index(place, Pool::Names, name)?;
        }
        self.code.arm(place, target, name)?;
        Ok(())
    }

    /// The name that the host binds a fault to. One that is raised again has a name of its own if the script gives it none.
    pub fn fault_name(&mut self, catch: Catch) -> Result<Option<u32>, CompileError>
        ensures code { self.new.code ≡ self.old.code }
        ensures scope { self.new.scope ≡ self.old.scope }
    {
        match catch.name {
            Some(binding) => Ok(Some(binding.name)),
            None if catch.rethrows => Ok(Some(self.pools.name(FAULT)?)),
            None => Ok(None),
        }
    }

    /// The fault that was caught becomes one or two variables.
    pub fn caught(
        &mut self,
        place: Site,
        catch: Catch,
        fault: Option<u32>,
    ) -> Result<(), CompileError>
        requires { self.old.code.level.floor ≤ self.old.code.operands }
        ensures written { OnOk result (IsWritten self.old self.new self.old.code.operands) }
        ensures placed { OnOk result (AddsPlaces self.old self.new (here place)) }
    {
        let Some(fault) = fault else {
            return Ok(());
        };
        self.scope.caught = None;
        if catch.rethrows {
            let hidden = Binding {
                name: self.pools.name(FAULT)?,
                place,
            };
            let slot = self.bind_fault(place, fault, hidden)?;
            self.scope.caught = Some(slot);
        }
        if let Some(binding) = catch.name {
            let _slot = self.bind_fault(place, fault, binding)?;
        }
        Ok(())
    }

    /// Declares a variable with the value that the host bound to the name.
    fn bind_fault(&mut self, place: Site, fault: u32, binding: Binding) -> Result<u16, CompileError>
        requires { self.old.code.level.floor ≤ self.old.code.operands }
        ensures written { OnOk result (IsWritten self.old self.new self.old.code.operands) }
        ensures placed { OnOk result (AddsPlaces self.old self.new (here place)) }
    {
        self.put(place, Op::LoadNamed(fault), 0, 1)?;
        self.declare(place, Local::variable(binding))
    }

    /// `throw` without a value: it raises the fault again that the innermost `catch` has, and else throws unit.
    pub fn throw_again(&mut self, place: Site) -> Result<(), CompileError>
        requires { self.old.code.level.floor ≤ self.old.code.operands }
        ensures away { OnOk result (LeadsAway self.old self.new) }
        ensures placed { OnOk result (AddsPlaces self.old self.new (here place)) }
    {
        match self.scope.caught {
            Some(slot) => self.put(place, Op::LoadLocal(slot), 0, 1)?,
            None => self.put(place, Op::Unit, 0, 1)?,
        }
        self.throw(place)
    }

    /// Throws the value on top.
    pub fn throw(&mut self, place: Site) -> Result<(), CompileError>
        requires { self.old.code.level.floor + 1 ≤ self.old.code.operands }
        ensures away { OnOk result (LeadsAway self.old self.new) }
        ensures placed { OnOk result (AddsPlaces self.old self.new (here place)) }
    {
        self.code.stop(place, Op::Throw, 1, 0)
    }
}
