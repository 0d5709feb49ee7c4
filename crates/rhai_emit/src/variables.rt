//! Variables.
ghost use Rattle.std.specs.Prelude.{◌≡◌, ◌+◌, ◌-◌, ◌≤◌, OnOk};
ghost use Rattle.rhai_emit.specs.Rules.{IsWritten, AddsPlaces};
ghost use Rattle.rhai_emit.specs.Places.{here};

use crate::emitter::Emitter;
use crate::scope::{Found, Local, slot_of};
use grain_base::pos::Site;
use grain_code::Op;
use rhai_errors::{CompileError, Problem};
use rhai_syntax::Constant;
use std::alloc::AllocError;
use strsim::levenshtein;

/// Names that differ by at most this many edits are similar.
const SIMILAR: usize = 2;

/// Longer names aren't compared, so that the search for a similar name is cheap.
const LONGEST_COMPARED: usize = 64;

impl Emitter {
    /// The local variable of this name, or none if the host has it.
    ///
    /// # Errors
    /// No variable has this name, and the host has no variables.
    pub fn find(&self, place: Site, name: u32) -> Result<Option<Found>, CompileError> {
        let found = self.scope.find(name);
        if found.is_none() && self.options.strict_variables {
            let similar = self.similar(name)?;
            return Err(CompileError::new(place, Problem::UnknownVariable(similar)));
        }
        Ok(found)
    }

    /// Where the variable is declared whose name is most similar to this one, or no place.
    fn similar(&self, name: u32) -> Result<Site, AllocError> {
        let sought = self.pools.names.get(name);
        let mut nearest = Site::NONE;
        let mut least = SIMILAR.saturating_add(1);
        for local in &self.scope.locals {
            let found = self.pools.names.get(local.name);
            if found.len().max(sought.len()) > LONGEST_COMPARED {
                continue;
            }
            let edits = levenshtein(self.alloc, sought, found)?;
            if edits < least && edits < sought.len() {
                least = edits;
                nearest = local.place;
            }
        }
        Ok(nearest)
    }

    /// The value of the constant that is read by a name with `::`. One that isn't a literal is computed anew: nothing but its
    /// own literals decides about it.
    pub fn qualified(&mut self, place: Site, space: u32, name: u32) -> Result<(), CompileError>
        requires { self.old.code.level.floor ≤ self.old.code.operands }
        ensures written { OnOk result (IsWritten self.old self.new (self.old.code.operands + 1)) }
        ensures placed { OnOk result (AddsPlaces self.old self.new (here place)) }
    {
        match self.constants.get(&name).copied() {
            Some(Constant::Literal(literal)) => self.literal(place, literal),
            Some(Constant::Computed(function)) => self.call(place, function, 0),
            None if self.pools.names.get(space) == "global" => {
                Err(CompileError::new(place, Problem::UnknownGlobal))
            }
            None => Err(CompileError::new(place, Problem::NotExported)),
        }
    }

    /// The value of a variable, or a pointer to the function of that name.
    pub fn load(&mut self, place: Site, name: u32) -> Result<(), CompileError>
        requires { self.old.code.level.floor ≤ self.old.code.operands }
        ensures written { OnOk result (IsWritten self.old self.new (self.old.code.operands + 1)) }
        ensures placed { OnOk result (AddsPlaces self.old self.new (here place)) }
    {
        if self.is_pointer(name) {
            return self.put(place, Op::MakeClosure(name), 0, 1);
        }
        match self.find(place, name)? {
            Some(found) => self.put(place, Op::LoadLocal(found.slot), 0, 1),
            None => self.put(place, Op::LoadNamed(name), 0, 1),
        }
    }

    /// The value that was given last becomes a variable.
    pub fn declare(&mut self, place: Site, local: Local) -> Result<u16, CompileError>
        requires { self.old.code.level.floor + 1 ≤ self.old.code.operands }
        ensures written { OnOk result (IsWritten self.old self.new (self.old.code.operands - 1)) }
        ensures placed { OnOk result (AddsPlaces self.old self.new (here place)) }
    {
        let slot = self.scope.declare(local)?;
        let declare = Op::DeclareLocal {
            name: local.name,
            is_const: local.is_const,
            is_global: false,
        };
        self.put(place, declare, 1, 0)?;
        Ok(slot)
    }

    /// Assigns the value on top to a variable.
    pub fn assign(
        &mut self,
        target: Site,
        place: Site,
        name: u32,
        op: Option<u32>,
    ) -> Result<(), CompileError>
        requires { self.old.code.level.floor + 1 ≤ self.old.code.operands }
        ensures written { OnOk result (IsWritten self.old self.new (self.old.code.operands - 1)) }
        ensures placed { OnOk result (AddsPlaces self.old self.new (here place)) }
    {
        match self.find(target, name)? {
            Some(found) if found.is_const => {
                Err(CompileError::new(place, Problem::ConstantAssigned))
            }
            Some(found) => {
                let assign = Op::AssignLocal {
                    slot: found.slot,
                    var_name: name,
                    op,
                };
                self.put(place, assign, 1, 0)
            }
            None => self.put(place, Op::AssignNamed { name, op }, 1, 0),
        }
    }

    /// The variables down to this many are dropped.
    pub fn leave(&mut self, place: Site, locals: usize) -> Result<(), CompileError>
        requires { self.old.code.level.floor ≤ self.old.code.operands }
        ensures written { OnOk result (IsWritten self.old self.new self.old.code.operands) }
        ensures placed { OnOk result (AddsPlaces self.old self.new (here place)) }
    {
        if self.scope.len() > locals {
            self.unwind(place, locals)?;
            self.scope.cut(locals);
        }
        Ok(())
    }

    /// Drops the variables down to this many on a path that leaves here.
    pub fn unwind(&mut self, place: Site, locals: usize) -> Result<(), CompileError>
        requires { self.old.code.level.floor ≤ self.old.code.operands }
        ensures written { OnOk result (IsWritten self.old self.new self.old.code.operands) }
        ensures placed { OnOk result (AddsPlaces self.old self.new (here place)) }
    {
        let depth = slot_of(locals)?;
        self.put(place, Op::UnwindTo(depth), 0, 0)
    }
}
