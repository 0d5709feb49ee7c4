//! Chains.
ghost use Rattle.std.specs.Prelude.{◌≡◌, ◌+◌, ◌-◌, ◌≤◌, OnOk, length};
ghost use Rattle.grain_pools.specs.Chain.{consumed};
ghost use Rattle.rhai_emit.specs.Rules.{IsWritten, AddsPlaces};
ghost use Rattle.rhai_emit.specs.Places.{here};

use crate::emitter::Emitter;
use crate::positions::position;
use crate::writing::argc_of;
use grain_base::pos::Site;
use grain_code::Op;
use grain_pools::{Chain, Step, StepFlags};
use rhai_errors::{CompileError, Problem};
use rhai_lexer::Operator;
use rhai_syntax::{Access, Expr, Form};

impl Emitter {
    /// Whether a method is a call by itself: one of function pointers, one of the host on a local variable itself, and one of the
    /// host on a value that is no part of a variable. `at` has where its chain begins and where the method is.
    pub fn is_call(&self, root: &Expr, at: (usize, usize), name: u32, argc: usize) -> bool {
        let (from, index) = at;
        if self.is_of_pointers(name) {
            return true;
        }
        if self.has_function(name, argc) {
            return false;
        }
        if from == 0 && is_variable(&root.form) && !self.is_constant(root) {
            return index == 0 && self.slot_of(root).is_some();
        }
        !self.has_plain_function(name, argc.saturating_add(1))
    }

    /// Moves the value below this many operands above them.
    pub fn raise(&mut self, place: Site, operands: u16) -> Result<(), CompileError>
        requires { self.old.code.level.floor + operands + 1 ≤ self.old.code.operands }
        ensures written { OnOk result (IsWritten self.old self.new self.old.code.operands) }
        ensures placed { OnOk result (AddsPlaces self.old self.new (here place)) }
    {
        let depth = argc_of(place, usize::from(operands))?;
        let turned = usize::from(depth) + 1;
        'turns: for _turn in 0..operands {
            self.put(place, Op::Rotate(depth), turned, turned)?;
        }
        Ok(())
    }

    /// A chain, which takes its operands, its root and what it assigns, and gives one.
    pub fn chain(&mut self, place: Site, chain: Chain) -> Result<(), CompileError>
        requires { self.old.code.level.floor + consumed chain ≤ self.old.code.operands }
        ensures written { OnOk result (IsWritten self.old self.new (self.old.code.operands - consumed chain + 1)) }
        ensures placed { OnOk result (AddsPlaces self.old self.new (here place)) }
    {
        self.code.chain(place, chain)
    }

    /// The step to a property, with the names of the functions that read and write it.
    pub fn property(
        &mut self,
        place: Site,
        name: u32,
        flags: StepFlags,
    ) -> Result<Step, CompileError>
        ensures code { self.new.code ≡ self.old.code }
        ensures scope { self.new.scope ≡ self.old.scope }
    {
        Ok(Step::Property {
            name,
            getter: self.pools.joined("get$", name)?,
            setter: self.pools.joined("set$", name)?,
            flags,
            pos: position(place),
        })
    }

    /// The index of the op-assignment of an operator.
    pub fn op_assignment(&mut self, operator: Option<Operator>) -> Result<Option<u32>, CompileError>
        ensures code { self.new.code ≡ self.old.code }
        ensures scope { self.new.scope ≡ self.old.scope }
    {
        match operator {
            Some(operator) => Ok(Some(self.pools.assign_op(operator)?)),
            None => Ok(None),
        }
    }

    /// A constant isn't assigned to, nor its parts.
    pub fn check_variable(&self, place: Site, root: &Expr) -> Result<(), CompileError> {
        match &root.form {
            Form::Name(name) => match self.find(root.place, *name)? {
                Some(found) if found.is_const => {
                    Err(CompileError::new(place, Problem::ConstantAssigned))
                }
                _ => Ok(()),
            },
            _ => Ok(()),
        }
    }
}

/// The number of steps before the first one that ends the chain early at a unit, or of all steps.
pub fn before_optional(steps: &[Access]) -> usize
    ensures { result ≤ length steps.now }
{
    for index in 0..steps.len() {
        if steps[index].is_optional {
            return index;
        }
    }
    steps.len()
}

/// Whether it is a variable, to whose parts a chain writes back.
fn is_variable(form: &Form) -> bool {
    match form {
        Form::Name(_) | Form::This => true,
        _ => false,
    }
}
