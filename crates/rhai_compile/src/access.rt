//! The code of chains: parts of values, methods, and assignments.
ghost use Rattle.std.specs.Prelude.{◌≡◌, true, ◌+◌, ◌-◌, ◌<◌, ◌≤◌, IfOk, OnOk, cond, length, nat_lt};
ghost use Rattle.grain_pools.specs.Chain.{consumed, roots_on_stack};
ghost use Rattle.rhai_emit.specs.Loops.{count};
ghost use Rattle.rhai_compile.specs.Writes.{Writes};
ghost use Rattle.rhai_emit.specs.Rules.{IsWritten, Stands, AddsPlaces};
ghost use Rattle.rhai_emit.specs.Places.{both, pass, here, list_places, expr_places, step_places, steps_places};

use crate::coder::Coder;
use grain::{Chain, Flags, Op, Root, Step, StepFlags, Tail};
use grain_base::pos::Site;
use rhai_emit::{Emitter, argc_of, before_optional, len_of, position};
use rhai_errors::{CompileError, Problem};
use rhai_lexer::Operator;
use rhai_syntax::{Access, Expr, Form, Part};

impl<F: Fn(&mut Emitter, &Expr, usize, bool) -> Result<(), CompileError>> Coder<F> {
    /// A value and steps from it. They are one chain, except for methods that are calls by themselves: what comes before such a
    /// method is computed first, and the steps after it begin at its result. From a step on that may end the chain early they are
    /// one chain to the end.
    pub(crate) fn access(
        &self,
        emitter: &mut Emitter,
        place: Site,
        root: &Expr,
        steps: &[Access],
    ) -> Result<(), CompileError>
        requires rules { Writes (F.pre self.now.writes) (F.post self.now.writes) self.now.depth }
        requires stands { Stands emitter.old }
        ensures written { OnOk result (IsWritten emitter.old emitter.new (emitter.old.code.operands + 1)) }
        ensures placed { OnOk result (AddsPlaces emitter.old emitter.new
            (both (here place) (both (expr_places root.now) (steps_places steps.now)))) }
    {
        let mut from = 0;
        for index in 0..before_optional(steps) {
            from = self.turn(emitter, place, root, steps, (from, index))?;
        }
        let rest = part(steps, from, steps.len());
        self.read(emitter, place, root, rest, from > 0)
    }

    /// Ends the chain at the step at an index if that has to be. The steps before the first place are done; the result is the
    /// place up to which they are done now.
    fn turn(
        &self,
        emitter: &mut Emitter,
        place: Site,
        root: &Expr,
        steps: &[Access],
        at: (usize, usize),
    ) -> Result<usize, CompileError>
        requires rules { Writes (F.pre self.now.writes) (F.post self.now.writes) self.now.depth }
        requires stands { Stands emitter.old }
        requires room { emitter.old.code.level.floor + count (nat_lt 0 at.0) ≤ emitter.old.code.operands }
        requires within { at.1 < length steps.now }
        ensures written { IfOk result (λ done. IsWritten emitter.old emitter.new
            (emitter.old.code.operands - count (nat_lt 0 at.0) + count (nat_lt 0 done))) }
        ensures placed { OnOk result (AddsPlaces emitter.old emitter.new
            (both (here place) (both (expr_places root.now) (steps_places steps.now)))) }
    {
        let (from, index) = at;
        let step = step_at(steps, index);
        let before = part(steps, from, index);
        if let Part::Method(name, arguments) = &step.part
            && !step.is_optional
            && emitter.is_call(root, (from, index), *name, arguments.len())
        {
            let method = (step.place, *name);
            self.method_of(emitter, place, root, (before, from > 0), method, arguments)?;
            return Ok(index + 1);
        }
        if !ends_chain(emitter, step) {
            return Ok(from);
        }
        let upto = part(steps, from, index + 1);
        self.read(emitter, place, root, upto, from > 0)?;
        Ok(index + 1)
    }

    /// A method of what these steps reach, from the root or from the value on top.
    fn method_of(
        &self,
        emitter: &mut Emitter,
        place: Site,
        root: &Expr,
        before: (&[Access], bool),
        method: (Site, u32),
        arguments: &[Expr],
    ) -> Result<(), CompileError>
        requires rules { Writes (F.pre self.now.writes) (F.post self.now.writes) self.now.depth }
        requires stands { Stands emitter.old }
        requires room { emitter.old.code.level.floor + count before.1 ≤ emitter.old.code.operands }
        ensures written { OnOk result (IsWritten emitter.old emitter.new (emitter.old.code.operands - count before.entry.1 + 1)) }
        ensures placed { OnOk result (AddsPlaces emitter.old emitter.new
            (both (here place) (both (expr_places root.now) (both (steps_places before.entry.0.now) (both (here method.0) (list_places arguments.now)))))) }
    {
        let (steps, is_on_top) = before;
        let (at, name) = method;
        if steps.is_empty()
            && !is_on_top
            && !arguments.is_empty()
            && emitter.is_called(name)
            && let Some(receiver) = emitter.receiver_of(root)
        {
            self.all(emitter, arguments)?;
            let argc = argc_of(at, arguments.len() - 1)?;
            return emitter.call_pointer_on(at, receiver, argc);
        }
        if steps.is_empty()
            && !is_on_top
            && !emitter.is_of_pointers(name)
            && let Some(slot) = emitter.changeable_slot_of(root)
        {
            self.all(emitter, arguments)?;
            let argc = argc_of(at, arguments.len().saturating_add(1))?;
            return emitter.call_on(at, name, slot, argc);
        }
        self.read(emitter, place, root, steps, is_on_top)?;
        self.method(emitter, at, name, arguments)
    }

    /// What steps reach, from the root or from the value on top.
    fn read(
        &self,
        emitter: &mut Emitter,
        place: Site,
        root: &Expr,
        steps: &[Access],
        is_on_top: bool,
    ) -> Result<(), CompileError>
        requires rules { Writes (F.pre self.now.writes) (F.post self.now.writes) self.now.depth }
        requires stands { Stands emitter.old }
        requires room { emitter.old.code.level.floor + count is_on_top ≤ emitter.old.code.operands }
        ensures written { OnOk result (IsWritten emitter.old emitter.new (emitter.old.code.operands - count is_on_top + 1)) }
        ensures placed { OnOk result (AddsPlaces emitter.old emitter.new
            (both (here place) (both (expr_places root.now) (steps_places steps.now)))) }
    {
        if steps.is_empty() {
            if is_on_top {
                return Ok(());
            }
            return self.expr(emitter, root, true);
        }
        let height = emitter.code.operands();
        let steps = self.steps(emitter, steps)?;
        let operands = len_of(place, emitter.code.operands() - height)?;
        if is_on_top {
            emitter.raise(place, operands)?;
            return emitter.chain(place, reading(Root::Temporary, steps, operands));
        }
        let root = self.root(emitter, root)?;
        emitter.chain(place, reading(root, steps, operands))
    }

    /// An assignment to a variable or to a part of one.
    pub(crate) fn assignment(
        &self,
        emitter: &mut Emitter,
        place: Site,
        target: &Expr,
        operator: Option<Operator>,
        value: &Expr,
    ) -> Result<(), CompileError>
        requires rules { Writes (F.pre self.now.writes) (F.post self.now.writes) self.now.depth }
        requires stands { Stands emitter.old }
        ensures written { OnOk result (IsWritten emitter.old emitter.new (emitter.old.code.operands)) }
        ensures placed { OnOk result (AddsPlaces emitter.old emitter.new
            (both (here place) (both (expr_places target.now) (expr_places value.now)))) }
    {
        let op = emitter.op_assignment(operator)?;
        match &target.form {
            Form::Name(name) => {
                self.expr(emitter, value, true)?;
                emitter.assign(target.place, place, *name, op)
            }
            Form::This => {
                emitter.put(target.place, Op::RequireThis, 0, 0)?;
                self.expr(emitter, value, true)?;
                emitter.put(place, Op::AssignThis { op }, 1, 0)
            }
            Form::Access(root, steps) => {
                emitter.check_variable(place, root)?;
                self.assign_along(emitter, place, root, steps, (op, value))
            }
            _ => Err(CompileError::new(place, Problem::NotAssignable)),
        }
    }

    fn assign_along(
        &self,
        emitter: &mut Emitter,
        place: Site,
        root: &Expr,
        steps: &[Access],
        assigned: (Option<u32>, &Expr),
    ) -> Result<(), CompileError>
        requires rules { Writes (F.pre self.now.writes) (F.post self.now.writes) self.now.depth }
        requires stands { Stands emitter.old }
        ensures written { OnOk result (IsWritten emitter.old emitter.new (emitter.old.code.operands)) }
        ensures placed { OnOk result (AddsPlaces emitter.old emitter.new
            (both (here place) (both (both (expr_places root.now) (steps_places steps.now)) (expr_places assigned.entry.1.now)))) }
    {
        let (op, value) = assigned;
        let height = emitter.code.operands();
        let steps = self.steps(emitter, steps)?;
        let operands = len_of(place, emitter.code.operands() - height)?;
        let root = self.root(emitter, root)?;
        self.expr(emitter, value, true)?;
        let chain = Chain {
            root,
            steps,
            tail: Tail::Assign { op },
            operands,
        };
        emitter.chain(place, chain)?;
        emitter.put(place, Op::Pop, 1, 0)
    }

    /// The steps of a chain, whose operands are given here.
    fn steps(&self, emitter: &mut Emitter, steps: &[Access]) -> Result<Vec<Step>, CompileError>
        requires rules { Writes (F.pre self.now.writes) (F.post self.now.writes) self.now.depth }
        requires stands { Stands emitter.old }
        ensures written { OnOk result (IsWritten emitter.old emitter.new emitter.new.code.operands) }
        ensures more { OnOk result (emitter.old.code.operands ≤ emitter.new.code.operands) }
        ensures placed { OnOk result (AddsPlaces emitter.old emitter.new (steps_places steps.now)) }
    {
        let height = emitter.code.operands();
        let mut found = Vec::new(emitter.alloc);
        for step in steps {
            let operand = len_of(step.place, emitter.code.operands() - height)?;
            found.push(self.step(emitter, step, operand)?)?;
        }
        Ok(found)
    }

    /// A step, whose first operand is at that place.
    fn step(&self, emitter: &mut Emitter, step: &Access, operand: u16) -> Result<Step, CompileError>
        requires rules { Writes (F.pre self.now.writes) (F.post self.now.writes) self.now.depth }
        requires stands { Stands emitter.old }
        ensures written { OnOk result (IsWritten emitter.old emitter.new emitter.new.code.operands) }
        ensures more { OnOk result (emitter.old.code.operands ≤ emitter.new.code.operands) }
        ensures placed { OnOk result (AddsPlaces emitter.old emitter.new (step_places step.now)) }
    {
        let flags = if step.is_optional {
            StepFlags::SKIP_IF_UNIT
        } else {
            StepFlags::empty()
        };
        match &step.part {
            Part::Index(index) => {
                self.expr(emitter, index, true)?;
                Ok(Step::Index {
                    operand,
                    flags,
                    pos: position(index.place),
                    bracket: position(step.place),
                })
            }
            Part::Property(name) => emitter.property(step.place, *name, flags),
            Part::Method(name, arguments) => {
                self.all(emitter, arguments)?;
                Ok(Step::Method {
                    name: *name,
                    argc: argc_of(step.place, arguments.len())?,
                    operand,
                    flags,
                    pos: position(step.place),
                })
            }
        }
    }

    /// Where a chain begins, whose value is given here if it is no variable. Of a constant it is a copy, so that no method
    /// changes the constant.
    fn root(&self, emitter: &mut Emitter, root: &Expr) -> Result<Root, CompileError>
        requires rules { Writes (F.pre self.now.writes) (F.post self.now.writes) self.now.depth }
        requires stands { Stands emitter.old }
        ensures written { IfOk result (λ r. IsWritten emitter.old emitter.new (emitter.old.code.operands + cond (roots_on_stack r) 1 0)) }
        ensures placed { OnOk result (AddsPlaces emitter.old emitter.new (expr_places root.now)) }
    {
        if emitter.is_constant(root) {
            self.expr(emitter, root, true)?;
            return Ok(Root::Temporary);
        }
        let pos = position(root.place);
        match &root.form {
            Form::Name(name) => match emitter.find(root.place, *name)? {
                Some(found) => Ok(Root::Local {
                    slot: found.slot,
                    name: *name,
                }),
                None => Ok(Root::Named { name: *name, pos }),
            },
            Form::This => Ok(Root::This { pos }),
            _ => {
                self.expr(emitter, root, true)?;
                Ok(Root::Temporary)
            }
        }
    }
}

/// The step with this index.
fn step_at(steps: &[Access], index: usize) -> &Access
    requires { index < length steps.now }
    ensures { (test : _) → pass test (steps_places steps.now) ≡ true
        → pass test (step_places result.now) ≡ true }
{
    &steps[index]
}

/// The steps from one index to another, or none if there are fewer.
fn part(steps: &[Access], from: usize, to: usize) -> &[Access]
    ensures { (test : _) → pass test (steps_places steps.now) ≡ true
        → pass test (steps_places result.now) ≡ true }
{
    steps.get(from..to).unwrap_or_default()
}

/// A chain that reads.
fn reading(root: Root, steps: Vec<Step>, operands: u16) -> Chain
    ensures { consumed result ≡ operands + cond (roots_on_stack root) 1 0 }
{
    Chain {
        root,
        steps,
        tail: Tail::Read,
        operands,
    }
}

/// Whether a chain ends with the step: with a method of the script, which the machine calls only at the end of an operation.
fn ends_chain(emitter: &Emitter, step: &Access) -> bool {
    match &step.part {
        Part::Method(name, arguments) => {
            !step.is_optional && emitter.has_function(*name, arguments.len())
        }
        _ => false,
    }
}
