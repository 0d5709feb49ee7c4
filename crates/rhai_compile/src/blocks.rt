//! The code of statements, and of expressions that have blocks.
ghost use Rattle.std.specs.Prelude.{◌≡◌, ◌+◌, ◌-◌, ◌≤◌, OnOk, Some, slice_get};
ghost use Rattle.grain_builder.specs.Unfinished.{spot};
ghost use Rattle.rhai_emit.specs.Loops.{count};
ghost use Rattle.rhai_compile.specs.Writes.{Writes};
ghost use Rattle.rhai_emit.specs.Rules.{IsWritten, Stands, AddsPlaces};
ghost use Rattle.rhai_emit.specs.Places.{both, branch_places, branches_places, form_places, here, list_places, optional_places};

use crate::coder::Coder;
use grain::Op;
use grain_base::pos::Site;
use rhai_emit::{Emitter, Local, height_with};
use rhai_errors::CompileError;
use rhai_syntax::{Branch, Catch, Expr, Form};

impl<F: Fn(&mut Emitter, &Expr, usize, bool) -> Result<(), CompileError>> Coder<F> {
    /// What gives a value only if it is wanted.
    pub(crate) fn statement(
        &self,
        emitter: &mut Emitter,
        place: Site,
        form: &Form,
        is_wanted: bool,
    ) -> Result<(), CompileError>
        requires rules { Writes (F.pre self.now.writes) (F.post self.now.writes) self.now.depth }
        requires stands { Stands emitter.old }
        ensures written { OnOk result (IsWritten emitter.old emitter.new (emitter.old.code.operands + count is_wanted)) }
        ensures placed { OnOk result (AddsPlaces emitter.old emitter.new
            (both (here place) (form_places form.now))) }
    {
        match form {
            Form::Block(statements) => self.block(emitter, place, statements, is_wanted),
            Form::If(branches, otherwise) => {
                self.choice(emitter, place, branches, otherwise, is_wanted)
            }
            Form::Switch(subject, arms) => self.switch(emitter, place, subject, arms, is_wanted),
            Form::While(_, _) | Form::Loop(_) | Form::Do(_, _, _) | Form::For(_, _, _, _) => {
                self.repeated(emitter, place, form, is_wanted)
            }
            Form::Return(_) | Form::Throw(_) | Form::Break(_) | Form::Continue => {
                self.leaving(emitter, place, form, is_wanted)
            }
            form => {
                self.done(emitter, place, form)?;
                emitter.nothing(place, is_wanted)
            }
        }
    }

    /// What gives nothing.
    fn done(&self, emitter: &mut Emitter, place: Site, form: &Form) -> Result<(), CompileError>
        requires rules { Writes (F.pre self.now.writes) (F.post self.now.writes) self.now.depth }
        requires stands { Stands emitter.old }
        ensures written { OnOk result (IsWritten emitter.old emitter.new (emitter.old.code.operands)) }
        ensures placed { OnOk result (AddsPlaces emitter.old emitter.new
            (both (here place) (form_places form.now))) }
    {
        match form {
            Form::Let(name, is_const, value) => {
                let local = Local {
                    name: name.name,
                    place: name.place,
                    is_const: *is_const,
                };
                self.optional(emitter, place, value)?;
                let _slot = emitter.declare(place, local)?;
                Ok(())
            }
            Form::Assign(target, operator, value) => {
                self.assignment(emitter, place, target, *operator, value)
            }
            Form::Try(body, catch, catching) => self.tried(emitter, place, body, *catch, catching),
            _ => Ok(()),
        }
    }

    /// Statements, of which the last gives the value. Their variables stay.
    pub(crate) fn statements(
        &self,
        emitter: &mut Emitter,
        place: Site,
        statements: &[Expr],
        is_wanted: bool,
    ) -> Result<(), CompileError>
        requires rules { Writes (F.pre self.now.writes) (F.post self.now.writes) self.now.depth }
        requires stands { Stands emitter.old }
        ensures written { OnOk result (IsWritten emitter.old emitter.new (emitter.old.code.operands + count is_wanted)) }
        ensures placed { OnOk result (AddsPlaces emitter.old emitter.new
            (both (here place) (list_places statements.now))) }
    {
        let Some((last, others)) = statements.split_last() else {
            return emitter.nothing(place, is_wanted);
        };
        for statement in others {
            self.expr(emitter, statement, false)?;
        }
        self.expr(emitter, last, is_wanted)
    }

    /// Statements, whose variables are dropped after them.
    pub(crate) fn block(
        &self,
        emitter: &mut Emitter,
        place: Site,
        statements: &[Expr],
        is_wanted: bool,
    ) -> Result<(), CompileError>
        requires rules { Writes (F.pre self.now.writes) (F.post self.now.writes) self.now.depth }
        requires stands { Stands emitter.old }
        ensures written { OnOk result (IsWritten emitter.old emitter.new (emitter.old.code.operands + count is_wanted)) }
        ensures placed { OnOk result (AddsPlaces emitter.old emitter.new
            (both (here place) (list_places statements.now))) }
    {
        let locals = emitter.scope.len();
        self.statements(emitter, place, statements, is_wanted)?;
        emitter.leave(place, locals)
    }

    fn choice(
        &self,
        emitter: &mut Emitter,
        place: Site,
        branches: &[Branch],
        otherwise: &[Expr],
        is_wanted: bool,
    ) -> Result<(), CompileError>
        requires rules { Writes (F.pre self.now.writes) (F.post self.now.writes) self.now.depth }
        requires stands { Stands emitter.old }
        ensures written { OnOk result (IsWritten emitter.old emitter.new (emitter.old.code.operands + count is_wanted)) }
        ensures placed { OnOk result (AddsPlaces emitter.old emitter.new
            (both (here place) (both (branches_places branches.now) (list_places otherwise.now)))) }
    {
        let height = emitter.code.operands();
        let end = emitter.code.label(height_with(height, is_wanted))?;
        for branch in branches {
            self.branch(emitter, branch, end, is_wanted)?;
        }
        self.block(emitter, place, otherwise, is_wanted)?;
        emitter.code.bind(end)
    }

    /// A condition and its block, which leads to the end.
    fn branch(
        &self,
        emitter: &mut Emitter,
        branch: &Branch,
        end: u32,
        is_wanted: bool,
    ) -> Result<(), CompileError>
        requires rules { Writes (F.pre self.now.writes) (F.post self.now.writes) self.now.depth }
        requires stands { Stands emitter.old }
        requires there { slice_get emitter.old.code.labels end
            ≡ Some (spot (emitter.old.code.operands + count is_wanted) emitter.old.code.level) }
        ensures written { OnOk result (IsWritten emitter.old emitter.new (emitter.old.code.operands)) }
        ensures placed { OnOk result (AddsPlaces emitter.old emitter.new
            (branch_places branch.now)) }
    {
        let place = branch.condition.place;
        let height = emitter.code.operands();
        let next = emitter.code.label(height)?;
        self.expr(emitter, &branch.condition, true)?;
        emitter.jump_where(place, false, next)?;
        self.block(emitter, place, &branch.body, is_wanted)?;
        emitter.code.jump(place, end, height)?;
        emitter.code.bind(next)
    }

    /// The value, or unit if there is none.
    pub(crate) fn optional(
        &self,
        emitter: &mut Emitter,
        place: Site,
        value: &Option<Box<Expr>>,
    ) -> Result<(), CompileError>
        requires rules { Writes (F.pre self.now.writes) (F.post self.now.writes) self.now.depth }
        requires stands { Stands emitter.old }
        ensures written { OnOk result (IsWritten emitter.old emitter.new (emitter.old.code.operands + 1)) }
        ensures placed { OnOk result (AddsPlaces emitter.old emitter.new
            (both (here place) (optional_places value.now))) }
    {
        match value {
            Some(value) => self.expr(emitter, value, true),
            None => emitter.put(place, Op::Unit, 0, 1),
        }
    }

    fn tried(
        &self,
        emitter: &mut Emitter,
        place: Site,
        body: &[Expr],
        catch: Catch,
        catching: &[Expr],
    ) -> Result<(), CompileError>
        requires rules { Writes (F.pre self.now.writes) (F.post self.now.writes) self.now.depth }
        requires stands { Stands emitter.old }
        ensures written { OnOk result (IsWritten emitter.old emitter.new (emitter.old.code.operands)) }
        ensures placed { OnOk result (AddsPlaces emitter.old emitter.new
            (both (here place) (both (list_places body.now) (list_places catching.now)))) }
    {
        let height = emitter.code.operands();
        let end = emitter.code.label(height)?;
        let fault = emitter.fault_name(catch)?;
        self.guarded(emitter, place, body, fault, end)?;
        self.catching(emitter, place, (catch, fault), catching)?;
        emitter.code.bind(end)
    }

    /// Statements whose faults are caught; if there is none they lead to the end. Code after this is that of the `catch`.
    fn guarded(
        &self,
        emitter: &mut Emitter,
        place: Site,
        body: &[Expr],
        fault: Option<u32>,
        end: u32,
    ) -> Result<(), CompileError>
        requires rules { Writes (F.pre self.now.writes) (F.post self.now.writes) self.now.depth }
        requires stands { Stands emitter.old }
        requires there { slice_get emitter.old.code.labels end
            ≡ Some (spot emitter.old.code.operands emitter.old.code.level) }
        ensures written { OnOk result (IsWritten emitter.old emitter.new emitter.old.code.operands) }
        ensures placed { OnOk result (AddsPlaces emitter.old emitter.new
            (both (here place) (list_places body.now))) }
    {
        let height = emitter.code.operands();
        let outer = emitter.code.level()?;
        let around = outer.clone()?;
        let target = emitter.code.catch_label()?;
        emitter.arm(place, target, fault)?;
        let inner = emitter.code.level()?;
        self.block(emitter, place, body, false)?;
        emitter.code.disarm(place, outer)?;
        emitter.code.jump(place, end, height)?;
        emitter.code.resume(place, height, inner)?;
        emitter.code.bind(target)?;
        let locals = emitter.scope.len();
        emitter.unwind(place, locals)?;
        emitter.code.disarm(place, around)?;
        Ok(())
    }

    /// What a `catch` does with the fault that it caught.
    fn catching(
        &self,
        emitter: &mut Emitter,
        place: Site,
        caught: (Catch, Option<u32>),
        body: &[Expr],
    ) -> Result<(), CompileError>
        requires rules { Writes (F.pre self.now.writes) (F.post self.now.writes) self.now.depth }
        requires stands { Stands emitter.old }
        ensures written { OnOk result (IsWritten emitter.old emitter.new (emitter.old.code.operands)) }
        ensures placed { OnOk result (AddsPlaces emitter.old emitter.new
            (both (here place) (list_places body.now))) }
    {
        let (catch, fault) = caught;
        let locals = emitter.scope.len();
        let around = emitter.scope.caught;
        emitter.caught(place, catch, fault)?;
        self.statements(emitter, place, body, false)?;
        emitter.scope.caught = around;
        emitter.leave(place, locals)
    }
}
