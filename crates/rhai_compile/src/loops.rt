//! The code of loops, and of what leads away.
ghost use Rattle.std.specs.Prelude.{◌≡◌, ◌+◌, ◌-◌, ◌≤◌, OnOk};
ghost use Rattle.rhai_emit.specs.Loops.{count};
ghost use Rattle.rhai_compile.specs.Writes.{Writes};
ghost use Rattle.rhai_emit.specs.Rules.{LeadsAway, IsWritten, Stands, AddsPlaces};
ghost use Rattle.rhai_emit.specs.Places.{both, form_places, here, list_places, optional_places, expr_places};

use crate::coder::Coder;
use grain::Op;
use grain_base::pos::Site;
use rhai_emit::{Emitter, Local, height_with};
use rhai_errors::CompileError;
use rhai_syntax::{Binding, Expr, Form};

impl<F: Fn(&mut Emitter, &Expr, usize, bool) -> Result<(), CompileError>> Coder<F> {
    /// A loop.
    pub(crate) fn repeated(
        &self,
        emitter: &mut Emitter,
        place: Site,
        form: &Form,
        is_wanted: bool,
    ) -> Result<(), CompileError>
        requires rules { Writes (F.pre self.now.writes) (F.post self.now.writes) self.now.depth }
        requires stands { Stands emitter.old }
        ensures written { OnOk result (IsWritten emitter.old emitter.new (emitter.old.code.operands + count is_wanted)) }
        ensures placed { OnOk result (AddsPlaces emitter.old emitter.new
            (both (here place) (form_places form.now))) }
    {
        match form {
            Form::While(condition, body) => {
                self.while_loop(emitter, place, condition, body, is_wanted)
            }
            Form::Loop(body) => self.endless(emitter, place, body, is_wanted),
            Form::Do(body, condition, goes_on) => {
                self.do_loop(emitter, place, body, (condition, *goes_on), is_wanted)
            }
            Form::For(name, counter, items, body) => {
                let locals = emitter.scope.len();
                self.for_loop(emitter, place, (*name, *counter), (items, body), is_wanted)?;
                emitter.leave(place, locals)
            }
            _ => emitter.nothing(place, is_wanted),
        }
    }

    fn while_loop(
        &self,
        emitter: &mut Emitter,
        place: Site,
        condition: &Expr,
        body: &[Expr],
        is_wanted: bool,
    ) -> Result<(), CompileError>
        requires rules { Writes (F.pre self.now.writes) (F.post self.now.writes) self.now.depth }
        requires stands { Stands emitter.old }
        ensures written { OnOk result (IsWritten emitter.old emitter.new (emitter.old.code.operands + count is_wanted)) }
        ensures placed { OnOk result (AddsPlaces emitter.old emitter.new
            (both (here place) (both (expr_places condition.now) (list_places body.now)))) }
    {
        let height = emitter.code.operands();
        let outer = emitter.code.level()?;
        let end = emitter.code.label(height_with(height, is_wanted))?;
        let exit = emitter.code.label(height)?;
        let around = emitter.scope.around;
        let inner = emitter.begin_loop(end, is_wanted, false)?;
        emitter.turn(place, inner.next)?;
        self.expr(emitter, condition, true)?;
        emitter.jump_where(condition.place, false, exit)?;
        self.block(emitter, place, body, false)?;
        emitter.code.jump(place, inner.next, height)?;
        emitter.code.resume(place, height, outer)?;
        emitter.code.bind(exit)?;
        emitter.scope.around = around;
        emitter.nothing(place, is_wanted)?;
        emitter.code.bind(end)
    }

    fn endless(
        &self,
        emitter: &mut Emitter,
        place: Site,
        body: &[Expr],
        is_wanted: bool,
    ) -> Result<(), CompileError>
        requires rules { Writes (F.pre self.now.writes) (F.post self.now.writes) self.now.depth }
        requires stands { Stands emitter.old }
        ensures written { OnOk result (IsWritten emitter.old emitter.new (emitter.old.code.operands + count is_wanted)) }
        ensures placed { OnOk result (AddsPlaces emitter.old emitter.new
            (both (here place) (list_places body.now))) }
    {
        let height = emitter.code.operands();
        let outer = emitter.code.level()?;
        let end = emitter.code.label(height_with(height, is_wanted))?;
        let around = emitter.scope.around;
        let inner = emitter.begin_loop(end, is_wanted, false)?;
        emitter.turn(place, inner.next)?;
        self.block(emitter, place, body, false)?;
        emitter.code.jump(place, inner.next, height)?;
        emitter
            .code
            .resume(place, height_with(height, is_wanted), outer)?;
        emitter.scope.around = around;
        emitter.code.bind(end)
    }

    /// A loop that goes on where the condition after its body is that truth value.
    fn do_loop(
        &self,
        emitter: &mut Emitter,
        place: Site,
        body: &[Expr],
        repeats: (&Expr, bool),
        is_wanted: bool,
    ) -> Result<(), CompileError>
        requires rules { Writes (F.pre self.now.writes) (F.post self.now.writes) self.now.depth }
        requires stands { Stands emitter.old }
        ensures written { OnOk result (IsWritten emitter.old emitter.new (emitter.old.code.operands + count is_wanted)) }
        ensures placed { OnOk result (AddsPlaces emitter.old emitter.new
            (both (here place) (both (list_places body.now) (expr_places repeats.entry.0.now)))) }
    {
        let (condition, goes_on) = repeats;
        let height = emitter.code.operands();
        let outer = emitter.code.level()?;
        let end = emitter.code.label(height_with(height, is_wanted))?;
        let around = emitter.scope.around;
        let inner = emitter.begin_loop(end, is_wanted, false)?;
        let start = emitter.code.label(height)?;
        emitter.turn(place, start)?;
        self.block(emitter, place, body, false)?;
        emitter.bind(inner.next)?;
        self.expr(emitter, condition, true)?;
        emitter.jump_where(condition.place, goes_on, start)?;
        emitter.code.release(outer);
        emitter.scope.around = around;
        emitter.nothing(place, is_wanted)?;
        emitter.code.bind(end)?;
        Ok(())
    }

    /// A loop over the items of an iterator, with its variable and its counter.
    fn for_loop(
        &self,
        emitter: &mut Emitter,
        place: Site,
        names: (Binding, Option<Binding>),
        parts: (&Expr, &[Expr]),
        is_wanted: bool,
    ) -> Result<(), CompileError>
        requires rules { Writes (F.pre self.now.writes) (F.post self.now.writes) self.now.depth }
        requires stands { Stands emitter.old }
        ensures written { OnOk result (IsWritten emitter.old emitter.new (emitter.old.code.operands + count is_wanted)) }
        ensures placed { OnOk result (AddsPlaces emitter.old emitter.new
            (both (here place) (both (expr_places parts.entry.0.now) (list_places parts.entry.1.now)))) }
    {
        let (name, counter) = names;
        let (items, body) = parts;
        let height = emitter.code.operands();
        let outer = emitter.code.level()?;
        let end = emitter.code.label(height_with(height, is_wanted))?;
        let exit = emitter.code.label(height)?;
        self.expr(emitter, items, true)?;
        emitter.code.begin_iterator(items.place)?;
        let counter = emitter.walked(place, counter)?;
        emitter.put(place, Op::Unit, 0, 1)?;
        let slot = emitter.declare(place, Local::variable(name))?;
        let around = emitter.scope.around;
        let inner = emitter.begin_loop(end, is_wanted, true)?;
        emitter.turn(place, inner.next)?;
        emitter.next_item(place, exit, (slot, counter))?;
        self.block(emitter, place, body, false)?;
        emitter.code.jump(place, inner.next, height)?;
        emitter.code.resume(place, height, outer)?;
        emitter.code.bind(exit)?;
        emitter.scope.around = around;
        emitter.nothing(place, is_wanted)?;
        emitter.code.bind(end)
    }

    /// What leads away from here. Code after it is never reached; the value that it would find is counted.
    pub(crate) fn leaving(
        &self,
        emitter: &mut Emitter,
        place: Site,
        form: &Form,
        is_wanted: bool,
    ) -> Result<(), CompileError>
        requires rules { Writes (F.pre self.now.writes) (F.post self.now.writes) self.now.depth }
        requires stands { Stands emitter.old }
        ensures written { OnOk result (IsWritten emitter.old emitter.new (emitter.old.code.operands + count is_wanted)) }
        ensures placed { OnOk result (AddsPlaces emitter.old emitter.new
            (both (here place) (form_places form.now))) }
    {
        let height = emitter.code.operands();
        let outer = emitter.code.level()?;
        self.away(emitter, place, form)?;
        emitter
            .code
            .resume(place, height_with(height, is_wanted), outer)
    }

    fn away(&self, emitter: &mut Emitter, place: Site, form: &Form) -> Result<(), CompileError>
        requires rules { Writes (F.pre self.now.writes) (F.post self.now.writes) self.now.depth }
        requires stands { Stands emitter.old }
        ensures away { OnOk result (LeadsAway emitter.old emitter.new) }
        ensures placed { OnOk result (AddsPlaces emitter.old emitter.new
            (both (here place) (form_places form.now))) }
    {
        match form {
            Form::Return(value) => {
                self.optional(emitter, place, value)?;
                emitter.code.stop(place, Op::Return, 0, 0)
            }
            Form::Throw(Some(value)) => {
                self.expr(emitter, value, true)?;
                emitter.throw(place)
            }
            Form::Throw(None) => emitter.throw_again(place),
            Form::Break(value) => self.broken(emitter, place, value),
            _ => emitter.go_on(place),
        }
    }

    /// Leaves the innermost loop, whose value is given before the operands of the loop go.
    fn broken(
        &self,
        emitter: &mut Emitter,
        place: Site,
        value: &Option<Box<Expr>>,
    ) -> Result<(), CompileError>
        requires rules { Writes (F.pre self.now.writes) (F.post self.now.writes) self.now.depth }
        requires stands { Stands emitter.old }
        ensures away { OnOk result (LeadsAway emitter.old emitter.new) }
        ensures placed { OnOk result (AddsPlaces emitter.old emitter.new
            (both (here place) (optional_places value.now))) }
    {
        let around = emitter.innermost(place)?;
        if around.is_wanted {
            self.optional(emitter, place, value)?;
            return emitter.leave_with(place, around);
        }
        if let Some(value) = value {
            self.expr(emitter, value, false)?;
        }
        emitter.leave_loop(place, around)
    }
}
