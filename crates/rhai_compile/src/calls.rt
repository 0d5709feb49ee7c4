//! The code of calls and closures.
ghost use Rattle.std.specs.Prelude.{◌≡◌, ◌+◌, ◌-◌, ◌≤◌, OnOk};
ghost use Rattle.rhai_compile.specs.Writes.{Writes};
ghost use Rattle.rhai_emit.specs.Rules.{IsWritten, Stands, AddsPlaces};
ghost use Rattle.rhai_emit.specs.Places.{both, here, list_places, expr_places};

use crate::coder::Coder;
use grain::Op;
use grain_base::pos::Site;
use rhai_emit::{CallTarget, Emitter, argc_of, callee_of};
use rhai_errors::{CompileError, Problem, Thing};
use rhai_syntax::Expr;

impl<F: Fn(&mut Emitter, &Expr, usize, bool) -> Result<(), CompileError>> Coder<F> {
    pub(crate) fn call(
        &self,
        emitter: &mut Emitter,
        place: Site,
        name: u32,
        arguments: &[Expr],
    ) -> Result<(), CompileError>
        requires rules { Writes (F.pre self.now.writes) (F.post self.now.writes) self.now.depth }
        requires stands { Stands emitter.old }
        ensures written { OnOk result (IsWritten emitter.old emitter.new (emitter.old.code.operands + 1)) }
        ensures placed { OnOk result (AddsPlaces emitter.old emitter.new
            (both (here place) (list_places arguments.now))) }
    {
        match (emitter.target_of(name, arguments), arguments) {
            (CallTarget::Evaluated, _) => {
                Err(CompileError::new(place, Problem::Unsupported(Thing::Eval)))
            }
            (CallTarget::Defined, _) => emitter.put(place, Op::Bool(true), 0, 1),
            (CallTarget::Shared, [argument]) => self.is_shared(emitter, place, argument),
            (CallTarget::Pointer, [argument]) => {
                self.expr(emitter, argument, true)?;
                emitter.put(place, Op::MakeFnPtr, 1, 1)
            }
            (CallTarget::Called, [pointer, others @ ..]) => {
                self.expr(emitter, pointer, true)?;
                self.all(emitter, others)?;
                emitter.call_pointer(place, argc_of(place, others.len())?, false)
            }
            (CallTarget::Curried, [pointer, others @ ..]) => {
                self.expr(emitter, pointer, true)?;
                self.all(emitter, others)?;
                emitter.curry(place, argc_of(place, others.len())?)
            }
            _ => self.function(emitter, place, name, arguments),
        }
    }

    /// Whether a value is shared. Of a local variable it is the shared value itself that is tested, not what it holds.
    fn is_shared(
        &self,
        emitter: &mut Emitter,
        place: Site,
        argument: &Expr,
    ) -> Result<(), CompileError>
        requires rules { Writes (F.pre self.now.writes) (F.post self.now.writes) self.now.depth }
        requires stands { Stands emitter.old }
        ensures written { OnOk result (IsWritten emitter.old emitter.new (emitter.old.code.operands + 1)) }
        ensures placed { OnOk result (AddsPlaces emitter.old emitter.new
            (both (here place) (expr_places argument.now))) }
    {
        match emitter.slot_of(argument) {
            Some(slot) => emitter.put(argument.place, Op::LoadShared(slot), 0, 1)?,
            None => self.expr(emitter, argument, true)?,
        }
        emitter.put(place, Op::IsShared, 1, 1)
    }

    /// A call of a function of the script or of the host. The host may change a local variable that is its first argument.
    fn function(
        &self,
        emitter: &mut Emitter,
        place: Site,
        name: u32,
        arguments: &[Expr],
    ) -> Result<(), CompileError>
        requires rules { Writes (F.pre self.now.writes) (F.post self.now.writes) self.now.depth }
        requires stands { Stands emitter.old }
        ensures written { OnOk result (IsWritten emitter.old emitter.new (emitter.old.code.operands + 1)) }
        ensures placed { OnOk result (AddsPlaces emitter.old emitter.new
            (both (here place) (list_places arguments.now))) }
    {
        let argc = argc_of(place, arguments.len())?;
        if !emitter.has_plain_function(name, arguments.len())
            && let Some((first, others)) = arguments.split_first()
            && let Some(slot) = emitter.changeable_slot_of(first)
        {
            self.all(emitter, others)?;
            return emitter.call_on(place, name, slot, argc);
        }
        self.all(emitter, arguments)?;
        emitter.call(place, name, argc)
    }

    /// A method of the value on top, to which its arguments are added.
    pub(crate) fn method(
        &self,
        emitter: &mut Emitter,
        place: Site,
        name: u32,
        arguments: &[Expr],
    ) -> Result<(), CompileError>
        requires rules { Writes (F.pre self.now.writes) (F.post self.now.writes) self.now.depth }
        requires stands { Stands emitter.old }
        requires room { emitter.old.code.level.floor + 1 ≤ emitter.old.code.operands }
        ensures written { OnOk result (IsWritten emitter.old emitter.new (emitter.old.code.operands)) }
        ensures placed { OnOk result (AddsPlaces emitter.old emitter.new
            (both (here place) (list_places arguments.now))) }
    {
        self.all(emitter, arguments)?;
        let with_value = argc_of(place, arguments.len().saturating_add(1))?;
        let argc = with_value.saturating_sub(1);
        match callee_of(emitter.pools.names.get(name)) {
            CallTarget::Called => emitter.call_pointer(place, argc, argc > 0),
            CallTarget::Curried => emitter.curry(place, argc),
            _ => emitter.call(place, name, with_value),
        }
    }
}
