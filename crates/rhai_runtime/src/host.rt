//! The script as a host of the machine.
ghost use Rattle.std.specs.Prelude.{◌≡◌, IfErr, IfOk, length};
ghost use Rattle.std.specs.List.{Contains};
ghost use Rattle.grain_rules.specs.Code.{switch_targets};
ghost use Rattle.grain_machine.specs.Asked.{IsAsked, IsRequested};
ghost use Rattle.grain_machine.specs.Reply.{NamesFunction};
ghost use Rattle.rhai_runtime.specs.Asked.{asked_of};

use crate::script::Script;
use crate::world::World;
use grain_machine::{CallError, Host, Reply, Request, dispatch};
use grain_pools::Switch;
use rhai_chains::{Fault, OpError};
use rhai_values::{Cause, Value, Walk, constant_of};

impl<W: World + Drop> Script<W> {
    /// The fault of an operation that fails for this cause.
    fn fault(&mut self, request: &Request<'_>, cause: Cause) -> Fault
        ensures { result.at ≡ request.now.at }
    {
        self.failed_in(request, OpError::from(cause))
    }

    /// The fault of an operation that fails so. Its position is looked up here, since a `catch` may bind it and has no program.
    #[cold]
    fn failed_in(&mut self, request: &Request<'_>, error: OpError) -> Fault
        ensures { result.at ≡ request.now.at }
    {
        self.failed(request.at, error.located(request.program, request.at))
    }

    /// The fault of the operation at an address, which fails so.
    #[cold]
    pub(crate) fn failed(&mut self, at: usize, error: OpError) -> Fault
        ensures at { result.at ≡ at }
        ensures asked { asked_of self.new ≡ asked_of self.old }
    {
        self.at = at;
        self.begin_fault();
        let OpError { cause, step } = error;
        Fault { cause, at, step }
    }

    /// What an operation gives, if nothing went wrong before and the limits allow it.
    #[inline(never)]
    fn reply(
        &mut self,
        request: &Request<'_>,
        operands: &mut [Value],
    ) -> Result<Reply<Value>, OpError>
        ensures { IfOk result (NamesFunction request.now.program.now) }
    {
        self.raise_pending()?;
        let reply = self.answer(request, operands)?;
        if let Reply::Value(value) = &reply {
            self.allowed(value)?;
        }
        Ok(reply)
    }

    /// The next item of a walk, and how many came before it in a slot.
    #[inline(never)]
    fn next_item(
        &mut self,
        request: &Request<'_>,
        walk: &mut Walk,
        counter: Option<u16>,
    ) -> Result<Option<Value>, Fault>
        ensures { IfErr result (λ fault. fault.at ≡ request.now.at) }
    {
        let next = match walk.next_item() {
            Ok(next) => next,
            Err(cause) => return Err(self.fault(request, cause)),
        };
        let Some((item, count)) = next else {
            return Ok(None);
        };
        if let Some(slot) = counter
            && let Err(cause) = self.variables.set_local(slot, Value::Int(count))
        {
            return Err(self.fault(request, cause));
        }
        Ok(Some(item))
    }

    /// Does an operation that gives no value, if nothing went wrong before.
    #[inline(never)]
    fn done(&mut self, request: &Request<'_>, operands: &mut [Value]) -> Result<(), Cause> {
        self.raise_pending()?;
        self.act(request, operands)
    }
}

impl<W: World + Drop> Host for Script<W> {
    type Value = Value;

    type Iterator = Walk;

    type Fault = Fault;

    fn unit(&mut self) -> Value {
        Value::Unit
    }

    fn boolean(&mut self, value: bool) -> Value {
        Value::Bool(value)
    }

    fn began(&mut self) {
        self.begin_run();
    }

    #[inline(always)]
    fn unwind_to(&mut self, depth: u16) {
        self.variables.unwind_to(depth);
    }

    #[inline(always)]
    fn quick_give(&mut self, request: &Request<'_>, operands: &[Value]) -> Option<Value> {
        let value = self.plain_answer(request, operands)?;
        self.at = request.at;
        Some(value)
    }

    #[inline(always)]
    fn quick_take(&mut self, request: &Request<'_>, operands: &[Value]) -> bool {
        let is_done = self.plain_act(request, operands);
        if is_done {
            self.at = request.at;
        }
        is_done
    }

    #[inline(always)]
    fn quick_truth(&mut self, value: &Value) -> Option<bool> {
        match value {
            Value::Bool(value) => Some(*value),
            _ => None,
        }
    }

    #[inline(always)]
    fn quick_next(&mut self, walk: &Walk, counter: Option<u16>) -> Option<Value> {
        if counter.is_some() {
            return None;
        }
        walk.plain_item()
    }

    #[inline(always)]
    fn went_on(&mut self, walk: &mut Walk) {
        walk.go_past();
    }

    #[inline(always)]
    fn needs_drop(&self, value: &Value) -> bool {
        !value.is_plain()
    }

    /// Its fault has the address of the operation.
    #[inline(always)]
    fn give(&mut self, request: &Request<'_>, operands: &mut [Value]) -> Result<Reply<Value>, Fault>
        ensures names { IfOk result (NamesFunction request.now.program.now) }
        ensures at { IfErr result (λ fault. fault.at ≡ request.now.at) }
    {
        self.at = request.at;
        match self.reply(request, operands) {
            Ok(reply) => Ok(reply),
            Err(error) => Err(self.failed_in(request, error)),
        }
    }

    fn entered(&mut self, _: usize) {
        self.entered = self.entered.saturating_add(1);
        if self.is_failing() {
            self.end_fault();
        }
    }

    fn left(&mut self) {
        self.entered = self.entered.saturating_sub(1);
        self.ended();
    }

    fn refused(&mut self, _: usize, cause: CallError) -> Fault {
        self.ended();
        let cause = match cause {
            CallError::TooDeep => Cause::TooDeep,
            CallError::OutOfMemory => Cause::OutOfMemory,
        };
        self.failed(self.at, OpError::from(cause))
    }

    /// Its fault has the address of the operation.
    #[inline(always)]
    fn take(&mut self, request: &Request<'_>, operands: &mut [Value]) -> Result<(), Fault>
        ensures { IfErr result (λ fault. fault.at ≡ request.now.at) }
    {
        self.at = request.at;
        match self.done(request, operands) {
            Ok(()) => Ok(()),
            Err(cause) => Err(self.fault(request, cause)),
        }
    }

    /// Its fault has the address of the operation.
    fn is_true(&mut self, request: &Request<'_>, value: &Value) -> Result<bool, Fault>
        ensures { IfErr result (λ fault. fault.at ≡ request.now.at) }
    {
        match value {
            Value::Bool(value) => Ok(*value),
            _ => Err(self.fault(request, Cause::WrongType("bool"))),
        }
    }

    fn is_unit(&mut self, value: &Value) -> bool {
        matches!(value, Value::Unit)
    }

    /// Its fault has the address of the operation.
    fn dispatch(
        &mut self,
        request: &Request<'_>,
        switch: &Switch,
        subject: &Value,
    ) -> Result<u32, Fault>
        ensures among { IfOk result (λ target. Contains (switch_targets switch.now) target) }
        ensures at { IfErr result (λ fault. fault.at ≡ request.now.at) }
    {
        match constant_of(self.alloc, subject) {
            Ok(subject) => Ok(dispatch(switch, &subject)),
            Err(_) => Err(self.fault(request, Cause::OutOfMemory)),
        }
    }

    /// Its fault has the address of the operation.
    fn begin(&mut self, request: &Request<'_>, value: Value) -> Result<Walk, Fault>
        ensures { IfErr result (λ fault. fault.at ≡ request.now.at) }
    {
        match Walk::over(self.alloc, value) {
            Ok(walk) => Ok(walk),
            Err(cause) => Err(self.fault(request, cause)),
        }
    }

    /// Its fault has the address of the operation.
    #[inline(always)]
    fn advance(
        &mut self,
        request: &Request<'_>,
        walk: &mut Walk,
        counter: Option<u16>,
    ) -> Result<Option<Value>, Fault>
        ensures { IfErr result (λ fault. fault.at ≡ request.now.at) }
    {
        self.next_item(request, walk, counter)
    }

    /// It has the address of the operation.
    fn thrown(&mut self, request: &Request<'_>, value: Value) -> Fault
        ensures { result.at ≡ request.now.at }
    {
        self.failed(request.at, OpError::from(Cause::Thrown(value)))
    }

    fn caught(&mut self, fault: Fault, name: Option<u32>) -> Result<(), Fault> {
        if !fault.cause.is_catchable() {
            return Err(fault);
        }
        self.end_fault();
        let Fault { cause, at, step } = fault;
        let Some(name) = name else {
            return Ok(());
        };
        let bound = match cause.into_value(self.alloc, step) {
            Ok(value) => self.set_variable(name, value),
            Err(error) => Err(error),
        };
        match bound {
            Ok(()) => Ok(()),
            Err(_) => Err(self.failed(at, OpError::from(Cause::OutOfMemory))),
        }
    }
}
