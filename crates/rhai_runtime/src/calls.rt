//! Calls: of operators, of functions of the script, the library and the world, and of function pointers.
ghost use Rattle.std.specs.Prelude.{IfOk, IfSome, length, ◌<◌};
ghost use Rattle.grain.specs.Program.{Program};
ghost use Rattle.grain_machine.specs.Reply.{NamesFunction};

use crate::script::Script;
use crate::world::World;
use grain::Program;
use grain_code::Receiver;
use grain_machine::Reply;
use rhai_library::{Callee, call, operate_at, without_arguments};
use rhai_operators::operate_on;
use rhai_values::{Cause, Lent, Pointer, This, Value, Variable, copies};
use std::alloc::AllocError;

/// What a function pointer is called on in method position.
#[derive(Drop)]
enum On {
    /// A variable, which gets back what `this` is at last.
    Variable(Variable),
    /// A value that lies in none.
    Value(Value),
}

impl<W: World + Drop> Script<W> {
    /// What an operator gives: that of the library, or a function of the script that has its name.
    #[inline]
    pub(crate) fn operator(
        &mut self,
        program: &Program,
        name: u32,
        token: u32,
        operands: &mut [Value],
    ) -> Result<Reply<Value>, Cause>
        ensures { IfOk result (NamesFunction program.now) }
    {
        let Some(operator) = program.tokens().get(token as usize) else {
            return Err(Cause::Unsupported);
        };
        match operate_on(self.alloc, operator, operands)? {
            Some(value) => Ok(Reply::Value(value)),
            None => self.call(program, name, operands),
        }
    }

    /// Calls a function by its name: one of the program's, of the library, or of the world. One that is declared for the type of the
    /// first argument has that as `this`.
    pub(crate) fn call(
        &mut self,
        program: &Program,
        name: u32,
        operands: &mut [Value],
    ) -> Result<Reply<Value>, Cause>
        ensures { IfOk result (NamesFunction program.now) }
    {
        if let Some(function) = self.table.function(program, name, operands.len()) {
            self.variables.begin(operands, self.at)?;
            return Ok(Reply::Call { function });
        }
        if self.table.callee(name).is_none()
            && let Some((value, arguments)) = operands.split_first_mut()
            && let Some(function) = self.table.typed(program, name, arguments.len(), value)
        {
            let this = This {
                value: value.take(),
                lent: None,
            };
            self.variables
                .begin_bound(&[], arguments, Some(this), self.at)?;
            return Ok(Reply::Call { function });
        }
        self.call_outside(program, name, operands)
    }

    /// Calls a function that isn't the program's.
    fn call_outside(
        &mut self,
        program: &Program,
        name: u32,
        operands: &[Value],
    ) -> Result<Reply<Value>, Cause>
        ensures { IfOk result (NamesFunction program.now) }
    {
        let callee = self.table.callee(name);
        match self.call_known(callee, operands)? {
            Some(value) => Ok(Reply::Value(value)),
            None => {
                let name = program.names().get(name).unwrap_or("");
                self.call_world(name, operands)
            }
        }
    }

    /// Does `print` or `debug` of one value, or of none.
    fn written(&mut self, callee: Callee, operands: &[Value]) -> Result<Option<Value>, Cause> {
        match (callee, operands) {
            (Callee::Print, []) => self.world.print("")?,
            (Callee::Debug, []) => self.world.debug("")?,
            (Callee::Print, [value]) => {
                let line = format!(in self.alloc; "{value}")?;
                self.world.print(line.as_str())?;
            }
            (Callee::Debug, [value]) => {
                let line = format!(in self.alloc; "{value:?}")?;
                self.world.debug(line.as_str())?;
            }
            _ => return Ok(None),
        }
        Ok(Some(Value::Unit))
    }

    /// Calls a function of the world, or has the run wait for what the embedding program returns.
    fn call_world(&mut self, name: &str, arguments: &[Value]) -> Result<Reply<Value>, Cause>
        ensures { (program : Program) → IfOk result (NamesFunction program) }
    {
        match self.outside(name, arguments)? {
            Some(reply) => Ok(reply),
            None => Err(Cause::no_function(self.alloc, name, None, arguments)),
        }
    }

    /// As [`call_world`](Script::call_world), or `None` if neither has such a function.
    pub(crate) fn outside(
        &mut self,
        name: &str,
        arguments: &[Value],
    ) -> Result<Option<Reply<Value>>, Cause>
        ensures { (program : Program) → IfOk result (λ given. IfSome given (NamesFunction program)) }
    {
        if self.world.is_awaited(name, arguments.len()) {
            self.wait_for(name, arguments)?;
            return Ok(Some(Reply::Wait));
        }
        match self.world.call(self.alloc, name, arguments)? {
            Some(value) => Ok(Some(Reply::Value(value))),
            None => Ok(None),
        }
    }

    /// Has the run wait for a call of the embedding program.
    fn wait_for(&mut self, name: &str, arguments: &[Value]) -> Result<(), AllocError> {
        let filled = self.call.fill(name, arguments);
        if filled.is_err() {
            self.call.clear();
        }
        self.is_waiting = filled.is_ok();
        filled
    }

    /// As [`wait_for`](Script::wait_for), of a call whose first argument is the value of a variable, which is taken out of it. If it
    /// fails, the variable is as it was.
    fn wait_in_place(
        &mut self,
        program: &Program,
        name: &str,
        variable: Variable,
        arguments: &[Value],
    ) -> Result<(), Cause> {
        self.call.arguments.push(Value::Unit)?;
        self.wait_for(name, arguments)?;
        match self.lent(program, variable) {
            Ok(This { value, lent }) => {
                self.lend(value, lent);
                Ok(())
            }
            Err(cause) => {
                self.is_waiting = false;
                self.call.clear();
                Err(cause)
            }
        }
    }

    /// The call for which the run is to wait has this receiver, which was taken out of a variable.
    pub(crate) fn lend(&mut self, value: Value, lent: Option<Lent>) {
        if self.is_waiting
            && let Some(first) = self.call.arguments.first_mut()
        {
            *first = value;
            self.call.lent = lent;
        }
    }

    /// Calls the function of a pointer that lies below its arguments. In method position what it is called on, a value below the
    /// pointer or a variable, is `this` there. If that is a function pointer itself, it is the one that is called.
    pub(crate) fn call_pointer(
        &mut self,
        program: &Program,
        is_method: bool,
        receiver: &Option<Receiver>,
        operands: &mut [Value],
    ) -> Result<Reply<Value>, Cause>
        ensures { IfOk result (NamesFunction program.now) }
    {
        if let Some(receiver) = receiver {
            let variable = variable_of(receiver);
            if let Value::Pointer(pointer) = self.variable(program, variable)? {
                let pointer = pointer.clone()?;
                return self.call_function(program, &pointer, None, operands);
            }
            return self.call_below(program, Some(On::Variable(variable)), operands);
        }
        if is_method && !matches!(operands.first(), Some(Value::Pointer(_))) {
            let Some((value, others)) = operands.split_first_mut() else {
                return Err(Cause::Unsupported);
            };
            let value = value.take();
            return self.call_below(program, Some(On::Value(value)), others);
        }
        self.call_below(program, None, operands)
    }

    /// Calls the function of the pointer that lies below its arguments, on a variable or a value if there is one.
    #[inline]
    fn call_below(
        &mut self,
        program: &Program,
        on: Option<On>,
        operands: &mut [Value],
    ) -> Result<Reply<Value>, Cause>
        ensures { IfOk result (NamesFunction program.now) }
    {
        let Some((pointer, arguments)) = operands.split_first_mut() else {
            return Err(Cause::Unsupported);
        };
        let Value::Pointer(pointer) = pointer.take() else {
            return Err(Cause::WrongType("Fn"));
        };
        self.call_function(program, &pointer, on, arguments)
    }

    /// Calls the function of a pointer with these arguments, after those that are bound.
    #[inline]
    fn call_function(
        &mut self,
        program: &Program,
        pointer: &Pointer,
        on: Option<On>,
        arguments: &mut [Value],
    ) -> Result<Reply<Value>, Cause>
        ensures { IfOk result (NamesFunction program.now) }
    {
        let bound = pointer.bound();
        let count = bound.len().saturating_add(arguments.len());
        let name = self.table.index_of(pointer.name());
        if let Some(name) = name
            && let Some(function) = self.table.function(program, name, count)
        {
            let this = match on {
                Some(On::Variable(variable)) => Some(self.lent(program, variable)?),
                Some(On::Value(value)) => Some(This { value, lent: None }),
                None => None,
            };
            self.variables.begin_bound(bound, arguments, this, self.at)?;
            return Ok(Reply::Call { function });
        }
        let mut all = copies(self.alloc, bound)?;
        for argument in arguments {
            all.push(argument.take())?;
        }
        self.call_by_name(program, pointer.name(), name, all.as_slice())
    }

    /// Calls a function that isn't the program's by its name, which the program may not have among its own.
    fn call_by_name(
        &mut self,
        program: &Program,
        text: &str,
        name: Option<u32>,
        arguments: &[Value],
    ) -> Result<Reply<Value>, Cause>
        ensures { IfOk result (NamesFunction program.now) }
    {
        if let Some(name) = name {
            return self.call_outside(program, name, arguments);
        }
        match self.call_known(Callee::named(text), arguments)? {
            Some(value) => Ok(Reply::Value(value)),
            None => self.call_world(text, arguments),
        }
    }

    /// Calls a function that every script has, if it is one that takes these arguments.
    fn call_known(
        &mut self,
        callee: Option<Callee>,
        arguments: &[Value],
    ) -> Result<Option<Value>, Cause> {
        match callee {
            Some(Callee::Library(function)) => match arguments.split_first() {
                Some((receiver, arguments)) => {
                    let mut receiver = receiver.clone()?;
                    call(self.alloc, self.limits, function, &mut receiver, arguments)
                }
                None => without_arguments(self.alloc, function),
            },
            Some(Callee::Operator(index)) => operate_at(self.alloc, index, arguments),
            Some(Callee::Exit) => exited(arguments),
            Some(Callee::IsDefFn) => Ok(self.is_def_fn(arguments)),
            Some(Callee::IsDefVar) => Ok(self.is_def_var(arguments)),
            Some(callee) => self.written(callee, arguments),
            None => Ok(None),
        }
    }

    /// Takes the value of a variable out for a call on it.
    pub(crate) fn lent(&mut self, program: &Program, variable: Variable) -> Result<This, Cause> {
        let value = self.variable_mut(program, variable)?.take();
        let path = Vec::new(self.alloc);
        Ok(This {
            value,
            lent: Some(Lent { variable, path }),
        })
    }

    /// The value of a variable, or of `this`.
    pub(crate) fn variable(&self, program: &Program, variable: Variable) -> Result<&Value, Cause> {
        match variable {
            Variable::Local(slot) => self.variables.local(slot),
            Variable::Named(name) => match self.variables.named(name) {
                Some(value) => Ok(value),
                None => Err(self.no_variable(program, name)),
            },
            Variable::This => match self.variables.this() {
                Some(value) => Ok(value),
                None => Err(Cause::NoThis),
            },
        }
    }

    /// The place of the value of a variable, or of `this`.
    pub(crate) fn variable_mut(
        &mut self,
        program: &Program,
        variable: Variable,
    ) -> Result<&mut Value, Cause> {
        match variable {
            Variable::Local(slot) => self.variables.local_mut(slot),
            Variable::Named(name) => {
                if self.variables.named(name).is_none() {
                    return Err(self.no_variable(program, name));
                }
                match self.variables.named_mut(name) {
                    Some(value) => Ok(value),
                    None => Err(Cause::Unsupported),
                }
            }
            Variable::This => match self.variables.this_mut() {
                Some(value) => Ok(value),
                None => Err(Cause::NoThis),
            },
        }
    }

    /// Calls a function whose first argument is a variable, changed in place where the library does. Of a variable that isn't
    /// local the value lies below the arguments too.
    pub(crate) fn call_on(
        &mut self,
        program: &Program,
        name: u32,
        receiver: &Receiver,
        operands: &mut [Value],
    ) -> Result<Reply<Value>, Cause>
        ensures { IfOk result (NamesFunction program.now) }
    {
        let variable = variable_of(receiver);
        let skipped = match receiver {
            Receiver::Local(_) => 0usize,
            Receiver::Named(_) | Receiver::This => 1,
        };
        let Some(arguments) = operands.get_mut(skipped..) else {
            return Err(Cause::Unsupported);
        };
        if let Some(reply) = self.held_by_variable(program, name, variable, arguments)? {
            return Ok(reply);
        }
        let count = arguments.len().saturating_add(1);
        if let Some(function) = self.table.function(program, name, count) {
            let first = [self.variable_mut(program, variable)?.clone()?];
            self.variables
                .begin_bound(&first, arguments, None, self.at)?;
            return Ok(Reply::Call { function });
        }
        if let Some(value) = self.library_in_place(program, name, variable, arguments)? {
            return Ok(Reply::Value(value));
        }
        if let Some(reply) = self.begin_typed(program, name, variable, arguments)? {
            return Ok(reply);
        }
        self.call_outside_on(program, name, variable, arguments)
    }

    /// Calls a function of the library on the value of a variable, in place. `None` if it has none that takes these arguments.
    fn library_in_place(
        &mut self,
        program: &Program,
        name: u32,
        variable: Variable,
        arguments: &[Value],
    ) -> Result<Option<Value>, Cause> {
        let Some(Callee::Library(function)) = self.table.callee(name) else {
            return Ok(None);
        };
        let alloc = self.alloc;
        let limits = self.limits;
        let receiver = self.variable_mut(program, variable)?;
        let given = call(alloc, limits, function, receiver, arguments);
        if !limits.allow(receiver.measure()) {
            return Err(Cause::TooLarge);
        }
        given
    }

    /// Begins a function that is declared for the type of a variable, which is its `this`, if there is one.
    fn begin_typed(
        &mut self,
        program: &Program,
        name: u32,
        variable: Variable,
        arguments: &mut [Value],
    ) -> Result<Option<Reply<Value>>, Cause>
        ensures { IfOk result (λ given. IfSome given (NamesFunction program.now)) }
    {
        let Some(function) = self.typed_for(program, name, variable, arguments.len())? else {
            return Ok(None);
        };
        let this = self.lent(program, variable)?;
        self.variables
            .begin_bound(&[], arguments, Some(this), self.at)?;
        Ok(Some(Reply::Call { function }))
    }

    /// The function that is declared for the type of a variable, if there is one.
    fn typed_for(
        &self,
        program: &Program,
        name: u32,
        variable: Variable,
        argc: usize,
    ) -> Result<Option<usize>, Cause>
        ensures { IfOk result (λ given. IfSome given (λ function. function < length program.now.functions)) }
    {
        let value = self.variable(program, variable)?;
        Ok(self.table.typed(program, name, argc, value))
    }

    /// Calls a function of the embedding program on a variable: it does so while the run waits, or gets a copy.
    fn call_outside_on(
        &mut self,
        program: &Program,
        name: u32,
        variable: Variable,
        arguments: &[Value],
    ) -> Result<Reply<Value>, Cause>
        ensures { IfOk result (NamesFunction program.now) }
    {
        let callee = self.table.callee(name);
        let count = arguments.len().saturating_add(1);
        let text = program.names().get(name).unwrap_or("");
        if callee.is_none() && self.world.is_awaited(text, count) {
            self.wait_in_place(program, text, variable, arguments)?;
            return Ok(Reply::Wait);
        }
        let mut all = Vec::new(self.alloc);
        all.push(self.variable(program, variable)?.clone()?)?;
        for argument in arguments {
            all.push(argument.clone()?)?;
        }
        let reply = self.call_outside(program, name, all.as_slice())?;
        if let Reply::Wait = &reply {
            let This { value, lent } = self.lent(program, variable)?;
            self.lend(value, lent);
        }
        Ok(reply)
    }
}

/// Ends the script with a value, or with unit. `None` of more arguments.
///
/// # Errors
/// [`Cause::Exited`], or out of memory.
fn exited(arguments: &[Value]) -> Result<Option<Value>, Cause> {
    match arguments {
        [] => Err(Cause::Exited(Value::Unit)),
        [value] => Err(Cause::Exited(value.clone()?)),
        _ => Ok(None),
    }
}

/// The variable that is the receiver of a call.
fn variable_of(receiver: &Receiver) -> Variable {
    match receiver {
        Receiver::Local(slot) => Variable::Local(*slot),
        Receiver::Named(name) => Variable::Named(*name),
        Receiver::This => Variable::This,
    }
}
