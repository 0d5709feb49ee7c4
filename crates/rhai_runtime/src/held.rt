//! Functions that object maps hold: `m.f(1)` calls the function pointer `m.f`, with `m` as `this`.
ghost use Rattle.std.specs.Prelude.{IfOk, IfSome, length, ◌<◌};
ghost use Rattle.grain_machine.specs.Reply.{NamesFunction};

use crate::access::{Called, variable_of};
use crate::script::Script;
use crate::world::World;
use grain::Program;
use grain_machine::Reply;
use grain_pools::{Chain, Root, Step};
use rhai_chains::{OpError, entry_name};
use rhai_library::item_place;
use rhai_values::{Cause, Pointer, This, Value, Variable};
use std::alloc::AllocError;
use std::rc::Rc;

/// A function pointer that an object map holds, and the function of the script that it calls.
#[derive(Drop)]
pub(crate) struct Held {
    pointer: Rc<Pointer>,
    function: usize,
}

impl<W: World + Drop> Script<W> {
    /// The function that an object map holds under a name, if the script has it with this many arguments. `None` of other values.
    fn held(
        &self,
        program: &Program,
        value: &Value,
        name: u32,
        argc: usize,
    ) -> Result<Option<Held>, AllocError>
        ensures { IfOk result (λ found. IfSome found (λ held. held.function < length program.now.functions)) }
    {
        let Value::Map(object) = value else {
            return Ok(None);
        };
        let Some(Value::Pointer(pointer)) = object.get(program.names().get(name).unwrap_or(""))
        else {
            return Ok(None);
        };
        let count = pointer.bound().len().saturating_add(argc);
        let Some(index) = self.table.index_of(pointer.name()) else {
            return Ok(None);
        };
        let Some(function) = self.table.function(program, index, count) else {
            return Ok(None);
        };
        let pointer = pointer.clone()?;
        Ok(Some(Held { pointer, function }))
    }

    /// As [`held`](Script::held), of the value to which the steps before a method lead.
    pub(crate) fn held_at(
        &self,
        program: &Program,
        root: &Root,
        path: &[Step],
        called: Called,
        operands: &[Value],
    ) -> Result<Option<Held>, Cause>
        ensures { IfOk result (λ found. IfSome found (λ held. held.function < length program.now.functions)) }
    {
        let root = match root {
            Root::Temporary => match operands.last() {
                Some(value) => value,
                None => return Ok(None),
            },
            root => self.variable(program, variable_of(root)?)?,
        };
        match reached(program, root, path, operands) {
            Some(value) => Ok(self.held(program, value, called.name, called.count)?),
            None => Ok(None),
        }
    }

    /// Begins a function that the value before the last step of a chain holds.
    pub(crate) fn call_held(
        &mut self,
        program: &Program,
        chain: &Chain,
        called: Called,
        held: Held,
        operands: &mut [Value],
    ) -> Result<Option<Reply<Value>>, OpError>
        requires { held.function < length program.now.functions }
        ensures { IfOk result (λ given. IfSome given (NamesFunction program.now)) }
    {
        let path = chain.steps.get(..called.path).unwrap_or_default();
        let Some((value, lent)) = self.receiver(program, &chain.root, path, operands)? else {
            return Ok(Some(Reply::Value(Value::Unit)));
        };
        let end = called.first.saturating_add(called.count);
        let Some(arguments) = operands.get_mut(called.first..end) else {
            return Err(OpError::from(Cause::Unsupported));
        };
        let this = This { value, lent };
        Ok(Some(self.begin_held(program, held, this, arguments)?))
    }

    /// Begins a function that is held, on the value that holds it.
    fn begin_held(
        &mut self,
        program: &Program,
        held: Held,
        this: This,
        arguments: &mut [Value],
    ) -> Result<Reply<Value>, Cause>
        requires { held.function < length program.now.functions }
        ensures { IfOk result (NamesFunction program.now) }
    {
        self.variables
            .begin_bound(held.pointer.bound(), arguments, Some(this), self.at)?;
        Ok(Reply::Call {
            function: held.function,
        })
    }

    /// Begins the function that a variable holds under a name, if it does.
    pub(crate) fn held_by_variable(
        &mut self,
        program: &Program,
        name: u32,
        variable: Variable,
        arguments: &mut [Value],
    ) -> Result<Option<Reply<Value>>, Cause>
        ensures { IfOk result (λ given. IfSome given (NamesFunction program.now)) }
    {
        let value = self.variable(program, variable)?;
        let Some(held) = self.held(program, value, name, arguments.len())? else {
            return Ok(None);
        };
        let this = self.lent(program, variable)?;
        Ok(Some(self.begin_held(program, held, this, arguments)?))
    }

    /// Begins the function that the first of these values holds under a name, if it does and the script has no function of that name
    /// for them.
    pub(crate) fn held_by_first(
        &mut self,
        program: &Program,
        name: u32,
        operands: &mut [Value],
    ) -> Result<Option<Reply<Value>>, Cause>
        ensures { IfOk result (λ given. IfSome given (NamesFunction program.now)) }
    {
        let count = operands.len();
        let Some((value, arguments)) = operands.split_first_mut() else {
            return Ok(None);
        };
        let Value::Map(_) = value else {
            return Ok(None);
        };
        if self.table.function(program, name, count).is_some() {
            return Ok(None);
        }
        let Some(held) = self.held(program, value, name, arguments.len())? else {
            return Ok(None);
        };
        let this = This {
            value: value.take(),
            lent: None,
        };
        Ok(Some(self.begin_held(program, held, this, arguments)?))
    }
}

/// The part of a value to which steps lead, if they go along items and entries that are there.
fn reached<'v>(
    program: &Program,
    value: &'v Value,
    path: &[Step],
    operands: &[Value],
) -> Option<&'v Value> {
    let mut part = value;
    for step in path {
        part = part_of(program, part, step, operands)?;
    }
    Some(part)
}

/// The item or entry to which a step leads, if it is there.
fn part_of<'v>(
    program: &Program,
    value: &'v Value,
    step: &Step,
    operands: &[Value],
) -> Option<&'v Value> {
    match (value, step) {
        (Value::Map(object), step) => match entry_name(program, step, operands) {
            Ok(name) => object.get(name),
            Err(_) => None,
        },
        (Value::Array(list), Step::Index { operand, .. }) => {
            match item_place(list.len(), operands.get(*operand as usize)) {
                Ok(place) => list.items().get(place),
                Err(_) => None,
            }
        }
        _ => None,
    }
}
