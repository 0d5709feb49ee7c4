//! Chains of accesses from variables and values, and methods of the script at their end.
ghost use Rattle.std.specs.Prelude.{IfOk, IfSome, length, ◌<◌};
ghost use Rattle.grain_machine.specs.Reply.{NamesFunction};

use crate::script::Script;
use crate::world::World;
use grain::Program;
use grain_machine::Reply;
use grain_pools::{Chain, Root, Step, Tail};
use rhai_chains::{Goal, OpError, ends_early, entry_name, keys_of, placed, read, walk};
use rhai_operators::op_assigned;
use rhai_values::{Cause, Lent, This, Value, Variable, swapped};
use std::mem;
use std::rc::Rc;

impl<W: World + Drop> Script<W> {
    /// What a chain gives. Below all others lie the operands of its steps, above them its root, if that is a value, or what is
    /// assigned.
    pub(crate) fn chain(
        &mut self,
        program: &Program,
        chain: &Chain,
        operands: &mut [Value],
    ) -> Result<Reply<Value>, OpError>
        ensures { IfOk result (NamesFunction program.now) }
    {
        let steps = chain.steps.as_slice();
        let goal = match &chain.tail {
            Tail::Read => Goal::Read,
            Tail::Assign { op } => match operands.last_mut() {
                Some(value) => Goal::Assign {
                    op: *op,
                    value: value.take(),
                },
                None => return Err(OpError::from(Cause::Unsupported)),
            },
        };
        if let Some(called) = method_at_end(chain)
            && let Some(reply) = self.method(program, chain, called, operands)?
        {
            return Ok(reply);
        }
        let variable = match &chain.root {
            Root::Temporary => {
                let Some(value) = operands.last_mut() else {
                    return Err(OpError::from(Cause::Unsupported));
                };
                let mut value = value.take();
                let context = self.context(program);
                let given = walk(&context, &mut value, steps, operands, goal)?;
                return Ok(Reply::Value(given.unwrap_or(Value::Unit)));
            }
            root => variable_of(root)?,
        };
        let given = self.chain_from(program, variable, steps, operands, goal)?;
        Ok(Reply::Value(given.unwrap_or(Value::Unit)))
    }

    /// Reads a plain item of an array in a local variable, or assigns a plain value to one. `None` if the chain does something else,
    /// or fails: then nothing has changed.
    #[inline(always)]
    pub(crate) fn item(
        &mut self,
        program: &Program,
        chain: &Chain,
        operands: &[Value],
    ) -> Option<Value> {
        let Root::Local { slot, .. } = &chain.root else {
            return None;
        };
        let [step] = chain.steps.as_slice() else {
            return None;
        };
        let Step::Index { operand, .. } = step else {
            return None;
        };
        let Value::Int(index) = operands.get(*operand as usize)? else {
            return None;
        };
        let Ok(place) = usize::try_from(*index) else {
            return None;
        };
        let Tail::Assign { op } = &chain.tail else {
            return self.variables.plain_item(*slot, place);
        };
        let Value::Array(list) = self.variables.value_mut(*slot)? else {
            return None;
        };
        let new = assigned(program, *op, list.items().get(place)?, operands.last()?)?;
        // A plain value in place of another one makes no array larger.
        let old = Rc::get_mut(list)?.replace(place, new)?;
        mem::forget(old);
        Some(Value::Unit)
    }

    /// Reads a plain entry of an object map in a local variable or `this`, or assigns a plain value to one. `None` if the chain does
    /// something else, or fails: then nothing has changed.
    #[inline(never)]
    pub(crate) fn entry(
        &mut self,
        program: &Program,
        chain: &Chain,
        operands: &[Value],
    ) -> Option<Value> {
        let [step] = chain.steps.as_slice() else {
            return None;
        };
        let Value::Map(object) = self.plain_root(&chain.root)? else {
            return None;
        };
        let Ok(name) = entry_name(program, step, operands) else {
            return None;
        };
        let old = object.get(name)?;
        let Tail::Assign { op } = &chain.tail else {
            return old.plain();
        };
        let new = assigned(program, *op, old, operands.last()?)?;
        // A plain value in place of another one makes no object map larger.
        let old = Rc::get_mut(object)?.replace(name, new)?;
        mem::forget(old);
        Some(Value::Unit)
    }

    /// The place of the value of a local variable or of `this`.
    fn plain_root(&mut self, root: &Root) -> Option<&mut Value> {
        match root {
            Root::Local { slot, .. } => self.variables.value_mut(*slot),
            Root::This { .. } => self.variables.this_mut(),
            Root::Named { .. } | Root::Temporary => None,
        }
    }

    /// Goes along the steps from a variable, as [`walk`]. If only one item or entry is read, the variable isn't touched.
    fn chain_from(
        &mut self,
        program: &Program,
        variable: Variable,
        steps: &[Step],
        operands: &mut [Value],
        goal: Goal,
    ) -> Result<Option<Value>, OpError> {
        if let (Goal::Read, [step]) = (&goal, steps)
            && !matches!(step, Step::Method { .. })
        {
            return self.read_from(program, variable, step, operands);
        }
        let mut value = self.variable_mut(program, variable)?.take();
        let context = self.context(program);
        let result = walk(&context, &mut value, steps, operands, goal);
        let allowed = self.allowed(&value);
        *self.variable_mut(program, variable)? = value;
        allowed?;
        result
    }

    fn read_from(
        &self,
        program: &Program,
        variable: Variable,
        step: &Step,
        operands: &[Value],
    ) -> Result<Option<Value>, OpError> {
        let context = self.context(program);
        let value = self.variable(program, variable)?;
        if ends_early(value, step) {
            return Ok(None);
        }
        Ok(Some(placed(step, read(&context, value, step, operands))?))
    }

    /// Whether a function of the script or of the world may be what this method calls.
    fn may_be_method(&self, called: Called) -> bool {
        self.table.callee(called.name).is_none()
            || self.table.has_functions(called.name, called.count)
    }

    /// Begins the function of the script that the last step of a chain calls on the value before it, if it has one.
    fn method(
        &mut self,
        program: &Program,
        chain: &Chain,
        called: Called,
        operands: &mut [Value],
    ) -> Result<Option<Reply<Value>>, OpError>
        ensures { IfOk result (λ given. IfSome given (NamesFunction program.now)) }
    {
        let path = chain.steps.get(..called.path).unwrap_or_default();
        if let Some(held) = self.held_at(program, &chain.root, path, called, operands)? {
            return self.call_held(program, chain, called, held, operands);
        }
        if !self.may_be_method(called) {
            return Ok(None);
        }
        let Some((value, lent)) = self.receiver(program, &chain.root, path, operands)? else {
            return Ok(Some(Reply::Value(Value::Unit)));
        };
        let method = self.method_of(program, chain, called, &value);
        let Some(function) = method else {
            return self.method_outside(program, chain, called, (value, lent), operands);
        };
        let end = called.first.saturating_add(called.count);
        let Some(arguments) = operands.get_mut(called.first..end) else {
            return Err(OpError::from(Cause::Unsupported));
        };
        let this = This { value, lent };
        self.variables
            .begin_bound(&[], arguments, Some(this), self.at)?;
        Ok(Some(Reply::Call { function }))
    }

    /// The function of the script that is called on this value, if there is one and the chain doesn't end before it.
    fn method_of(
        &self,
        program: &Program,
        chain: &Chain,
        called: Called,
        value: &Value,
    ) -> Option<usize>
        ensures { IfSome result (λ index. index < length program.now.functions) }
    {
        match chain.steps.get(called.path) {
            Some(step) if ends_early(value, step) => None,
            _ => self.table.method(program, called.name, called.count, value),
        }
    }

    /// Calls a function of the world as the last step of a chain, or has the run wait for what the embedding program returns. If
    /// neither has such a function, it is as [`without_method`](Script::without_method).
    fn method_outside(
        &mut self,
        program: &Program,
        chain: &Chain,
        called: Called,
        receiver: (Value, Option<Lent>),
        operands: &[Value],
    ) -> Result<Option<Reply<Value>>, OpError>
        ensures { IfOk result (λ given. IfSome given (NamesFunction program.now)) }
    {
        let (value, lent) = receiver;
        match self.offered(program, chain, called, &value, operands) {
            Ok(None) => self.without_method(program, chain, called, (value, lent), operands),
            Ok(Some(Reply::Wait)) => {
                self.lend(value, lent);
                Ok(Some(Reply::Wait))
            }
            Ok(Some(reply)) => {
                self.variables.give_back(value, lent)?;
                Ok(Some(reply))
            }
            Err(cause) => {
                self.variables.give_back(value, lent)?;
                Err(match chain.steps.get(called.path) {
                    Some(step) => OpError::of_step(step, cause),
                    None => OpError::from(cause),
                })
            }
        }
    }

    /// What a function of the world gives as the last step of a chain, if the library has none of its name and the chain doesn't end
    /// before it.
    fn offered(
        &mut self,
        program: &Program,
        chain: &Chain,
        called: Called,
        value: &Value,
        operands: &[Value],
    ) -> Result<Option<Reply<Value>>, Cause>
        ensures { IfOk result (λ given. IfSome given (NamesFunction program.now)) }
    {
        let is_early = match chain.steps.get(called.path) {
            Some(step) => ends_early(value, step),
            None => true,
        };
        if is_early || self.table.callee(called.name).is_some() {
            return Ok(None);
        }
        let end = called.first.saturating_add(called.count);
        let mut all = Vec::new(self.alloc);
        all.push(value.clone()?)?;
        for argument in operands.get(called.first..end).unwrap_or_default() {
            all.push(argument.clone()?)?;
        }
        let name = program.names().get(called.name).unwrap_or("");
        self.outside(name, all.as_slice())
    }

    /// What the last step of a chain gives on a value for which the script has no such method. `None` if the value was lent:
    /// then nothing has changed, and the whole chain is to be done.
    fn without_method(
        &mut self,
        program: &Program,
        chain: &Chain,
        called: Called,
        receiver: (Value, Option<Lent>),
        operands: &[Value],
    ) -> Result<Option<Reply<Value>>, OpError>
        ensures { IfOk result (λ given. IfSome given (NamesFunction program.now)) }
    {
        let (mut value, lent) = receiver;
        if lent.is_some() {
            self.variables.give_back(value, lent)?;
            return Ok(None);
        }
        let last = chain.steps.get(called.path..).unwrap_or_default();
        let context = self.context(program);
        let given = walk(&context, &mut value, last, operands, Goal::Read)?;
        Ok(Some(Reply::Value(given.unwrap_or(Value::Unit))))
    }

    /// The value on which a method is called, taken out of its variable if it is a part that goes back there. `None` if a step
    /// before it ends the chain early.
    pub(crate) fn receiver(
        &mut self,
        program: &Program,
        root: &Root,
        path: &[Step],
        operands: &mut [Value],
    ) -> Result<Option<(Value, Option<Lent>)>, OpError> {
        if let Root::Temporary = root {
            let Some(last) = operands.last() else {
                return Err(OpError::from(Cause::Unsupported));
            };
            let mut value = last.clone()?;
            let context = self.context(program);
            return Ok(unlent(walk(&context, &mut value, path, operands, Goal::Read)?));
        }
        let variable = variable_of(root)?;
        if let Some(keys) = keys_of(&self.context(program), path, operands)? {
            let place = self.variable_mut(program, variable)?;
            match swapped(place, keys.as_slice(), Value::Unit) {
                Ok(value) => {
                    let lent = Lent {
                        variable,
                        path: keys,
                    };
                    return Ok(Some((value, Some(lent))));
                }
                Err(Cause::OutOfMemory) => return Err(OpError::from(Cause::OutOfMemory)),
                // It is no part that goes back, as a character of a text; or a step fails, which is found by reading.
                Err(_) => {}
            }
        }
        Ok(unlent(self.chain_from(program, variable, path, operands, Goal::Read)?))
    }
}

/// A value that goes back nowhere, if there is one.
fn unlent(value: Option<Value>) -> Option<(Value, Option<Lent>)> {
    Some((value?, None))
}

/// A method that a chain calls at its end.
#[derive(Clone, Copy)]
pub(crate) struct Called {
    pub(crate) name: u32,
    /// How many arguments it has.
    pub(crate) count: usize,
    /// Where the first of them lies among the operands.
    pub(crate) first: usize,
    /// How many steps lead to its receiver.
    pub(crate) path: usize,
}

/// The method that the chain calls at its end, if it does.
fn method_at_end(chain: &Chain) -> Option<Called> {
    let path = chain.steps.len().checked_sub(1)?;
    match chain.steps.get(path) {
        Some(
            Step::Method {
                name,
                argc,
                operand,
                ..
            },
        ) => Some(Called {
            name: *name,
            count: *argc as usize,
            first: if *argc == 0 { 0 } else { *operand as usize },
            path,
        }),
        _ => None,
    }
}

/// The variable at which a chain begins.
pub(crate) fn variable_of(root: &Root) -> Result<Variable, Cause> {
    match root {
        Root::Local { slot, .. } => Ok(Variable::Local(*slot)),
        Root::Named { name, .. } => Ok(Variable::Named(*name)),
        Root::This { .. } => Ok(Variable::This),
        Root::Temporary => Err(Cause::Unsupported),
    }
}

/// What a part of a value becomes if a plain value is assigned to it, by way of an op-assignment if there is one. `None` if
/// one of them isn't plain, and as [`op_assigned`].
#[inline(always)]
fn assigned(program: &Program, op: Option<u32>, old: &Value, value: &Value) -> Option<Value> {
    let Some(op) = op else {
        return if old.is_plain() { value.plain() } else { None };
    };
    let assign_op = program.assign_ops().get(op as usize)?;
    op_assigned(&assign_op.op_assign, old, value)
}
