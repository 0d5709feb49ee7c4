//! Chains of accesses: parts of values by index, property and method.

use crate::fault::OpError;
use crate::table::NameTable;
use grain::Program;
use grain_pools::{Step, StepFlags};
use rhai_library::{Callee, Function, assign_item, call, item_of, item_place};
use rhai_operators::operate;
use rhai_values::{Cause, Key, List, Object, Reason, SizeLimits, Value};
use std::alloc::Global;
use std::rc::Rc;
use std::slice;

/// What accesses need to know of the script.
#[derive(Clone, Copy)]
pub struct Context<'a> {
    /// What takes the memory for values.
    pub alloc: Global,
    /// How large values may be.
    pub limits: SizeLimits,
    /// The program, whose indices steps have.
    pub program: &'a Program,
    /// What its names mean.
    pub table: &'a NameTable,
}

/// What is done with the part of the value to which a chain leads.
#[derive(Drop)]
pub enum Goal {
    /// It is read.
    Read,
    /// This is assigned to it, by way of an op-assignment if there is one.
    Assign {
        /// The index of the op-assignment.
        op: Option<u32>,
        /// The value.
        value: Value,
    },
}

/// A value on the way of a chain.
#[derive(Drop)]
struct Part {
    value: Value,
    /// Whether it was taken out of the value before it, and goes back there.
    is_taken: bool,
}

/// Follows the steps from a value, whose parts may be changed in place, and returns what is read at their end; `None` if a step
/// ends the chain early. It recurses by the number of steps.
///
/// # Errors
/// Why a step or the goal fails. The error of a step has its position. A part that was taken out goes back also then, unless
/// memory for that runs out.
pub fn walk(
    context: &Context<'_>,
    value: &mut Value,
    steps: &[Step],
    operands: &[Value],
    goal: Goal,
) -> Result<Option<Value>, OpError> {
    let Some((step, rest)) = steps.split_first() else {
        return Ok(Some(finish(context, value, goal)?));
    };
    if ends_early(value, step) {
        return Ok(None);
    }
    if let Step::Method { .. } = step {
        let mut given = placed(step, called(context, value, step, operands))?;
        return walk(context, &mut given, rest, operands, goal);
    }
    if rest.is_empty()
        && let Goal::Assign {
            op: None,
            value: assigned,
        } = goal
    {
        placed(step, assign(context, value, step, operands, assigned))?;
        return Ok(Some(Value::Unit));
    }
    let mut part = placed(step, taken(context, value, step, operands))?;
    let is_assigned = rest.is_empty() && matches!(goal, Goal::Assign { .. });
    let result = walk(context, &mut part.value, rest, operands, goal);
    // A bit of an integer and a character of a text are copies, so that an op-assignment to one is assigned itself.
    if part.is_taken || (is_assigned && result.is_ok()) {
        placed(step, put_back(context, value, step, operands, part.value))?;
    }
    result
}

/// The result of a step, whose error has its position.
///
/// # Errors
/// That of the step.
pub fn placed<T: Drop>(step: &Step, answer: Result<T, Cause>) -> Result<T, OpError> {
    match answer {
        Ok(value) => Ok(value),
        Err(cause) => Err(OpError::of_step(step, cause)),
    }
}

/// Puts a part back where it was taken from.
fn put_back(
    context: &Context<'_>,
    value: &mut Value,
    step: &Step,
    operands: &[Value],
    part: Value,
) -> Result<(), Cause> {
    let Value::Map(object) = value else {
        return assign(context, value, step, operands, part);
    };
    let name = entry_name(context.program, step, operands)?;
    let _unit = Rc::make_mut(object)?.replace(name, part);
    Ok(())
}

/// What is done if no step is left.
fn finish(context: &Context<'_>, value: &mut Value, goal: Goal) -> Result<Value, Cause> {
    match goal {
        Goal::Read => Ok(value.clone()?),
        Goal::Assign { op, value: other } => {
            assign_to(context, value, op, other)?;
            Ok(Value::Unit)
        }
    }
}

/// Assigns to a variable or to a part of one, by an op-assignment if there is one.
///
/// # Errors
/// The operator doesn't take such operands, it fails, or out of memory: the place is as it was.
#[inline]
pub fn assign_to(
    context: &Context<'_>,
    place: &mut Value,
    op: Option<u32>,
    value: Value,
) -> Result<(), Cause> {
    let Some(op) = op else {
        *place = value;
        return Ok(());
    };
    let Some(assign_op) = context.program.assign_ops().get(op as usize) else {
        return Err(Cause::Unsupported);
    };
    match operate(context.alloc, &assign_op.op_assign, place, &value)? {
        Some(new) => {
            *place = new;
            Ok(())
        }
        None => Err(no_operator(context, assign_op.op_assign_name, place, &value)),
    }
}

/// The cause if an operator doesn't take such operands.
fn no_operator(context: &Context<'_>, name: u32, left: &Value, right: &Value) -> Cause {
    let name = context.program.names().get(name).unwrap_or("");
    Cause::no_function(context.alloc, name, Some(left), slice::from_ref(right))
}

/// Whether the step ends the chain, since it is taken on unit and says so.
pub fn ends_early(value: &Value, step: &Step) -> bool {
    let flags = match step {
        Step::Index { flags, .. } | Step::Property { flags, .. } | Step::Method { flags, .. } => {
            *flags
        }
    };
    matches!(value, Value::Unit) && flags == StepFlags::SKIP_IF_UNIT
}

/// The part to which a step leads. It is taken out of an array or an object map, so that it can be changed in place.
fn taken(
    context: &Context<'_>,
    value: &mut Value,
    step: &Step,
    operands: &[Value],
) -> Result<Part, Cause> {
    let taken = match value {
        Value::Array(list) => taken_item(list, step, operands)?,
        Value::Map(object) => {
            let object = Rc::make_mut(object)?;
            let name = entry_name(context.program, step, operands)?;
            match object.replace(name, Value::Unit) {
                Some(value) => Some(value),
                None => return Ok(made_part(Value::Unit)),
            }
        }
        _ => None,
    };
    match taken {
        Some(value) => Ok(Part {
            value,
            is_taken: true,
        }),
        None => Ok(made_part(read(context, value, step, operands)?)),
    }
}

/// A value that goes back nowhere.
fn made_part(value: Value) -> Part {
    Part {
        value,
        is_taken: false,
    }
}

/// The item to which a step leads, taken out of its array; `None` if the step is no index.
fn taken_item(
    list: &mut Rc<List>,
    step: &Step,
    operands: &[Value],
) -> Result<Option<Value>, Cause> {
    let Step::Index { operand, .. } = step else {
        return Ok(None);
    };
    let place = item_place(list.len(), operands.get(*operand as usize))?;
    Ok(Rc::make_mut(list)?.replace(place, Value::Unit))
}

/// The name of the entry to which a step leads.
///
/// # Errors
/// [`Cause::WrongType`] if the index is no text, [`Cause::Unsupported`] of a method.
pub fn entry_name<'o>(
    program: &'o Program,
    step: &Step,
    operands: &'o [Value],
) -> Result<&'o str, Cause> {
    match step {
        Step::Index { operand, .. } => match operands.get(*operand as usize) {
            Some(Value::Text(name)) => Ok(name.as_str()),
            _ => Err(Cause::WrongType("a string as index")),
        },
        Step::Property { name, .. } => match program.names().get(*name) {
            Some(name) => Ok(name),
            None => Err(Cause::Unsupported),
        },
        Step::Method { .. } => Err(Cause::Unsupported),
    }
}

/// A copy of the entry to which a step leads, or unit if there is none.
fn entry(
    program: &Program,
    object: &Object,
    step: &Step,
    operands: &[Value],
) -> Result<Value, Cause> {
    match object.get(entry_name(program, step, operands)?) {
        Some(value) => Ok(value.clone()?),
        None => Ok(Value::Unit),
    }
}

/// Gives the entry to which a step leads its value. It may be a new one.
fn put_entry(
    context: &Context<'_>,
    object: &mut Object,
    step: &Step,
    operands: &[Value],
    value: Value,
) -> Result<(), Cause> {
    let name = entry_name(context.program, step, operands)?;
    if object.get(name).is_some() {
        let _old = object.replace(name, value);
        return Ok(());
    }
    let _ = object.insert(String::from_str(context.alloc, name)?, value)?;
    Ok(())
}

/// What a step without a method reads of a value.
///
/// # Errors
/// The value has no such part, or out of memory.
pub fn read(
    context: &Context<'_>,
    value: &Value,
    step: &Step,
    operands: &[Value],
) -> Result<Value, Cause> {
    match (value, step) {
        (Value::Map(object), step) => entry(context.program, object, step, operands),
        (Value::Array(list), Step::Index { operand, .. }) => {
            let place = item_place(list.len(), operands.get(*operand as usize))?;
            match list.items().get(place) {
                Some(item) => Ok(item.clone()?),
                None => Err(Cause::Unsupported),
            }
        }
        (value, Step::Index { operand, .. }) => match operands.get(*operand as usize) {
            Some(index) => item_of(value, index),
            None => Err(Cause::Unsupported),
        },
        (value, Step::Property { name, .. }) => property(context, value, *name),
        (_, Step::Method { .. }) => Err(Cause::Unsupported),
    }
}

/// A property that the library reads.
fn property(context: &Context<'_>, value: &Value, name: u32) -> Result<Value, Cause> {
    if let Some(Callee::Library(function)) = context.table.callee(name)
        && function.is_property()
        && let Some(value) = without_arguments(context, function, value)?
    {
        return Ok(value);
    }
    let name = context.program.names().get(name).unwrap_or("");
    let type_name = value.type_name();
    let text = format!(in context.alloc; "{name} ({type_name})")?;
    Err(Cause::Detailed(Reason::NoProperty, text))
}

fn without_arguments(
    context: &Context<'_>,
    function: Function,
    value: &Value,
) -> Result<Option<Value>, Cause> {
    let mut receiver = value.clone()?;
    call(context.alloc, context.limits, function, &mut receiver, &[])
}

/// Assigns to the part to which a step without a method leads: an item that is there, or an entry that may be new.
fn assign(
    context: &Context<'_>,
    value: &mut Value,
    step: &Step,
    operands: &[Value],
    assigned: Value,
) -> Result<(), Cause> {
    if let Value::Map(object) = value {
        return put_entry(context, Rc::make_mut(object)?, step, operands, assigned);
    }
    let Step::Index { operand, .. } = step else {
        return Err(Cause::WrongType("map"));
    };
    let index = operands.get(*operand as usize);
    if let Value::Array(list) = value {
        let place = item_place(list.len(), index)?;
        let _ = Rc::make_mut(list)?.replace(place, assigned);
        return Ok(());
    }
    assign_item(context.alloc, context.limits, value, index, assigned)
}

/// What the method of a step gives, which may change the value in place.
fn called(
    context: &Context<'_>,
    value: &mut Value,
    step: &Step,
    operands: &[Value],
) -> Result<Value, Cause> {
    let Step::Method {
        name,
        argc,
        operand,
        ..
    } = step
    else {
        return Err(Cause::Unsupported);
    };
    let first = if *argc == 0 { 0 } else { *operand as usize };
    let Some(arguments) = operands.get(first..first.saturating_add(*argc as usize)) else {
        return Err(Cause::Unsupported);
    };
    if let Some(Callee::Library(function)) = context.table.callee(*name)
        && let Some(value) = call(context.alloc, context.limits, function, value, arguments)?
    {
        return Ok(value);
    }
    let name = context.program.names().get(*name).unwrap_or("");
    Err(Cause::no_function(context.alloc, name, Some(value), arguments))
}

/// The keys of steps that are all indices and properties; `None` if one is a method.
///
/// # Errors
/// An index is neither an integer nor a text, or out of memory.
pub fn keys_of(
    context: &Context<'_>,
    steps: &[Step],
    operands: &[Value],
) -> Result<Option<Vec<Key>>, OpError> {
    let mut keys = Vec::new(context.alloc);
    for step in steps {
        let key = match step {
            Step::Method { .. } => return Ok(None),
            Step::Index { operand, .. } => match operands.get(*operand as usize) {
                Some(Value::Int(index)) => Key::Index(*index),
                Some(Value::Text(name)) => Key::Name(name.clone()?),
                _ => {
                    let cause = Cause::WrongType("an integer or a string as index");
                    return Err(OpError::of_step(step, cause));
                }
            },
            Step::Property { name, .. } => match context.table.name(*name) {
                Some(name) => Key::Name(name.clone()?),
                None => return Err(OpError::of_step(step, Cause::Unsupported)),
            },
        };
        keys.push(key)?;
    }
    Ok(Some(keys))
}
