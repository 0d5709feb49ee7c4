//! Texts of operations whose length is bounded, however long the names and values of their indices are.

use crate::shown::{is_long, push_name};
use grain::Program;
use grain_base::{Dynamic, Token};
use grain_code::{Field, Op, Pool};
use grain_pools::{AssignOp, Chain, Root, Step, Switch, Tail};
use std::alloc::AllocError;
use std::collections::BTreeMap;

/// How many bytes and parts a chain, a switch or a value has at most of which the text is shown.
const ROOM: usize = 1024;

/// The room that a value leaves, or 0 if it takes more: each value in it takes its bytes and one. It looks at no more values than
/// there is room.
#[cycle(room_after)]
fn room_after(value: &Dynamic, room: usize) -> usize {
    let room = room.saturating_sub(1);
    match value {
        Dynamic::Str(text) => room.saturating_sub(text.len()),
        Dynamic::Blob(bytes) => room.saturating_sub(bytes.len()),
        Dynamic::Array(items) => room_after_items(items, room),
        Dynamic::Map(entries) => room_after_entries(entries, room),
        Dynamic::FnPtr(pointer) => room.saturating_sub(pointer.name.len()),
        Dynamic::Shared(inner) => room_after(inner, room),
        Dynamic::Host(host) => room.saturating_sub(host.type_name.len()),
        Dynamic::Unit
        | Dynamic::Bool(_)
        | Dynamic::Int(_)
        | Dynamic::Char(_)
        | Dynamic::Range(..)
        | Dynamic::RangeInclusive(..)
        | Dynamic::Float(_) => room,
    }
}

#[cycle(room_after)]
fn room_after_items(items: &[Dynamic], room: usize) -> usize {
    let mut room = room;
    for item in items {
        if room == 0 {
            break;
        }
        room = room_after(item, room);
    }
    room
}

#[cycle(room_after)]
fn room_after_entries(entries: &BTreeMap<String, Dynamic>, room: usize) -> usize {
    let mut room = room;
    for (key, value) in entries {
        if room == 0 {
            break;
        }
        room = room_after(value, room.saturating_sub(key.len()));
    }
    room
}

/// Whether the text of a value is shown in part.
fn is_long_value(value: &Dynamic) -> bool {
    match value {
        Dynamic::Str(text) => is_long(text),
        value => room_after(value, ROOM) == 0,
    }
}

/// Whether the name at an index is shown in part.
fn is_long_name(program: &Program, index: u32) -> bool {
    match program.names().get(index) {
        Some(name) => is_long(name),
        None => false,
    }
}

fn is_long_operator(token: &Token) -> bool {
    match token {
        Token::Custom(text) => is_long(text),
        _ => false,
    }
}

fn is_long_assign_op(program: &Program, assign_op: &AssignOp) -> bool {
    is_long_operator(&assign_op.op_assign)
        || is_long_operator(&assign_op.op)
        || is_long_name(program, assign_op.op_assign_name)
        || is_long_name(program, assign_op.op_name)
}

fn is_long_assign_op_at(program: &Program, index: u32) -> bool {
    match program.assign_ops().get(index as usize) {
        Some(assign_op) => is_long_assign_op(program, assign_op),
        None => false,
    }
}

/// The name at the index that a step shows.
fn name_of_step(step: &Step) -> Option<u32> {
    match step {
        Step::Index { .. } => None,
        Step::Property { name, .. } | Step::Method { name, .. } => Some(*name),
    }
}

/// The name at the index that a root shows.
fn name_of_root(root: &Root) -> Option<u32> {
    match root {
        Root::Local { name, .. } | Root::Named { name, .. } => Some(*name),
        Root::This { .. } | Root::Temporary => None,
    }
}

/// How many bytes the name at an index has.
fn bytes_of_name(program: &Program, index: Option<u32>) -> usize {
    match index {
        Some(index) => program.names().get(index).map_or(0, |name| name.len()),
        None => 0,
    }
}

/// Whether a chain has more names and steps than there is room. It looks at no more steps than that.
fn is_long_chain(program: &Program, chain: &Chain) -> bool {
    if let Tail::Assign { op: Some(op) } = chain.tail {
        if is_long_assign_op_at(program, op) {
            return true;
        }
    }
    let mut room = ROOM.saturating_sub(bytes_of_name(program, name_of_root(&chain.root)));
    for step in &chain.steps {
        if room == 0 {
            break;
        }
        let bytes = bytes_of_name(program, name_of_step(step));
        room = room.saturating_sub(bytes).saturating_sub(1);
    }
    room == 0
}

/// Whether a switch has more cases and ranges than there is room. It looks at no more cases than that.
fn is_long_switch(switch: &Switch) -> bool {
    let mut room = ROOM.saturating_sub(switch.ranges.len());
    if let Some(cases) = &switch.cases {
        for (key, _) in cases.iter() {
            if room == 0 {
                break;
            }
            room = room_after(key, room);
        }
    }
    room == 0
}

/// Whether only a part of the entry at an index is shown.
fn is_long_entry(program: &Program, pool: Pool, index: u32) -> bool {
    let place = index as usize;
    match pool {
        Pool::Names => is_long_name(program, index),
        Pool::Constants => program.consts().get(place).is_some_and(is_long_value),
        Pool::Operators => program.tokens().get(place).is_some_and(is_long_operator),
        Pool::OpAssignments => is_long_assign_op_at(program, index),
        Pool::Chains => match program.chains().get(place) {
            Some(chain) => is_long_chain(program, chain),
            None => false,
        },
        Pool::Switches => program.switches().get(place).is_some_and(is_long_switch),
        Pool::Fragments | Pool::SyntaxSites => false,
    }
}

/// Whether the text of an operation is cut. It takes constant time.
pub fn is_cut(program: &Program, op: &Op) -> bool {
    for field in op.fields().as_slice() {
        if let Field::Index(pool, index) = field {
            if is_long_entry(program, *pool, *index) {
                return true;
            }
        }
    }
    false
}

/// Appends the beginning of the entry at an index, if that is a name or a text.
fn push_front(
    program: &Program,
    pool: Pool,
    index: u32,
    text: &mut String,
) -> Result<(), AllocError> {
    match pool {
        Pool::Names => match program.names().get(index) {
            Some(name) => {
                text.push_str(" : ")?;
                push_name(name, text)
            }
            None => Ok(()),
        },
        Pool::Constants => match program.consts().get(index as usize) {
            Some(Dynamic::Str(string)) => {
                text.push_str(" = ")?;
                push_name(string, text)
            }
            _ => text.push_str(" = …"),
        },
        Pool::Chains | Pool::Switches => text.push_str(" …"),
        Pool::Operators | Pool::OpAssignments | Pool::Fragments | Pool::SyntaxSites => Ok(()),
    }
}

/// Appends the text of an operation that is cut: its debug text, and the beginning of each name and text. It takes constant time.
///
/// # Errors
/// [`AllocError`] if memory was refused.
pub fn write_cut(program: &Program, op: &Op, text: &mut String) -> Result<(), AllocError> {
    write!(text, "{op:?}")?;
    for field in op.fields().as_slice() {
        if let Field::Index(pool, index) = field {
            push_front(program, *pool, *index, text)?;
        }
    }
    Ok(())
}
