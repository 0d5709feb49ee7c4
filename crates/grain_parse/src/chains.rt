//! Chains.

use crate::pools::Pools;
use grain_base::Flags;
use grain_lexer::{LineCursor, LineProblem, LineStop};
use grain_pools::{Chain, Root, Step, StepFlags, Tail};

fn read_root(pools: &mut Pools, cursor: &mut LineCursor<'_>) -> Result<Root, LineStop> {
    let start = cursor.left;
    match cursor.word()? {
        "local" => {
            let slot = cursor.number_16()?;
            let name = pools.read_name(cursor)?;
            Ok(Root::Local { slot, name })
        }
        "named" => {
            let name = pools.read_name(cursor)?;
            let pos = cursor.position_or_none()?;
            Ok(Root::Named { name, pos })
        }
        "this" => {
            let pos = cursor.position_or_none()?;
            Ok(Root::This { pos })
        }
        "temporary" => Ok(Root::Temporary),
        _ => {
            cursor.left = start;
            Err(LineStop::Fault(LineProblem::Word))
        }
    }
}

fn read_flags(cursor: &mut LineCursor<'_>) -> Result<StepFlags, LineStop> {
    if !cursor.eat_word("flags") {
        return Ok(StepFlags::from_bits_retain(0));
    }
    let bits = cursor.number_8()?;
    Ok(StepFlags::from_bits_retain(bits))
}

fn read_index(cursor: &mut LineCursor<'_>) -> Result<Step, LineStop> {
    let operand = cursor.number_16()?;
    let flags = read_flags(cursor)?;
    let pos = cursor.position_or_none()?;
    let bracket = cursor.position_or_none()?;
    Ok(Step::Index {
        operand,
        flags,
        pos,
        bracket,
    })
}

fn read_property(pools: &mut Pools, cursor: &mut LineCursor<'_>) -> Result<Step, LineStop> {
    let name = pools.read_name(cursor)?;
    let getter = pools.read_name(cursor)?;
    let setter = pools.read_name(cursor)?;
    let flags = read_flags(cursor)?;
    let pos = cursor.position_or_none()?;
    Ok(Step::Property {
        name,
        getter,
        setter,
        flags,
        pos,
    })
}

fn read_method(pools: &mut Pools, cursor: &mut LineCursor<'_>) -> Result<Step, LineStop> {
    let name = pools.read_name(cursor)?;
    let argc = cursor.number_8()?;
    let operand = cursor.number_16()?;
    let flags = read_flags(cursor)?;
    let pos = cursor.position_or_none()?;
    Ok(Step::Method {
        name,
        argc,
        operand,
        flags,
        pos,
    })
}

/// Reads a step, or nothing if none is next.
fn read_step(pools: &mut Pools, cursor: &mut LineCursor<'_>) -> Result<Option<Step>, LineStop> {
    let start = cursor.left;
    match cursor.word()? {
        "index" => Ok(Some(read_index(cursor)?)),
        "property" => Ok(Some(read_property(pools, cursor)?)),
        "method" => Ok(Some(read_method(pools, cursor)?)),
        _ => {
            cursor.left = start;
            Ok(None)
        }
    }
}

fn read_steps(pools: &mut Pools, cursor: &mut LineCursor<'_>) -> Result<Vec<Step>, LineStop> {
    let mut steps = Vec::new(cursor.alloc);
    for _turn in 0..cursor.left.len() {
        match read_step(pools, cursor)? {
            Some(step) => steps.push(step)?,
            None => return Ok(steps),
        }
    }
    Ok(steps)
}

fn read_tail(pools: &mut Pools, cursor: &mut LineCursor<'_>) -> Result<Tail, LineStop> {
    let start = cursor.left;
    match cursor.word()? {
        "read" => Ok(Tail::Read),
        "assign" => {
            let behind = cursor.left;
            if cursor.eat_word("operands") {
                cursor.left = behind;
                return Ok(Tail::Assign { op: None });
            }
            let op = pools.read_assign_op(cursor)?;
            Ok(Tail::Assign { op: Some(op) })
        }
        _ => {
            cursor.left = start;
            Err(LineStop::Fault(LineProblem::Word))
        }
    }
}

/// Reads a chain: its root, its steps, its tail, and how many operands the steps take.
pub(crate) fn read_chain(
    pools: &mut Pools,
    cursor: &mut LineCursor<'_>,
) -> Result<Chain, LineStop> {
    let root = read_root(pools, cursor)?;
    let steps = read_steps(pools, cursor)?;
    let tail = read_tail(pools, cursor)?;
    if !cursor.eat_word("operands") {
        return Err(LineStop::Fault(LineProblem::Missing));
    }
    let operands = cursor.number_16()?;
    Ok(Chain {
        root,
        steps,
        tail,
        operands,
    })
}
