//! Switches.

use crate::labels::Labels;
use crate::pools::Pools;
use crate::values::{MAX_DEPTH, read_value};
use grain_base::Dynamic;
use grain_lexer::{LineCursor, LineProblem, LineStop};
use grain_pools::{Switch, SwitchRange};
use std::alloc::{AllocError, Global};
use std::collections::HashMap;

/// Reads the arrow before a target, and the target.
fn read_target(labels: &Labels, cursor: &mut LineCursor<'_>) -> Result<u32, LineStop> {
    cursor.expect(b'-')?;
    cursor.expect(b'>')?;
    labels.read_address(cursor)
}

/// Gives a case its target and its constant, and says whether it had none.
fn put(
    cases: &mut HashMap<Dynamic, (u32, u32)>,
    key: Dynamic,
    target: u32,
    constant: u32,
) -> Result<bool, AllocError> {
    let old = cases.insert(key, (target, constant))?;
    Ok(old.is_none())
}

/// Adds a case, and says whether there was none of this key.
fn add_case(
    alloc: Global,
    switch: &mut Switch,
    key: Dynamic,
    target: u32,
    constant: u32,
) -> Result<bool, AllocError> {
    let mut cases = match switch.cases.take() {
        Some(cases) => cases,
        None => HashMap::new(alloc),
    };
    let is_new = put(&mut cases, key, target, constant);
    switch.cases = Some(cases);
    is_new
}

/// Reads a case: its key, the index of its constant, and its target.
fn read_case(
    pools: &mut Pools,
    labels: &Labels,
    cursor: &mut LineCursor<'_>,
) -> Result<(), LineStop> {
    cursor.blanks();
    let start = cursor.left;
    let key = read_value(cursor, MAX_DEPTH)?;
    let constant = match cursor.index()? {
        Some(constant) => constant,
        None => read_again(pools, cursor, start)?,
    };
    let target = read_target(labels, cursor)?;
    match pools.switches.last_mut() {
        Some(switch) => {
            if add_case(cursor.alloc, switch, key, target, constant)? {
                Ok(())
            } else {
                cursor.left = start;
                Err(LineStop::Fault(LineProblem::SameCase))
            }
        }
        None => Err(LineStop::Fault(LineProblem::NoSwitch)),
    }
}

/// The index of the constant that begins at a place of the line. The cursor stays.
fn read_again<'a>(
    pools: &mut Pools,
    cursor: &mut LineCursor<'a>,
    start: &'a [u8],
) -> Result<u32, LineStop> {
    let behind = cursor.left;
    cursor.left = start;
    let value = read_value(cursor, MAX_DEPTH)?;
    cursor.left = behind;
    pools.constant_index(value)
}

/// Reads a range: its bounds and its target.
fn read_range(
    pools: &mut Pools,
    labels: &Labels,
    cursor: &mut LineCursor<'_>,
) -> Result<(), LineStop> {
    cursor.blanks();
    let start = cursor.left;
    let (from, to, inclusive) = match read_value(cursor, 1)? {
        Dynamic::Range(from, to) => (from, to, false),
        Dynamic::RangeInclusive(from, to) => (from, to, true),
        _ => {
            cursor.left = start;
            return Err(LineStop::Fault(LineProblem::NotValue));
        }
    };
    let target = read_target(labels, cursor)?;
    match pools.switches.last_mut() {
        Some(switch) => {
            switch.ranges.push(SwitchRange {
                from,
                to,
                inclusive,
                target,
            })?;
            Ok(())
        }
        None => Err(LineStop::Fault(LineProblem::NoSwitch)),
    }
}

/// Reads a line of the switches: a switch with its default, or a case or a range of the last switch.
pub(crate) fn read_switch_line(
    pools: &mut Pools,
    labels: &Labels,
    cursor: &mut LineCursor<'_>,
) -> Result<(), LineStop> {
    let start = cursor.left;
    match cursor.word()? {
        "switch" => {
            let default = labels.read_address(cursor)?;
            let ranges = Vec::new(cursor.alloc);
            pools.switches.push(Switch {
                cases: None,
                ranges,
                default,
            })?;
            Ok(())
        }
        "case" => read_case(pools, labels, cursor),
        "range" => read_range(pools, labels, cursor),
        _ => {
            cursor.left = start;
            Err(LineStop::Fault(LineProblem::Word))
        }
    }
}
