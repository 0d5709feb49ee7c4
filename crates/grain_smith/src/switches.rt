//! Switches in the making.

use crate::error::SmithError;
use crate::values::constant;
use grain::{Switch, SwitchRange};
use std::alloc::{AllocError, Global};
use std::collections::HashMap;

/// A switch in the making. Targets are labels.
#[derive(Drop)]
pub struct Table {
    /// The constants of its cases, by their indices, and where they lead.
    pub cases: Vec<(u32, u32)>,
    /// Its ranges.
    pub ranges: Vec<SwitchRange>,
    /// Where all other subjects lead.
    pub default: u32,
}

/// The operation to which a label is bound.
fn bound(labels: &[u32], label: u32) -> u32 {
    labels.get(label as usize).copied().unwrap_or(u32::MAX)
}

/// The switch of a table, whose targets are operations. The constants are those of these seeds.
fn switch(
    alloc: Global,
    table: &Table,
    seeds: &[u64],
    labels: &[u32],
) -> Result<Switch, AllocError> {
    let mut cases = HashMap::new(alloc);
    for (index, label) in &table.cases {
        if let Some(seed) = seeds.get(*index as usize) {
            let key = constant(alloc, *seed)?;
            let _ = cases.insert(key, (bound(labels, *label), *index))?;
        }
    }
    let mut ranges = Vec::new(alloc);
    for range in &table.ranges {
        ranges.push(SwitchRange {
            from: range.from,
            to: range.to,
            inclusive: range.inclusive,
            target: bound(labels, range.target),
        })?;
    }
    Ok(Switch {
        cases: Some(cases),
        ranges,
        default: bound(labels, table.default),
    })
}

/// The switches of these tables, whose targets are operations.
pub fn switches(
    alloc: Global,
    tables: &[Table],
    seeds: &[u64],
    labels: &[u32],
) -> Result<Vec<Switch>, SmithError> {
    let mut made = Vec::new(alloc);
    for table in tables {
        made.push(switch(alloc, table, seeds, labels)?)?;
    }
    Ok(made)
}
