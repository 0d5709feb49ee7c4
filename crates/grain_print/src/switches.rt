//! Switches.

use crate::marks::{Marks, write_address};
use crate::values::write_value;
use grain_base::Dynamic;
use grain_pools::{Switch, SwitchRange};
use std::alloc::{AllocError, Global};
use std::collections::HashMap;

/// A case, by the place of its constant, so that cases are in one order.
#[derive(Clone, Copy)]
struct Case<'a> {
    key: &'a Dynamic,
    constant: u32,
    target: u32,
}

/// The cases in the order of their constants.
fn cases_in_order(
    alloc: Global,
    cases: &HashMap<Dynamic, (u32, u32)>,
) -> Result<Vec<Case<'_>>, AllocError> {
    let mut listed = Vec::with_capacity(alloc, cases.len())?;
    for (key, (target, constant)) in cases.iter() {
        listed.push(Case {
            key,
            constant: *constant,
            target: *target,
        })?;
    }
    listed.sort_unstable_by_key(|case| case.constant);
    Ok(listed)
}

fn write_case(
    alloc: Global,
    out: &mut String,
    marks: &Marks,
    case: &Case<'_>,
) -> Result<(), AllocError> {
    out.push_str("    case ")?;
    write_value(alloc, out, case.key)?;
    let constant = case.constant;
    write!(out, " #{constant} -> ")?;
    write_address(out, marks, case.target)?;
    out.push_str("\n")
}

fn write_range(out: &mut String, marks: &Marks, range: &SwitchRange) -> Result<(), AllocError> {
    let from = range.from;
    let to = range.to;
    if range.inclusive {
        write!(out, "    range {from}..={to} -> ")?;
    } else {
        write!(out, "    range {from}..{to} -> ")?;
    }
    write_address(out, marks, range.target)?;
    out.push_str("\n")
}

/// Appends a switch: its default, and on lines of their own its cases and its ranges.
pub fn write_switch(
    alloc: Global,
    out: &mut String,
    marks: &Marks,
    switch: &Switch,
) -> Result<(), AllocError> {
    out.push_str("  switch ")?;
    write_address(out, marks, switch.default)?;
    out.push_str("\n")?;
    if let Some(cases) = &switch.cases {
        for case in &cases_in_order(alloc, cases)? {
            write_case(alloc, out, marks, case)?;
        }
    }
    for range in &switch.ranges {
        write_range(out, marks, range)?;
    }
    Ok(())
}
