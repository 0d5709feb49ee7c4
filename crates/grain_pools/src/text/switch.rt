//! The texts of switches and of their ranges.
ghost use Rattle.std.specs.Prelude.{◌≡◌, map, OnOk, IfOk, IfErr};
ghost use Rattle.grain_pools.specs.Dispatch.{arms, listed};
ghost use Rattle.grain_pools.specs.LookedUp.{FindsAll, NamesMissing, LooksUp, cases_sought, ordered_cases, switch_sought, switch_at_sought};

use super::error::DisassembleError;
use super::found::{find_constant, find_switch};
use crate::lookups::Lookups;
use crate::switch::{Switch, SwitchRange};
use std::alloc::{AllocError, Global};

impl SwitchRange {
    /// The text of the range: `range`, its ends, and where it leads (docs/FORMAT.md, "Texts"). It takes constant time.
    ///
    /// # Errors
    ///
    /// `AllocError` if an allocation failed.
    pub fn disassemble(&self, alloc: Global) -> Result<String, AllocError> {
        let mut out = String::new(alloc);
        write_range(&mut out, self)?;
        Ok(out)
    }
}

impl Switch {
    /// The text of the switch: its cases, by their targets and then by the indices of their constants; its ranges in
    /// order; and its default (docs/FORMAT.md, "Texts"). It takes time by its length, and for putting the cases in order.
    ///
    /// # Errors
    ///
    /// [`DisassembleError::Missing`] for the first case, in that order, whose constant isn't there;
    /// [`DisassembleError::OutOfMemory`] if an allocation failed.
    pub fn disassemble<L: Lookups>(
        &self,
        alloc: Global,
        lookups: &L,
    ) -> Result<String, DisassembleError>
        ensures ok { OnOk result (FindsAll (L.pools lookups.now) (switch_sought self.now)) }
        ensures missing { IfErr result
            (NamesMissing (L.pools lookups.now) (switch_sought self.now)) }
    {
        let mut out = String::new(alloc);
        write_switch(&mut out, lookups, self)?;
        Ok(out)
    }
}

fn write_range(out: &mut String, range: &SwitchRange) -> Result<(), AllocError> {
    let from = range.from;
    let to = range.to;
    let target = range.target;
    if range.inclusive {
        write!(out, "range {from}..={to} => {target}")
    } else {
        write!(out, "range {from}..{to} => {target}")
    }
}

/// Of each case its target and the index of its constant.
fn cases_of(alloc: Global, switch: &Switch) -> Result<Vec<(u32, u32)>, AllocError>
    ensures { IfOk result
        (λ cases. cases.items ≡ map (λ c. c.1) (listed (arms switch.now).cases)) }
{
    let mut listed = Vec::new(alloc);
    let Some(cases) = &switch.cases else {
        return Ok(listed);
    };
    for (_, case) in cases {
        listed.push(*case)?;
    }
    Ok(listed)
}

/// The same in the order of the text.
fn ordered_cases(alloc: Global, switch: &Switch) -> Result<Vec<(u32, u32)>, AllocError>
    ensures { IfOk result (λ cases. cases.items ≡ ordered_cases switch.now) }
{
    let mut cases = cases_of(alloc, switch)?;
    cases.sort_unstable();
    Ok(cases)
}

/// Writes the cases, each with a comma after it.
fn write_cases<L: Lookups>(
    out: &mut String,
    lookups: &L,
    cases: &[(u32, u32)],
) -> Result<(), DisassembleError>
    ensures { LooksUp (L.pools lookups.now) (cases_sought cases.now) result }
{
    for (target, index) in cases {
        let value = find_constant(lookups, *index)?;
        write!(out, "case {value} => {target}, ")?;
    }
    Ok(())
}

/// Writes the ranges, each with a comma after it.
fn write_ranges(out: &mut String, ranges: &[SwitchRange]) -> Result<(), AllocError> {
    for range in ranges {
        write_range(out, range)?;
        out.push_str(", ")?;
    }
    Ok(())
}

fn write_switch<L: Lookups>(
    out: &mut String,
    lookups: &L,
    switch: &Switch,
) -> Result<(), DisassembleError>
    ensures { LooksUp (L.pools lookups.now) (switch_sought switch.now) result }
{
    let cases = ordered_cases(*out.allocator(), switch)?;
    let default = switch.default;
    out.push_str("{ ")?;
    write_cases(out, lookups, &cases)?;
    write_ranges(out, &switch.ranges)?;
    write!(out, "default => {default} }}")?;
    Ok(())
}

/// Writes the text of the switch at the index.
pub fn write_switch_at<L: Lookups>(
    out: &mut String,
    lookups: &L,
    index: u32,
) -> Result<(), DisassembleError>
    ensures { LooksUp (L.pools lookups.now) (switch_at_sought index) result }
{
    let switch = find_switch(lookups, index)?;
    write!(out, "Switch({index}) ")?;
    write_switch(out, lookups, switch)
}
