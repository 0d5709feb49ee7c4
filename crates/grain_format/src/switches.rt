//! Switches as fields. Their cases depend on the constants.
ghost use Rattle.std.specs.Prelude.{◌≡◌, ◌++◌, ℕ, IfOk, OnOk, map};
ghost use Rattle.grain_pools.specs.Dispatch.{arms, listed};
ghost use Rattle.grain_format.specs.Cases.{AreInOrder};
ghost use Rattle.grain_format.specs.Form.{forms};
ghost use Rattle.grain_format.specs.Formats.{tag_below};
ghost use Rattle.grain_format.specs.Lists.{counted_at};
ghost use Rattle.grain_format.specs.Reading.{Decides, Gives};
ghost use Rattle.grain_format.specs.Switches.{FitsAlone, RangeParts, bool_tag, range_format, range_parts, switch_format, switch_parts, switch_refusal, switch_spelling};

use crate::cases::{Case, list_in_order, read_cases};
use crate::cursor::Cursor;
use crate::error::{Stop, Unkept, WriteError};
use crate::field::FileField;
use crate::lists::reserve;
use crate::parts::Part;
use grain_base::Dynamic;
use grain_pools::{Switch, SwitchRange};
use std::alloc::{AllocError, Global};

impl FileField for bool {
    ghost View = { ℕ };

    ghost view = { bool_tag };

    ghost format = { tag_below 2 };

    fn read(cursor: &mut Cursor<'_>) -> Result<bool, Stop> {
        let tag = cursor.tag(2)?;
        Ok(tag == 1)
    }

    fn write(&self, out: &mut Vec<u8>) -> Result<(), WriteError> {
        if *self {
            out.push(1)?;
            Ok(())
        } else {
            out.push(0)?;
            Ok(())
        }
    }
}

impl FileField for SwitchRange {
    ghost View = { RangeParts };

    ghost view = { range_parts };

    ghost format = { range_format };

    fn read(cursor: &mut Cursor<'_>) -> Result<SwitchRange, Stop> {
        let from = i64::read(cursor)?;
        let to = i64::read(cursor)?;
        let inclusive = bool::read(cursor)?;
        let target = u32::read(cursor)?;
        Ok(SwitchRange {
            from,
            to,
            inclusive,
            target,
        })
    }

    fn write(&self, out: &mut Vec<u8>) -> Result<(), WriteError> {
        self.from.write(out)?;
        self.to.write(out)?;
        self.inclusive.write(out)?;
        self.target.write(out)?;
        Ok(())
    }
}

/// Reads a switch with at most `most` cases.
fn read_switch(cursor: &mut Cursor<'_>, constants: &[Dynamic], most: usize) -> Result<Switch, Stop>
    ensures { Gives (switch_parts constants.now) result cursor.new.left.now
        ((switch_format most (forms constants.now)).reading cursor.old.left.now) }
{
    let cases = read_cases(cursor, constants, most)?;
    let ranges = Vec::<SwitchRange>::read(cursor)?;
    let default = u32::read(cursor)?;
    Ok(Switch {
        cases,
        ranges,
        default,
    })
}

/// Reads how many switches there are, and each. A switch has at most `most` cases, each with its constant among these.
///
/// Time and memory are linear in the bytes that it reads and in the constants of the cases, of which it makes copies. If the
/// values were chosen so that their hashes are the same, time grows with the square of the number of cases.
///
/// # Errors
/// A `FieldFault` if the bytes at the cursor are no such switches: `Truncated`, `TooWide`, `NotShortest`, `UnknownTag`, `CaseOrder`,
/// `NoConstant`, `TooManyCases` or `SameCase`. `OutOfMemory` if an allocation failed.
pub fn read_switches(
    cursor: &mut Cursor<'_>,
    constants: &[Dynamic],
    most: usize,
) -> Result<Vec<Switch>, Stop>
    ensures { Gives (λ v. map (switch_parts constants.now) v.items) result cursor.new.left.now
        (counted_at (switch_format most (forms constants.now)).reading cursor.old.left.now) }
{
    cursor.part = Part::Switches;
    let count = cursor.number()?;
    let mut switches = Vec::with_capacity(cursor.alloc, reserve(count, cursor.left.len()))?;
    'switches: for index in 0..count {
        cursor.part = Part::Switch(index as usize);
        let switch = read_switch(cursor, constants, most)?;
        switches.push(switch)?;
    }
    Ok(switches)
}

/// The cases of a switch in the order of their constants.
fn cases_in_order(
    alloc: Global,
    switch: &Switch,
    constants: &[Dynamic],
) -> Result<Option<Vec<Case>>, AllocError>
    ensures { IfOk result (AreInOrder constants.now (listed (arms switch.now).cases)) }
{
    match &switch.cases {
        None => Ok(Some(Vec::new(alloc))),
        Some(cases) => list_in_order(alloc, cases, constants),
    }
}

/// Appends a switch. Time is linear in the bytes that it appends and in the keys of the cases, n log n for n cases. Memory is
/// linear in the bytes, with 8 bytes for each case.
///
/// # Errors
/// `Unkept` if the key of a case isn't its constant. `OutOfMemory` if an allocation failed.
pub fn put_switch(
    alloc: Global,
    out: &mut Vec<u8>,
    switch: &Switch,
    constants: &[Dynamic],
) -> Result<(), WriteError>
    ensures spelled { OnOk result (out.new.items
        ≡ out.old.items ++ switch_spelling (switch_parts constants.now switch.now)) }
    ensures fits { OnOk result
        (FitsAlone (forms constants.now) (switch_parts constants.now switch.now)) }
    ensures decides { Decides result (switch_refusal (switch_parts constants.now switch.now)) }
{
    let Some(cases) = cases_in_order(alloc, switch, constants)? else {
        return Err(WriteError::Unkept(Unkept::CaseKey));
    };
    cases.write(out)?;
    switch.ranges.write(out)?;
    switch.default.write(out)?;
    Ok(())
}
