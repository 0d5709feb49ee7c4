//! The cases of a switch: by their values in memory, and in the order of their constants in a file.
ghost use Rattle.std.specs.Prelude.{◌≡◌, true, IfOk, map, length, slice_get};
ghost use Rattle.std.specs.HashMap.{IsUnique};
ghost use Rattle.grain_format.specs.Form.{forms};
ghost use Rattle.grain_format.specs.Reading.{Gives};
ghost use Rattle.grain_format.specs.Switches.{case_flaw, case_format, cases_format, keyed_cases};
ghost use Rattle.std.specs.List.Sorted.{IsNonDecreasingBy, IsPermutation};
ghost use Rattle.grain_format.specs.Cases.{CaseParts, are_there, ascend_from, case_view, Gathered, AreInOrder, IsListed, is_keyed_by, same_keys};

use crate::copy::copy;
use crate::cursor::Cursor;
use crate::error::{FieldFault, Stop, WriteError};
use crate::field::FileField;
use grain_base::Dynamic;
use std::alloc::{AllocError, Global};
use std::collections::HashMap;

/// A case as a file has it.
#[derive(Clone, Copy, Debug, PartialEq, Eq)]
pub struct Case {
    /// The index of its constant.
    pub constant: u32,
    /// Where it leads.
    pub target: u32,
}

impl FileField for Case {
    ghost View = { CaseParts };

    ghost view = { case_view };

    ghost format = { case_format };

    fn read(cursor: &mut Cursor<'_>) -> Result<Case, Stop> {
        let constant = u32::read(cursor)?;
        let target = u32::read(cursor)?;
        Ok(Case { constant, target })
    }

    fn write(&self, out: &mut Vec<u8>) -> Result<(), WriteError> {
        self.constant.write(out)?;
        self.target.write(out)?;
        Ok(())
    }
}

/// Whether the constants strictly ascend.
fn do_ascend(cases: &[Case]) -> bool
    ensures { result ≡ ascend_from 0 (map case_view cases.now) }
{
    let mut least = 0u64;
    for case in cases {
        if u64::from(case.constant) < least {
            return false;
        }
        least = u64::from(case.constant) + 1;
    }
    true
}

/// Whether there is a constant for each case.
fn are_there(cases: &[Case], constants: usize) -> bool
    ensures { result ≡ are_there constants (map case_view cases.now) }
{
    for case in cases {
        if case.constant as usize >= constants {
            return false;
        }
    }
    true
}

/// The cases by the values of their constants, or nothing if two of these are equal.
fn gather(
    alloc: Global,
    cases: &[Case],
    constants: &[Dynamic],
) -> Result<Option<HashMap<Dynamic, (u32, u32)>>, AllocError>
    requires { are_there (length constants.now) (map case_view cases.now) ≡ true }
    ensures { IfOk result (Gathered constants.now (map case_view cases.now)) }
{
    let mut gathered = HashMap::with_capacity(alloc, cases.len())?;
    for case in cases {
        let Some(constant) = constants.get(case.constant as usize) else {
            return Ok(None);
        };
        let key = copy(alloc, constant)?;
        let old = gathered.insert(key, (case.target, case.constant))?;
        if old.is_some() {
            return Ok(None);
        }
    }
    Ok(Some(gathered))
}

/// Whether the key is the constant at the index, shared marks apart.
fn is_keyed(constants: &[Dynamic], key: &Dynamic, constant: u32) -> bool
    ensures { result ≡ is_keyed_by (slice_get constants.now constant) key.now }
{
    match constants.get(constant as usize) {
        Some(value) => value == key,
        None => false,
    }
}

/// The cases in the order of the map, or nothing if the key of one isn't its constant.
fn list(
    alloc: Global,
    cases: &HashMap<Dynamic, (u32, u32)>,
    constants: &[Dynamic],
) -> Result<Option<Vec<Case>>, AllocError>
    ensures listed { IfOk result (IsListed constants.now cases.now) }
    ensures unique { IsUnique same_keys cases.now }
{
    let mut listed = Vec::with_capacity(alloc, cases.len())?;
    for (key, (target, constant)) in cases.iter() {
        if !is_keyed(constants, key, *constant) {
            return Ok(None);
        }
        listed.push(Case {
            constant: *constant,
            target: *target,
        })?;
    }
    Ok(Some(listed))
}

/// Puts the cases in the order of their constants.
fn sort(cases: &mut Vec<Case>)
    ensures moved { IsPermutation cases.old.items cases.new.items }
    ensures rises { IsNonDecreasingBy (λ c. c.constant) cases.new.items }
{
    cases.sort_unstable_by_key(|case| case.constant);
}

/// The cases in the order of their constants, or nothing if the key of one isn't its constant.
pub(crate) fn list_in_order(
    alloc: Global,
    cases: &HashMap<Dynamic, (u32, u32)>,
    constants: &[Dynamic],
) -> Result<Option<Vec<Case>>, AllocError>
    ensures { IfOk result (AreInOrder constants.now cases.now.entries) }
{
    let Some(mut listed) = list(alloc, cases, constants)? else {
        return Ok(None);
    };
    sort(&mut listed);
    Ok(Some(listed))
}

/// Reads the cases of a switch, at most `most` of them.
pub(crate) fn read_cases(
    cursor: &mut Cursor<'_>,
    constants: &[Dynamic],
    most: usize,
) -> Result<Option<HashMap<Dynamic, (u32, u32)>>, Stop>
    ensures { Gives (keyed_cases constants.now) result cursor.new.left.now
        ((cases_format most (forms constants.now)).reading cursor.old.left.now) }
{
    let start = cursor.left;
    let cases = Vec::<Case>::read(cursor)?;
    if let Some(fault) = flaw(&cases, constants.len(), most) {
        cursor.left = start;
        return Err(Stop::FieldFault(fault));
    }
    match gather(cursor.alloc, &cases, constants)? {
        Some(gathered) => Ok(Some(gathered)),
        None => {
            cursor.left = start;
            Err(Stop::FieldFault(FieldFault::SameCase))
        }
    }
}

/// What is wrong with cases, before their values are looked at.
fn flaw(cases: &[Case], constants: usize, most: usize) -> Option<FieldFault>
    ensures { result ≡ case_flaw constants most (map case_view cases.now) }
{
    if !do_ascend(cases) {
        return Some(FieldFault::CaseOrder);
    }
    if !are_there(cases, constants) {
        return Some(FieldFault::NoConstant);
    }
    if cases.len() > most {
        return Some(FieldFault::TooManyCases);
    }
    None
}
