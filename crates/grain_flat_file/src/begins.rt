//! The index of the first step of each chain in the list of all steps, and the same of the arms of switches and the parameters of
//! functions.
ghost use Rattle.std.specs.Prelude.{◌≡◌, IfOk, map};
ghost use Rattle.grain_flat_file.specs.Contents.{AreBegins, first_indices};

use crate::records::CFunction;
use crate::unflat::Unflat;
use grain_flat::{CChain, CSwitch};
use std::alloc::{AllocError, Global};

/// First indices, by which the items of one entry are found in constant time.
#[derive(Drop)]
pub(crate) struct Begins {
    /// The steps of each chain.
    pub(crate) chain_steps: Vec<u32>,
    /// The cases of each switch.
    pub(crate) switch_cases: Vec<u32>,
    /// The ranges of each switch.
    pub(crate) switch_ranges: Vec<u32>,
    /// The parameters of each function.
    pub(crate) function_parameters: Vec<u32>,
}

/// The first index of each part of a list, from the number of items of each part.
fn begins_of(alloc: Global, counts: &[u32]) -> Result<Vec<u32>, Unflat>
    ensures { IfOk result (λ v. v.items ≡ first_indices counts.now) }
{
    let mut begins = Vec::with_capacity(alloc, counts.len())?;
    let mut from: u32 = 0;
    for count in counts {
        begins.push(from)?;
        match from.checked_add(*count) {
            Some(next) => from = next,
            None => return Err(Unflat::TooLong),
        }
    }
    Ok(begins)
}

fn step_counts(alloc: Global, chains: &[CChain]) -> Result<Vec<u32>, AllocError>
    ensures { IfOk result (λ v. v.items ≡ map (λ (c : CChain). c.steps) chains.now) }
{
    chains.iter().map(|chain| chain.steps).collect(alloc)
}

fn case_counts(alloc: Global, switches: &[CSwitch]) -> Result<Vec<u32>, AllocError>
    ensures { IfOk result (λ v. v.items ≡ map (λ (s : CSwitch). s.cases) switches.now) }
{
    switches.iter().map(|switch| switch.cases).collect(alloc)
}

fn range_counts(alloc: Global, switches: &[CSwitch]) -> Result<Vec<u32>, AllocError>
    ensures { IfOk result (λ v. v.items ≡ map (λ (s : CSwitch). s.ranges) switches.now) }
{
    switches.iter().map(|switch| switch.ranges).collect(alloc)
}

fn parameter_counts(alloc: Global, functions: &[CFunction]) -> Result<Vec<u32>, AllocError>
    ensures { IfOk result (λ v. v.items ≡ map (λ (f : CFunction). f.parameters) functions.now) }
{
    functions
        .iter()
        .map(|function| function.parameters)
        .collect(alloc)
}

/// The first indices for the counts in these rows.
pub(crate) fn begins_by_rows(
    alloc: Global,
    chains: &[CChain],
    switches: &[CSwitch],
    functions: &[CFunction],
) -> Result<Begins, Unflat>
    ensures { IfOk result (AreBegins chains.now switches.now functions.now) }
{
    let steps = step_counts(alloc, chains)?;
    let cases = case_counts(alloc, switches)?;
    let ranges = range_counts(alloc, switches)?;
    let parameters = parameter_counts(alloc, functions)?;
    Ok(Begins {
        chain_steps: begins_of(alloc, &steps)?,
        switch_cases: begins_of(alloc, &cases)?,
        switch_ranges: begins_of(alloc, &ranges)?,
        function_parameters: begins_of(alloc, &parameters)?,
    })
}
