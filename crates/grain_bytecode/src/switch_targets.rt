//! Targets of switches: indices of operations become offsets of code.
//!
//! They are in the pools and not in the code, so the assembler doesn't see them.
ghost use Rattle.std.specs.Prelude.{◌≡◌, ℕ, map, length, OnOk, IfErr};
ghost use Rattle.std.specs.List.{All};
ghost use Rattle.grain_bytecode.specs.declared.assemble_error.AssembleError.{AssembleError};
ghost use Rattle.grain_pools.specs.Dispatch.{AreWithin, IsFirstPast, arm_targets, arms, first_past, listed, offset_at, resolved, resolved_case, resolved_range};

use crate::assemble_error::AssembleError;
use grain_base::Dynamic;
use grain_pools::{Switch, SwitchRange};
use std::collections::HashMap;

/// The first target that is no index of as many offsets, if there is one.
#[tactic(auto, using(grain_pools::proofs::FirstPast::past_append))]
fn target_past(switch: &Switch, offsets: usize) -> Option<u32>
    ensures { result ≡ first_past offsets (arm_targets (arms switch.now)) }
{
    if let Some(target) = case_target_past(switch, offsets) {
        return Some(target);
    }
    if let Some(target) = range_target_past(&switch.ranges, offsets) {
        return Some(target);
    }
    (switch.default as usize >= offsets).then_some(switch.default)
}

fn case_target_past(switch: &Switch, offsets: usize) -> Option<u32>
    ensures { result ≡ first_past offsets (map (λ c. c.1.0) (listed (arms switch.now).cases)) }
{
    first_case_past(switch.cases.as_ref()?, offsets)
}

fn first_case_past(cases: &HashMap<Dynamic, (u32, u32)>, offsets: usize) -> Option<u32>
    ensures { result ≡ first_past offsets (map (λ c. c.1.0) cases.now.entries) }
{
    for (_, (target, _)) in cases {
        if *target as usize >= offsets {
            return Some(*target);
        }
    }
    None
}

fn range_target_past(ranges: &[SwitchRange], offsets: usize) -> Option<u32>
    ensures { result ≡ first_past offsets (map (λ r. r.target) ranges.now) }
{
    ranges
        .iter()
        .map(|range| range.target)
        .find(|target| *target as usize >= offsets)
}

/// The offset at the index; a number past the offsets stays.
fn offset_at(offsets: &[u32], target: u32) -> u32
    ensures { result ≡ offset_at offsets.now target }
{
    offsets.get(target as usize).copied().unwrap_or(target)
}

fn resolve_cases(cases: &mut HashMap<Dynamic, (u32, u32)>, offsets: &[u32])
    ensures { cases.new.entries
        ≡ map (λ c. (c.0, resolved_case offsets.now c.1)) cases.old.entries }
{
    cases.retain(|_, (target, _)| {
        *target = offset_at(offsets, *target);
        true
    });
}

fn resolve_ranges(ranges: &mut [SwitchRange], offsets: &[u32])
    ensures { ranges.new ≡ map (resolved_range offsets.now) ranges.old }
{
    for range in ranges.iter_mut() {
        range.target = offset_at(offsets, range.target);
    }
}

/// Replaces each target by the offset at that index.
fn resolve(switch: &mut Switch, offsets: &[u32])
    ensures { arms switch.new ≡ resolved offsets.now (arms switch.old) }
{
    if let Some(cases) = &mut switch.cases {
        resolve_cases(cases, offsets);
    }
    resolve_ranges(&mut switch.ranges, offsets);
    switch.default = offset_at(offsets, switch.default);
}

/// Replaces each target of each switch by the offset at that index. It goes over all cases and ranges twice, and takes no
/// memory.
///
/// # Errors
/// [`AssembleError::SwitchTargetOutOfRange`] if a target is no index of the offsets, with the first switch that has
/// such a target, and one such target. Then no switch is changed.
pub fn resolve_switch_targets(switches: &mut [Switch], offsets: &[u32]) -> Result<(), AssembleError>
    ensures fits { OnOk result (All (λ s. AreWithin (length offsets.now) (arms s)) switches.old) }
    ensures ok { OnOk result (map arms switches.new
        ≡ map (resolved offsets.now) (map arms switches.old)) }
    ensures err { IfErr result (λ e. (switches.new ≡ switches.old)
        × ((i : ℕ) × (target : ℕ) × (e ≡ AssembleError.SwitchTargetOutOfRange i target)
        × IsFirstPast (length offsets.now) switches.old i target)) }
{
    for (table, switch) in switches.iter().enumerate() {
        if let Some(target) = target_past(switch, offsets.len()) {
            return Err(AssembleError::SwitchTargetOutOfRange { table, target });
        }
    }
    for switch in switches.iter_mut() {
        resolve(switch, offsets);
    }
    Ok(())
}
