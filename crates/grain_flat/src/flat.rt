//! Whether pools are flat.
//!
//! No test takes memory, so that this refusal never hides behind an allocation that failed.
ghost use Rattle.std.specs.Prelude.{◌≡◌, ◌<◌, ◌^◌, ◌↔◌, IfNone, IfSome, IsTrue, MatchBool, MatchOption, None, length};
ghost use Rattle.std.specs.Bool.{OnTrue};
ghost use Rattle.std.specs.List.{All};
ghost use Rattle.std.specs.Str.{IsAscii, is_utf8};
ghost use Rattle.grain_pools.specs.Names.{first_flaw, span_flaw};
ghost use Rattle.grain_flat.specs.Flat.{IsAskedRow, IsChainRow, IsFlat, IsStepRow, Pooled};
ghost use Rattle.grain_flat.specs.PoolsFlaws.{ArmsFlaw, IsFirstBadName, IsFirstOther, PoolsFlaw, StepsFlaw, all_cases, all_ranges, all_steps};

use crate::lists::{CASES, CHAINS, CONSTANTS, NAMES, RANGES, STEPS, SWITCHES};
use crate::records::{CChain, CConstant, CPools, CPoolsFlaw, CStep, CSwitch};
use crate::rows::{asked_of, root_of, step_of, tail_of};
use std::str;

fn is_asked_row(row: &CConstant) -> bool
    ensures { IsTrue result ↔ IsAskedRow row.now }
{
    asked_of(row).is_some()
}

fn is_chain_row(row: &CChain) -> bool
    ensures { IsTrue result ↔ IsChainRow row.now }
{
    root_of(row.root, row.root_name, row.slot).is_some() && tail_of(row.tail, row.op).is_some()
}

fn is_step_row(row: &CStep) -> bool
    ensures { IsTrue result ↔ IsStepRow row.now }
{
    step_of(row).is_some()
}

/// The entry of a list.
fn flaw_at(list: u32, index: usize) -> CPoolsFlaw
    ensures { result ≡ record { list = list; index = index } }
{
    CPoolsFlaw {
        list,
        index: index as u64,
    }
}

fn first_other_constant(rows: &[CConstant]) -> Option<usize>
    ensures none { IfNone result (All IsAskedRow rows.now) }
    ensures some { IfSome result (IsFirstOther IsAskedRow rows.now) }
{
    for (index, row) in rows.iter().enumerate() {
        if !is_asked_row(row) {
            return Some(index);
        }
    }
    None
}

fn first_other_chain(rows: &[CChain]) -> Option<usize>
    ensures none { IfNone result (All IsChainRow rows.now) }
    ensures some { IfSome result (IsFirstOther IsChainRow rows.now) }
{
    for (index, row) in rows.iter().enumerate() {
        if !is_chain_row(row) {
            return Some(index);
        }
    }
    None
}

fn first_other_step(rows: &[CStep]) -> Option<usize>
    ensures none { IfNone result (All IsStepRow rows.now) }
    ensures some { IfSome result (IsFirstOther IsStepRow rows.now) }
    ensures small { length rows.now < 2 ^ 63 }
{
    for (index, row) in rows.iter().enumerate() {
        if !is_step_row(row) {
            return Some(index);
        }
    }
    None
}

/// Where the numbers of the steps of chains don't add up to this number.
fn steps_flaw(rows: &[CChain], steps: usize) -> Option<CPoolsFlaw>
    ensures none { IfNone result (all_steps rows.now ≡ steps) }
    ensures some { IfSome result (StepsFlaw rows.now steps) }
{
    let mut left = steps;
    for (index, row) in rows.iter().enumerate() {
        let Some(fewer) = left.checked_sub(row.steps as usize) else {
            return Some(flaw_at(CHAINS, index));
        };
        left = fewer;
    }
    if left > 0 {
        return Some(flaw_at(STEPS, steps - left));
    }
    None
}

/// Where the numbers of the cases and of the ranges of switches don't add up to these numbers.
fn arms_flaw(rows: &[CSwitch], cases: usize, ranges: usize) -> Option<CPoolsFlaw>
    ensures none { IfNone result ((all_cases rows.now ≡ cases) × (all_ranges rows.now ≡ ranges)) }
    ensures some { IfSome result (ArmsFlaw rows.now cases ranges) }
{
    let mut cases_left = cases;
    let mut ranges_left = ranges;
    for (index, row) in rows.iter().enumerate() {
        let (more_cases, more_ranges) = (row.cases as usize, row.ranges as usize);
        // One exit for both: with one for each the compiler computes for every switch what only a flaw needs.
        if cases_left < more_cases || ranges_left < more_ranges {
            return Some(flaw_at(SWITCHES, index));
        }
        cases_left -= more_cases;
        ranges_left -= more_ranges;
    }
    if cases_left > 0 {
        return Some(flaw_at(CASES, cases - cases_left));
    }
    if ranges_left > 0 {
        return Some(flaw_at(RANGES, ranges - ranges_left));
    }
    None
}

fn is_text(bytes: &[u8]) -> bool
    ensures { result ≡ is_utf8 bytes.now }
{
    str::from_utf8(bytes).is_ok()
}

/// Whether each byte is of ASCII. It has no branch for each of them.
#[tactic(auto, using(crate::proofs::AsciiNames::one_more))]
fn is_ascii(bytes: &[u8]) -> bool
    ensures { IsTrue result → IsAscii bytes.now }
{
    let mut bits = 0;
    for byte in bytes {
        bits |= *byte;
    }
    bits < 128
}

/// Whether the bytes from one start to the next are a name. If all bytes are of ASCII, any of them are text.
#[tactic(auto, using(crate::proofs::AsciiNames::span_is_text))]
fn is_name(blob: &[u8], ascii: bool, from: usize, to: usize) -> bool
    requires { IsTrue ascii → IsAscii blob.now }
    ensures { IsTrue result ↔ (span_flaw blob.now from to ≡ None) }
{
    if to < from || blob.len() < to {
        return false;
    }
    ascii || is_text(&blob[from..to])
}

/// The first name that the starts don't cut from the blob, or how many names there are if bytes are left.
fn names_flaw(blob: &[u8], starts: &[u32]) -> Option<usize>
    ensures none { IfNone result (first_flaw blob.now starts.now ≡ None) }
    ensures some { IfSome result (IsFirstBadName blob.now starts.now) }
{
    let [0, rest @ ..] = starts else {
        return Some(0);
    };
    let ascii = is_ascii(blob);
    let mut from = 0;
    for (index, start) in rest.iter().enumerate() {
        let to = *start as usize;
        if !is_name(blob, ascii, from, to) {
            return Some(index);
        }
        from = to;
    }
    if from != blob.len() {
        return Some(rest.len());
    }
    None
}

/// The first entry of the first list that isn't as it has to be, if no pools have this form: tested are the constants,
/// the chains and the steps, then the counts of steps, of cases and of ranges, and then the names.
pub fn pools_flaw(pools: &CPools<'_>) -> Option<CPoolsFlaw>
    ensures flat { IfNone result (IsFlat pools.now) }
    ensures pooled { MatchOption result (Pooled pools.now) (λ flaw. PoolsFlaw pools.now flaw
        × (Pooled pools.now → ⊥)) }
{
    if let Some(index) = first_other_constant(pools.constants) {
        return Some(flaw_at(CONSTANTS, index));
    }
    if let Some(index) = first_other_chain(pools.chains) {
        return Some(flaw_at(CHAINS, index));
    }
    if let Some(index) = first_other_step(pools.steps) {
        return Some(flaw_at(STEPS, index));
    }
    if let Some(flaw) = steps_flaw(pools.chains, pools.steps.len()) {
        return Some(flaw);
    }
    if let Some(flaw) = arms_flaw(pools.switches, pools.cases.len(), pools.ranges.len()) {
        return Some(flaw);
    }
    if let Some(index) = names_flaw(pools.names, pools.starts) {
        return Some(flaw_at(NAMES, index));
    }
    None
}

/// Whether some pools have this flat form.
pub fn is_flat(pools: &CPools<'_>) -> bool
    ensures flat { OnTrue result (IsFlat pools.now) }
    ensures pooled { MatchBool result (Pooled pools.now) (Pooled pools.now → ⊥) }
{
    pools_flaw(pools).is_none()
}
