//! Switches: where a subject leads.
//!
//! An arm with a condition is followed by a switch among the arms after it, to which a condition leads that doesn't hold. The
//! subject stays on the stack until an arm is taken.
ghost use Rattle.std.specs.Prelude.{◌≡◌, ◌+◌, ◌-◌, ◌≤◌, IfOk, OnOk, Some, false, length, slice_get};
ghost use Rattle.grain_builder.specs.Unfinished.{spot};
ghost use Rattle.rhai_emit.specs.Loops.{count};
ghost use Rattle.rhai_emit.specs.Rules.{IsWritten, AddsPlaces};
ghost use Rattle.rhai_emit.specs.Switches.{AreArms, LeadToArms};
ghost use Rattle.rhai_emit.specs.Places.{here};

use crate::emitter::Emitter;
use crate::table::{Leading, Spanning, Table};
use crate::writing::height_with;
use grain_base::pos::Site;
use grain_builder::TableTargets;
use rhai_errors::{CompileError, Problem, Thing};
use rhai_syntax::{Arm, Case, Literal};
use std::alloc::Global;
use std::collections::HashSet;

/// How many arms of a switch may have a condition, each of which has a table of its own.
const MAX_CONDITIONS: usize = 255;

/// Where the arms of a switch and its end are. The labels of the arms come after that where no arm is taken, the last arm's
/// first, so that each is bound while it is the last one that is open.
#[derive(Clone, Copy)]
pub struct Labels {
    /// The end.
    pub end: u32,
    /// Where no arm is taken.
    pub none: u32,
    /// Where the first arm begins, or `none` if there is no arm.
    pub first: u32,
}

impl Labels {
    /// Where the arm with this place among the arms begins; past the arms if no arm is taken.
    pub fn arm(&self, index: usize) -> u32
        requires { self.now.none ≤ self.now.first }
        ensures least { self.now.none ≤ result }
        ensures most { result ≤ self.now.first }
        ensures value { index ≤ self.now.first - self.now.none → result + index ≡ self.now.first }
    {
        let count = self.first - self.none;
        match u32::try_from(index) {
            Ok(index) if index <= count => self.first - index,
            _ => self.none,
        }
    }

    /// Where the arm with the case `_` begins, or where no arm is taken.
    fn default_of(&self, arms: &[Arm]) -> u32
        requires { self.now.none ≤ self.now.first }
        ensures least { self.now.none ≤ result }
        ensures most { result ≤ self.now.first }
    {
        for (index, arm) in arms.iter().enumerate() {
            if has_any(&arm.cases) {
                return self.arm(index);
            }
        }
        self.none
    }
}

/// The table of a switch in the making, with the labels to which it leads, and the values that lead somewhere already.
#[derive(Drop)]
struct Draft {
    table: Table,
    targets: TableTargets,
    seen: HashSet<Literal>,
}

/// Whether one of the cases is `_`.
fn has_any(cases: &[Case]) -> bool {
    for case in cases {
        match case {
            Case::Any => return true,
            _ => {}
        }
    }
    false
}

impl Emitter {
    /// A label for each arm, and two for the end. The subject is on top.
    pub fn arm_labels(&mut self, arms: &[Arm], is_wanted: bool) -> Result<Labels, CompileError>
        requires { self.old.code.level.floor + 1 ≤ self.old.code.operands }
        ensures written { OnOk result (IsWritten self.old
            (record self.new { code = record self.new.code { pending = self.old.code.pending } })
            self.old.code.operands) }
        ensures arms { IfOk result (λ l. AreArms l self.old.code.operands self.new.code) }
        ensures count { IfOk result (λ l. l.first ≡ l.none + length arms.now) }
        ensures pending { IfOk result (λ l. self.new.code.pending ≡ l.first + 1) }
        ensures end { IfOk result (λ l. slice_get self.new.code.labels l.end
            ≡ Some (spot (self.old.code.operands - 1 + count is_wanted) self.old.code.level)) }
        ensures outer { IfOk result (λ l. slice_get self.new.code.outers l.end ≡ Some self.old.code.pending) }
        ensures places { OnOk result (self.new.code.places ≡ self.old.code.places) }
    {
        let operands = self.code.operands();
        let end = self.code.label(height_with(operands - 1, is_wanted))?;
        let none = self.code.label(operands)?;
        let mut first = none;
        for _arm in arms {
            first = self.code.label(operands)?;
        }
        Ok(Labels { end, none, first })
    }

    /// Leads the subject to the first arm from this one on that has it.
    pub fn dispatch(
        &mut self,
        place: Site,
        arms: &[Arm],
        labels: &Labels,
        from: usize,
    ) -> Result<(), CompileError>
        requires room { self.old.code.level.floor + 1 ≤ self.old.code.operands }
        requires arms { AreArms labels.now self.old.code.operands self.old.code }
        ensures written { OnOk result (IsWritten self.old self.new self.old.code.operands) }
        ensures loose { OnOk result (self.new.code.fixed ≡ false) }
        ensures placed { OnOk result (AddsPlaces self.old self.new (here place)) }
    {
        let Draft { table, targets, .. } = self.drafted(arms, labels, from)?;
        let _index = self.code.switch(place, targets)?;
        self.pools.switches.push(table)?;
        Ok(())
    }

    /// The table of a switch among the arms from this one on. A value of an earlier arm leads to the case `_`.
    fn drafted(&mut self, arms: &[Arm], labels: &Labels, from: usize) -> Result<Draft, CompileError>
        requires { labels.now.none ≤ labels.now.first }
        ensures within { IfOk result (λ d. LeadToArms labels.now d.targets) }
        ensures code { self.new.code ≡ self.old.code }
        ensures scope { self.new.scope ≡ self.old.scope }
    {
        let default = labels.default_of(arms);
        let mut draft = Draft {
            table: Table {
                values: Vec::new(self.alloc),
                ranges: Vec::new(self.alloc),
            },
            targets: TableTargets {
                cases: Vec::new(self.alloc),
                default,
            },
            seen: HashSet::new(self.alloc),
        };
        for (index, arm) in arms.iter().enumerate() {
            if index >= from {
                self.add_values(&mut draft, &arm.cases, labels, labels.arm(index))?;
            }
        }
        for arm in arms.iter().take(from) {
            self.add_values(&mut draft, &arm.cases, labels, default)?;
        }
        for (index, arm) in arms.iter().enumerate() {
            if index >= from {
                add_ranges(&mut draft, &arm.cases, labels, labels.arm(index))?;
            }
        }
        Ok(draft)
    }

    /// Adds the values among the cases of an arm, except for those that were added before.
    fn add_values(
        &mut self,
        draft: &mut Draft,
        cases: &[Case],
        labels: &Labels,
        label: u32,
    ) -> Result<(), CompileError>
        requires within { LeadToArms labels.now draft.old.targets }
        requires least { labels.now.none ≤ label }
        requires most { label ≤ labels.now.first }
        ensures within { LeadToArms labels.now draft.new.targets }
        ensures code { self.new.code ≡ self.old.code }
        ensures scope { self.new.scope ≡ self.old.scope }
    {
        for case in cases {
            if let Case::Value(value) = *case
                && draft.seen.insert(value)?
            {
                let constant = self.pools.constant(value)?;
                draft.table.values.push(Leading { value, constant })?;
                draft.targets.cases.push(label)?;
            }
        }
        Ok(())
    }
}

/// Adds the ranges among the cases of an arm.
fn add_ranges(
    draft: &mut Draft,
    cases: &[Case],
    labels: &Labels,
    label: u32,
) -> Result<(), CompileError>
    requires within { LeadToArms labels.now draft.old.targets }
    requires least { labels.now.none ≤ label }
    requires most { label ≤ labels.now.first }
    ensures { LeadToArms labels.now draft.new.targets }
{
    for case in cases {
        if let Case::Range(from, to, is_inclusive) = *case {
            draft.table.ranges.push(Spanning {
                from,
                to,
                is_inclusive,
            })?;
            draft.targets.cases.push(label)?;
        }
    }
    Ok(())
}

/// No value is repeated among the arms without a condition, nor the case `_`, and not too many arms have a condition.
pub fn check_arms(alloc: Global, arms: &[Arm]) -> Result<(), CompileError> {
    let mut seen = HashSet::new(alloc);
    let mut has_default = false;
    let mut conditions: usize = 0;
    for arm in arms {
        if arm.condition.is_some() {
            conditions = conditions.saturating_add(1);
            if conditions > MAX_CONDITIONS {
                return Err(CompileError::new(arm.place, Problem::TooMany(Thing::ConditionalArms)));
            }
        } else {
            has_default = check_cases(&mut seen, arm, has_default)?;
        }
    }
    Ok(())
}

/// No case of the arm was seen before. The result is whether a case `_` was seen by now.
fn check_cases(
    seen: &mut HashSet<Literal>,
    arm: &Arm,
    has_default: bool,
) -> Result<bool, CompileError> {
    let repeated = CompileError::new(arm.place, Problem::Repeated(Thing::Case));
    let mut has_default = has_default;
    for case in &arm.cases {
        match *case {
            Case::Any if has_default => return Err(repeated),
            Case::Any => has_default = true,
            Case::Value(value) => {
                if !seen.insert(value)? {
                    return Err(repeated);
                }
            }
            Case::Range(_, _, _) => {}
        }
    }
    Ok(has_default)
}
