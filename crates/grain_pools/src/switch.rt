//! Switches: where each subject leads.
ghost use Rattle.std.specs.Prelude.{◌≡◌};
ghost use Rattle.grain_base.specs.View.{content};
ghost use Rattle.grain_pools.specs.Dispatch.{contains, dispatched, by_cases, by_ranges, arms};

use grain_base::Dynamic;
use std::collections::HashMap;

/// A range of integers that leads to one target.
#[derive(Clone, Debug, PartialEq, Eq, Drop)]
pub struct SwitchRange {
    /// The first integer of the range.
    pub from: i64,
    /// The last integer of the range if it is inclusive, else the first one past it.
    pub to: i64,
    /// Whether the range has that last integer.
    pub inclusive: bool,
    /// Where a subject in the range leads.
    pub target: u32,
}

impl SwitchRange {
    /// Whether the value is an integer in the range, the shared marks around it apart, by whose number it takes time.
    #[must_use]
    pub fn contains(&self, value: &Dynamic) -> bool
        ensures { result ≡ contains self.now (content value.now) }
    {
        let Dynamic::Int(x) = value.unshared() else {
            return false;
        };
        let ends_later = if self.inclusive {
            *x <= self.to
        } else {
            *x < self.to
        };
        self.from <= *x && ends_later
    }
}

/// Where each subject of a switch leads.
#[derive(Drop)]
pub struct Switch {
    /// The target and the index of the constant of each case, by the value of the case.
    pub cases: Option<HashMap<Dynamic, (u32, u32)>>,
    /// The ranges, of which the first that contains the subject counts, if no case is equal to it.
    pub ranges: Vec<SwitchRange>,
    /// The target of all other subjects.
    pub default: u32,
}

impl Switch {
    /// The target of a subject: that of the case that is equal to it, else of the first range that contains it, else the
    /// default. A subject that can't be a case leads to the default too.
    ///
    /// It takes time by the size of the subject and the number of ranges, and no memory. It compares the subject with the
    /// cases whose hashes meet its own, of which there is one if hashes differ.
    #[must_use]
    pub fn dispatch(&self, subject: &Dynamic) -> u32
        ensures { result ≡ dispatched (arms self.now) (content subject.now) }
    {
        // The marks around it come off once, and not again at each range.
        let subject = subject.unshared();
        if !subject.is_hashable() {
            return self.default;
        }
        match self.case_target(subject) {
            Some(target) => target,
            None => self.range_target(subject).unwrap_or(self.default),
        }
    }

    /// The target of the case that is equal to the subject.
    fn case_target(&self, subject: &Dynamic) -> Option<u32>
        ensures { result ≡ by_cases (arms self.now).cases (content subject.now) }
    {
        let (target, _) = self.cases.as_ref()?.get(subject)?;
        Some(*target)
    }

    /// The target of the first range that contains the subject.
    fn range_target(&self, subject: &Dynamic) -> Option<u32>
        ensures { result ≡ by_ranges self.now.ranges.items (content subject.now) }
    {
        let range = self.ranges.iter().find(|range| range.contains(subject))?;
        Some(range.target)
    }
}
