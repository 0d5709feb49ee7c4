//! Ranges of integers.

/// The integers from one to another.
#[derive(Clone, Copy, Debug, PartialEq, Eq, Drop)]
pub struct Interval {
    /// The first one.
    pub from: i64,
    /// The last one if it is inclusive, else the first one past it.
    pub to: i64,
    /// Whether `to` is one of them.
    pub inclusive: bool,
}

impl Interval {
    /// Whether the integer is one of them.
    #[must_use]
    pub fn contains(&self, number: i64) -> bool {
        let ends_later = if self.inclusive {
            number <= self.to
        } else {
            number < self.to
        };
        self.from <= number && ends_later
    }

    /// The last of them, if there is one.
    #[must_use]
    pub fn last(&self) -> Option<i64> {
        let last = if self.inclusive {
            self.to
        } else {
            self.to.checked_sub(1)?
        };
        (self.from <= last).then_some(last)
    }
}
