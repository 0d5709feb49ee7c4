//! How large values are.

/// How large a value is. Both numbers may be more than the truth after parts were taken out, and never less.
#[derive(Clone, Copy, Debug, PartialEq, Eq, Drop)]
pub struct Measure {
    /// How many values there are in it, itself included, and how many bytes of text.
    pub size: usize,
    /// How deep values are nested in it. One that holds no other has the depth 0.
    pub depth: usize,
}

/// How large a value may be.
#[derive(Clone, Copy, Debug, PartialEq, Eq, Drop)]
pub struct SizeLimits {
    /// The most values and bytes of text in one value.
    pub size: usize,
    /// The greatest depth. Comparing, printing and dropping a value recurse as deep as this.
    pub depth: usize,
}

impl SizeLimits {
    /// Whether a value of that measure is allowed.
    #[must_use]
    pub fn allow(&self, measure: Measure) -> bool {
        measure.size <= self.size && measure.depth <= self.depth
    }
}
