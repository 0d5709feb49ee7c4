//! What kind of program is made.

/// What kind of program is made.
#[derive(Clone, Copy, Debug)]
pub struct SmithOptions {
    /// About how many operations it has.
    pub size: usize,
}

impl Default for SmithOptions {
    fn default() -> SmithOptions {
        SmithOptions { size: 60 }
    }
}
