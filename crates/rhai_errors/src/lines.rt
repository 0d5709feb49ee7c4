//! The lines of a source text.
ghost use Rattle.std.specs.Prelude.{◌↔◌, IfOk, IsTrue};
ghost use Rattle.rhai_errors.specs.Places.{AreLengths, IsInLines};

use grain_base::pos::Site;
use std::alloc::{AllocError, Global};

/// The length of each line of a source text. With these, a place is tested in constant time.
#[derive(Drop)]
pub struct Lines {
    lengths: Vec<usize>,
}

impl Lines {
    /// The lines of a text, in time and memory linear in its length.
    ///
    /// # Errors
    /// The allocator refused.
    pub fn new(alloc: Global, source: &str) -> Result<Lines, AllocError>
        ensures { IfOk result (λ lines. AreLengths source.now lines.lengths.items) }
    {
        // No count passes the length of the text.
        let _most = source.len();
        let mut lengths = Vec::new(alloc);
        let mut columns: usize = 0;
        for c in source.chars() {
            if c == '\n' {
                lengths.push(columns)?;
                columns = 0;
            } else {
                columns += 1;
            }
        }
        lengths.push(columns)?;
        Ok(Lines { lengths })
    }

    /// Whether the place is in one of these lines, or right behind it: whether it lies in the text of which they are.
    #[must_use]
    pub fn has(&self, place: Site) -> bool
        ensures { IsTrue result ↔ IsInLines self.now.lengths.items place }
    {
        if place.line == 0 || place.column == 0 {
            return false;
        }
        match self.lengths.get((place.line - 1) as usize) {
            Some(length) => (place.column - 1) as usize <= *length,
            None => false,
        }
    }
}
