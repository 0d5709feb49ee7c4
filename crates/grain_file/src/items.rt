//! Where in its file each part is: what is noted while the file is written.
ghost use Rattle.std.specs.Prelude.{◌≤◌, ⊤, ℕ, OnOk};
ghost use Rattle.grain_file.specs.Outline.{IsPlacedTo};

use grain_format::Part;
use std::alloc::{AllocError, Global};

/// A part of a file, and where its bytes are.
#[derive(Clone, Copy, Debug, PartialEq, Eq)]
pub struct Item {
    /// What it is. A list is the number of its items, which follow it as parts of their own.
    pub part: Part,
    /// The place of its first byte.
    pub start: usize,
    /// The place behind its last byte.
    pub end: usize,
}

/// What is noted of the parts of a file while it is written. One writer serves with marks and without, and is compiled for
/// each.
pub(crate) trait Marks: Drop {
    /// The parts are marked up to this place.
    ghost Reach: { Self → ℕ → Type 0 };

    /// Marks the part behind those that are marked, up to this place.
    ///
    /// # Errors
    /// An allocation failed.
    fn mark(&mut self, part: Part, end: usize) -> Result<(), AllocError>
        requires reached { (from : ℕ) × Reach self.old from × (from ≤ end) }
        ensures reaches { OnOk result (Reach self.new end) };
}

/// No marks, if only the file is needed.
#[derive(Clone, Copy)]
pub(crate) struct Unmarked;

impl Marks for Unmarked {
    ghost Reach = { λ marks to. ⊤ };

    #[inline(always)]
    fn mark(&mut self, _part: Part, _end: usize) -> Result<(), AllocError> {
        Ok(())
    }
}

/// An item for each part.
#[derive(Drop)]
pub(crate) struct Placed {
    pub(crate) items: Vec<Item>,
    /// Where the last one ends.
    end: usize,
}

impl Placed {
    pub(crate) fn new(alloc: Global) -> Placed
        ensures { IsPlacedTo result 0 }
    {
        Placed {
            items: Vec::new(alloc),
            end: 0,
        }
    }
}

impl Marks for Placed {
    ghost Reach = { IsPlacedTo };

    fn mark(&mut self, part: Part, end: usize) -> Result<(), AllocError> {
        let start = self.end;
        self.items.push(Item { part, start, end })?;
        self.end = end;
        Ok(())
    }
}
