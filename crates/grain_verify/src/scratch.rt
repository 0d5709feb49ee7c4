//! Memory that one verification after another uses, so that verifying many programs allocates for the largest alone.

use crate::asked::Asked;
use crate::lists::Lists;
use crate::walk::Traversal;
use grain_code::Starts;
use std::alloc::Global;

/// What verification writes as it goes, kept so that its memory serves one program after another.
///
/// [`Scratch::verify`] takes memory only if there isn't enough here. Each result is right whatever was verified before,
/// since its clauses require nothing of the scratch; which of several flaws a refusal names and when memory runs out may
/// differ, as far as clauses say. What it takes is kept until the scratch is dropped: as much as the largest program needed
/// that was verified with it (docs/COSTS.md).
#[derive(Drop)]
pub struct Scratch {
    pub(crate) starts: Starts,
    pub(crate) traversal: Traversal,
    pub(crate) lists: Lists,
    pub(crate) asked: Asked,
    /// The numbers of the chunks.
    pub(crate) deepest: Vec<u16>,
}

impl Scratch {
    /// It takes no memory until a program is verified.
    #[must_use]
    #[inline(always)]
    pub fn new(alloc: Global) -> Scratch {
        Scratch {
            starts: Starts::none(alloc),
            traversal: Traversal::new(alloc),
            lists: Lists::new(alloc),
            asked: Asked::new(alloc),
            deepest: Vec::new(alloc),
        }
    }

    /// Takes a list whose memory is for the numbers of the next program. What it lists is forgotten.
    pub fn keep(&mut self, numbers: Vec<u16>) {
        self.deepest = numbers;
    }
}
