//! Memory that one verification of flat pools after another uses, so that a host that verifies many programs allocates for the
//! largest alone.

use crate::row_reads::Tables;
use grain_code::Chunk;
use std::alloc::Global;

/// What verification of flat pools writes as it goes, kept so that its memory serves one program after another.
///
/// [`verdict`](crate::verdict) takes memory only if there isn't enough here. Each result is right whatever was verified
/// before; which of several flaws a refusal names and when memory runs out may differ, as far as clauses say.
#[derive(Drop)]
pub struct FlatScratch {
    pub(crate) walks: grain_verify::Scratch,
    pub(crate) tables: Tables,
    /// The chunks of a program that has several, as they are verified.
    pub(crate) chunks: Vec<Chunk>,
}

impl FlatScratch {
    /// It takes no memory until a program is verified.
    #[must_use]
    #[inline(always)]
    pub fn new(alloc: Global) -> FlatScratch {
        FlatScratch {
            walks: grain_verify::Scratch::new(alloc),
            tables: Tables::new(alloc),
            chunks: Vec::new(alloc),
        }
    }

    /// Takes a list whose memory is for the numbers of the next program. What it lists is forgotten.
    pub fn keep(&mut self, numbers: Vec<u16>) {
        self.walks.keep(numbers);
    }
}
