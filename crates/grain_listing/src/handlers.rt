//! The handlers that are armed when a run reaches an instruction.

use grain_explain::{ExplainedChunk, LinkedBase};
use std::alloc::{AllocError, Global};

/// How many handlers of a row are shown.
pub const SHOWN: usize = 4;

/// The lists of bases of a chunk, and how many bases each has. To count them again for each row would take time by the
/// square of the handlers that are armed within each other.
#[derive(Clone, Copy)]
pub struct Handlers<'a> {
    /// The bases.
    pub bases: &'a [LinkedBase],
    /// How many bases are in the list of each.
    pub depths: &'a [usize],
}

/// The index of the first base of a list, unless the list is empty.
fn first_of(list: u32) -> Option<usize> {
    (list as usize).checked_sub(1)
}

/// How many bases a list has, of which each depth is at the index of its first base.
fn depth_in(depths: &[usize], list: u32) -> usize {
    match first_of(list) {
        Some(first) => depths.get(first).copied().unwrap_or(0),
        None => 0,
    }
}

/// How many bases are in the list of each.
///
/// # Errors
/// [`AllocError`] if memory was refused.
fn depths_of(alloc: Global, bases: &[LinkedBase]) -> Result<Vec<usize>, AllocError> {
    let mut depths = Vec::new(alloc);
    for base in bases {
        depths.push(depth_in(&depths, base.next).saturating_add(1))?;
    }
    Ok(depths)
}

/// The same of each chunk.
///
/// # Errors
/// [`AllocError`] if memory was refused.
pub fn all_depths(alloc: Global, chunks: &[ExplainedChunk]) -> Result<Vec<Vec<usize>>, AllocError> {
    let mut all = Vec::new(alloc);
    for chunk in chunks {
        all.push(depths_of(alloc, &chunk.bases)?)?;
    }
    Ok(all)
}

impl<'a> Handlers<'a> {
    /// How many handlers are in a list.
    pub fn count(self, list: u32) -> usize {
        depth_in(self.depths, list)
    }

    /// The base of the last handler of a list.
    pub fn last(self, list: u32) -> Option<&'a LinkedBase> {
        self.bases.get(first_of(list)?)
    }
}
