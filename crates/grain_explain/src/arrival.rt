//! Counts on their way to an instruction.
//!
//! They keep where they come from, which the verifier's states don't: a refusal is explained by the path that leads to it.

use crate::row::Row;

/// Counts at an instruction, or on their way there, and the place of the instruction from which they come: its distance from
/// the chunk's entry.
#[derive(Clone, Copy)]
pub(crate) struct Arrival {
    pub(crate) row: Row,
    pub(crate) from: Option<usize>,
}
