//! Operations in the making.

use crate::level::Level;
use grain_base::pos::Site;
use grain_code::{Chunk, Op};
use grain_pools::Chain;
use std::alloc::{AllocError, Global};
use std::marker::Model;

/// A label, and what is found there.
#[derive(Drop)]
pub struct Label {
    /// The operation to which it is bound.
    pub at: u32,
    /// The labels that were open when it was made.
    pub outer: usize,
    /// How many operands there are.
    pub operands: usize,
    /// What surrounds it.
    pub level: Level,
}

/// An operation, whose targets are labels, and its place in the source text.
#[derive(Clone, Copy)]
pub struct PlacedOp {
    /// The operation.
    pub op: Op,
    /// The place of the form that it is made from.
    pub place: Site,
}

/// Where a switch leads.
#[derive(Drop)]
pub struct TableTargets {
    /// Where its cases and its ranges lead, in this order.
    pub cases: Vec<u32>,
    /// Where all other subjects lead.
    pub default: u32,
}

/// Operations in the making, whose targets are labels. Each fits where it stands. Contracts see an `Unfinished`.
#[derive(Drop)]
pub struct Assembler {
    pub(crate) alloc: Global,
    pub(crate) ops: Vec<PlacedOp>,
    pub(crate) chains: Vec<Chain>,
    pub(crate) tables: Vec<TableTargets>,
    pub(crate) labels: Vec<Label>,
    pub(crate) cuts: Vec<Chunk>,
    pub(crate) operands: usize,
    pub(crate) level: Level,
    pub(crate) pending: usize,
    pub(crate) is_fixed: bool,
}

impl Model for Assembler {
    ghost use Rattle.grain_builder.specs.Unfinished.{Unfinished};

    ghost Value = { Unfinished };

    ghost use Rattle.grain_builder.specs.Assembled.{workings_of, written};
    ghost use Rattle.grain_builder.specs.Sound.{IsWellMade};

    ghost view = { written };

    ghost invariant = { λ a. IsWellMade (workings_of a) };
}

impl Assembler {
    ghost use Rattle.std.specs.Prelude.{◌≡◌, ◌≤◌, IfOk};

    /// How many operands there are.
    pub fn operands(&self) -> usize
        ensures value { result ≡ self.now.operands }
        ensures few { result ≤ 65535 }
    {
        self.operands
    }

    /// What surrounds the next operation.
    pub fn level(&self) -> Result<Level, AllocError>
        ensures { IfOk result (λ f. f ≡ self.now.level) }
    {
        self.level.clone()
    }
}
