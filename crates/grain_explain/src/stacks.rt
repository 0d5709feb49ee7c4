//! What is on the stacks along the edges on which a walk leaves an instruction, with the lists of bases.
ghost use Rattle.std.specs.Prelude.{◌≡◌, ◌<◌, ◌≤◌, ◌+◌, ◌^◌, ◌↔◌, [], IfOk, IsTrue, IfSome, OnOk, Some, length, slice_get, ◌-◌};
ghost use Rattle.grain_explain.specs.OnEdges.{IsListedIn, counts_on, handlers_in, pushed_in};
ghost use Rattle.grain_explain.specs.RowView.{AreLinked, list_in};
ghost use Rattle.grain_explain.specs.Scenes.{Extends, StandsOnEdge, Leaves};

use crate::edge::{Handlers, OnEdge};
use crate::lists::is_headed_by;
use crate::row::{LinkedBase, Row};
use grain_code::Flow;
use grain_rules::Effect;
use std::alloc::{AllocError, Global};
use std::collections::BTreeMap;

/// What stands on an edge.
#[derive(Clone, Copy)]
pub(crate) struct Stacks {
    pub(crate) operands: u32,
    pub(crate) iterators: u32,
    /// The list of the bases of the armed handlers.
    pub(crate) bases: u32,
}

/// What stands on the edges to the targets of an instruction, and on that to the next one.
#[derive(Clone, Copy)]
pub(crate) struct Leaving {
    pub(crate) jump: Stacks,
    pub(crate) fall: Stacks,
}

/// The bases of the handlers that a walk has seen armed.
///
/// A base that is there is found by an ordered map, so that no two are equal, and equal lists have equal numbers. No contract
/// says so: lists are compared by their bases, and that takes little time if their numbers agree.
#[derive(Drop)]
pub(crate) struct Arming {
    pub(crate) bases: Vec<LinkedBase>,
    pub(crate) numbers: BTreeMap<LinkedBase, u32>,
}

impl Stacks {
    /// The row of an address where these stand.
    pub(crate) fn at(self, at: u32) -> Row
        ensures { result ≡ record { at = at; operands = self.operands; iterators = self.iterators; bases = self.bases } }
    {
        Row {
            at,
            operands: self.operands,
            iterators: self.iterators,
            bases: self.bases,
        }
    }
}

impl Arming {
    /// No base.
    pub(crate) fn new(alloc: Global) -> Arming
        ensures { result.bases.items ≡ [] }
    {
        Arming {
            bases: Vec::new(alloc),
            numbers: BTreeMap::new(alloc),
        }
    }

    /// The bases.
    pub(crate) fn into_bases(self) -> Vec<LinkedBase>
        ensures { result ≡ self.bases }
    {
        let Arming { bases, numbers: _ } = self;
        bases
    }

    /// The list that has this base in front, if it is known.
    fn list_of(&self, base: LinkedBase) -> Option<u32>
        ensures { IfSome result (λ n. (0 < n) × (n ≤ length self.now.bases.items)
            × (slice_get self.now.bases.items (n - 1) ≡ Some base)) }
    {
        match self.numbers.get(&base) {
            Some(list) if is_headed_by(&self.bases, *list, base) => Some(*list),
            _ => None,
        }
    }

    /// The list with a base in front of the one that it names.
    ///
    /// # Errors
    /// [`AllocError`] if an allocation failed.
    fn with_base(&mut self, base: LinkedBase) -> Result<u32, AllocError>
        requires linked { AreLinked self.old.bases.items }
        requires listed { base.next ≤ length self.old.bases.items }
        requires room { length self.old.bases.items + 1 < 2 ^ 32 }
        ensures extends { OnOk result (Extends self.old.bases.items self.new.bases.items) }
        ensures grows { OnOk result (length self.new.bases.items
            ≤ length self.old.bases.items + 1) }
        ensures listed { IfOk result (λ n. n ≤ length self.new.bases.items) }
        ensures bases { IfOk result (λ n. list_in self.new.bases.items n
            ≡ handlers_in self.old.bases.items (Handlers.Pushed base)) }
    {
        if let Some(list) = self.list_of(base) {
            return Ok(list);
        }
        self.bases.push(base)?;
        let list = self.bases.len() as u32;
        self.numbers.insert(base, list)?;
        Ok(list)
    }

    /// The list of the handlers that are armed on an edge.
    ///
    /// # Errors
    /// Those of [`Arming::with_base`].
    fn list_on(&mut self, handlers: Handlers) -> Result<u32, AllocError>
        requires linked { AreLinked self.old.bases.items }
        requires listed { IsListedIn self.old.bases.items handlers }
        requires room { length self.old.bases.items + 1 < 2 ^ 32 }
        ensures extends { OnOk result (Extends self.old.bases.items self.new.bases.items) }
        ensures grows { OnOk result (length self.new.bases.items
            ≤ length self.old.bases.items + pushed_in handlers) }
        ensures listed { IfOk result (λ n. n ≤ length self.new.bases.items) }
        ensures bases { IfOk result (λ n. list_in self.new.bases.items n
            ≡ handlers_in self.old.bases.items handlers) }
    {
        match handlers {
            Handlers::Kept(list) => Ok(list),
            Handlers::Pushed(base) => self.with_base(base),
        }
    }

    /// What stands on an edge, with the list of its handlers.
    ///
    /// # Errors
    /// [`AllocError`] if an allocation failed.
    fn land(&mut self, edge: &OnEdge) -> Result<Stacks, AllocError>
        requires linked { AreLinked self.old.bases.items }
        requires listed { IsListedIn self.old.bases.items edge.now.handlers }
        requires operands { edge.now.operands < 2 ^ 32 }
        requires iterators { edge.now.iterators < 2 ^ 32 }
        requires room { length self.old.bases.items + 1 < 2 ^ 32 }
        ensures extends { OnOk result (Extends self.old.bases.items self.new.bases.items) }
        ensures grows { OnOk result (length self.new.bases.items
            ≤ length self.old.bases.items + pushed_in edge.now.handlers) }
        ensures lands { IfOk result (λ s. StandsOnEdge self.new.bases.items s
            (counts_on self.old.bases.items edge.now)) }
    {
        let bases = self.list_on(edge.handlers)?;
        Ok(Stacks {
            operands: edge.operands as u32,
            iterators: edge.iterators as u32,
            bases,
        })
    }

    /// What stands on the edges of an operation that finds a row.
    ///
    /// # Errors
    /// [`AllocError`] if an allocation failed.
    pub(crate) fn leave(&mut self, row: &Row, effect: &Effect) -> Result<Leaving, AllocError>
        requires linked { AreLinked self.old.bases.items }
        requires listed { row.now.bases ≤ length self.old.bases.items }
        requires needs { effect.now.needs ≤ row.now.operands }
        requires operands { row.now.operands + 1 < 2 ^ 32 }
        requires iterators { row.now.iterators + 1 < 2 ^ 32 }
        requires room { length self.old.bases.items + 1 < 2 ^ 32 }
        ensures extends { OnOk result (Extends self.old.bases.items self.new.bases.items) }
        ensures grows { OnOk result (length self.new.bases.items
            ≤ length self.old.bases.items + 1) }
        ensures leaves { IfOk result (Leaves self.new.bases.items row.now effect.now) }
    {
        let jump = OnEdge::to_targets(row, effect);
        let jump = self.land(&jump)?;
        if arms_handler(effect.flow) {
            return Ok(Leaving { jump, fall: jump });
        }
        let fall = OnEdge::to_next(&self.bases, row, effect);
        let fall = self.land(&fall)?;
        Ok(Leaving { jump, fall })
    }
}

/// Whether an operation that is left so arms a handler, which is then armed on both its edges.
fn arms_handler(flow: Flow) -> bool
    ensures { IsTrue result ↔ (flow ≡ Flow.PushesHandler) }
{
    flow == Flow::PushesHandler
}
