//! Counts on the edges on which an operation is left.
//!
//! They name the handlers by a list that is there already and perhaps one more base, so that checking rows makes no list.
ghost use Rattle.std.specs.Prelude.{◌≡◌, ◌≤◌, ◌+◌, ◌↔◌, IsTrue, List, length};
ghost use Rattle.grain_rules.specs.Counts.{nothing, without_last};
ghost use Rattle.grain_rules.specs.FlowFields.{fall_for, jump_for};
ghost use Rattle.grain_rules.specs.EffectView.{flow_in};
ghost use Rattle.grain_explain.specs.OnEdges.{IsListedIn, counts_on, handlers_in, left_by};
ghost use Rattle.grain_explain.specs.OnEdges.{pushed_in};
ghost use Rattle.grain_explain.specs.RowView.{AreLinked, counts_of, list_in};
ghost use Rattle.grain_explain.specs.declared.row.LinkedBase.{LinkedBase};

use crate::lists::{are_same, first_base};
use crate::row::{LinkedBase, Row};
use grain_code::Flow;
use grain_rules::Effect;

/// The handlers that are armed on an edge.
#[derive(Clone, Copy)]
pub(crate) enum Handlers {
    /// Those of a list.
    Kept(u32),
    /// One that has just been armed, and those that were armed before.
    Pushed(LinkedBase),
}

/// How many operands and iterators there are on an edge, and which handlers are armed.
#[derive(Clone, Copy)]
pub(crate) struct OnEdge {
    pub(crate) operands: u64,
    pub(crate) iterators: u64,
    pub(crate) handlers: Handlers,
}

impl Handlers {
    /// Those of a row, and one that is armed there.
    fn pushed_at(row: &Row) -> Handlers
        ensures { result ≡ Handlers.Pushed
            (record { operands = row.now.operands; iterators = row.now.iterators; next = row.now.bases }) }
    {
        Handlers::Pushed(LinkedBase {
            operands: row.operands,
            iterators: row.iterators,
            next: row.bases,
        })
    }

    /// Whether these are the handlers of a list.
    fn are_in(&self, bases: &[LinkedBase], list: u32) -> bool
        requires linked { AreLinked bases.now }
        requires listed { IsListedIn bases.now self.now }
        requires other { list ≤ length bases.now }
        ensures { IsTrue result ↔ (list_in bases.now list ≡ handlers_in bases.now self.now) }
    {
        match *self {
            Handlers::Kept(own) => are_same(bases, list, own),
            Handlers::Pushed(base) => match first_base(bases, list) {
                Some(first) => {
                    if first.operands != base.operands || first.iterators != base.iterators {
                        return false;
                    }
                    are_same(bases, first.next, base.next)
                }
                None => false,
            },
        }
    }
}

impl OnEdge {
    /// What a chunk begins with.
    pub(crate) fn nothing() -> OnEdge
        ensures counts { (bases : List LinkedBase) → counts_on bases result ≡ nothing }
        ensures listed { (bases : List LinkedBase) → IsListedIn bases result.handlers }
    {
        OnEdge {
            operands: 0,
            iterators: 0,
            handlers: Handlers::Kept(0),
        }
    }

    /// The counts of a row.
    pub(crate) fn at(row: &Row) -> OnEdge
        ensures { result ≡ record {
          operands = row.now.operands;
          iterators = row.now.iterators;
          handlers = Handlers.Kept row.now.bases;
        } }
    {
        OnEdge {
            operands: u64::from(row.operands),
            iterators: u64::from(row.iterators),
            handlers: Handlers::Kept(row.bases),
        }
    }

    /// What is on the edges to the targets of an operation.
    pub(crate) fn to_targets(row: &Row, effect: &Effect) -> OnEdge
        ensures counts { (bases : List LinkedBase) → counts_on bases result
            ≡ jump_for (flow_in effect.now)
            (left_by effect.now row.now.operands) (counts_of bases row.now) }
        ensures listed { (bases : List LinkedBase) → row.now.bases ≤ length bases
            → IsListedIn bases result.handlers }
        ensures operands { effect.now.needs ≤ row.now.operands
            → result.operands ≤ row.now.operands + 1 }
        ensures iterators { result.iterators ≤ row.now.iterators + 1 }
        ensures kept { (effect.now.flow ≡ Flow.PushesHandler → ⊥)
            → pushed_in result.handlers ≡ 0 }
    {
        let here = OnEdge::at(row);
        match effect.flow {
            Flow::Falls
            | Flow::Ends
            | Flow::Jumps
            | Flow::Branches
            | Flow::Switches
            | Flow::BeginsIterator
            | Flow::EndsIterator
            | Flow::PopsHandler => OnEdge {
                operands: left(row.operands, effect),
                ..here
            },
            Flow::AdvancesIterator => OnEdge {
                iterators: here.iterators.saturating_sub(1),
                ..here
            },
            Flow::PushesHandler => OnEdge {
                handlers: Handlers::pushed_at(row),
                ..here
            },
        }
    }

    /// What is on the edge to the next operation.
    pub(crate) fn to_next(bases: &[LinkedBase], row: &Row, effect: &Effect) -> OnEdge
        requires linked { AreLinked bases.now }
        requires listed { row.now.bases ≤ length bases.now }
        ensures counts { counts_on bases.now result ≡ fall_for (flow_in effect.now)
            (left_by effect.now row.now.operands) (counts_of bases.now row.now) }
        ensures listed { IsListedIn bases.now result.handlers }
        ensures operands { effect.now.needs ≤ row.now.operands
            → result.operands ≤ row.now.operands + 1 }
        ensures iterators { result.iterators ≤ row.now.iterators + 1 }
        ensures kept { (effect.now.flow ≡ Flow.PushesHandler → ⊥)
            → pushed_in result.handlers ≡ 0 }
    {
        let here = OnEdge::at(row);
        match effect.flow {
            Flow::Falls | Flow::Ends | Flow::Jumps | Flow::Branches | Flow::Switches => {
                OnEdge {
                    operands: left(row.operands, effect),
                    ..here
                }
            }
            Flow::BeginsIterator => OnEdge {
                operands: left(row.operands, effect),
                iterators: here.iterators + 1,
                ..here
            },
            Flow::AdvancesIterator => OnEdge {
                operands: here.operands + 1,
                ..here
            },
            Flow::EndsIterator => OnEdge {
                iterators: here.iterators.saturating_sub(1),
                ..here
            },
            Flow::PushesHandler => OnEdge {
                handlers: Handlers::pushed_at(row),
                ..here
            },
            Flow::PopsHandler => OnEdge {
                handlers: Handlers::Kept(list_behind(bases, row.bases)),
                ..here
            },
        }
    }

    /// Whether a row has these counts.
    pub(crate) fn is_at(&self, bases: &[LinkedBase], row: &Row) -> bool
        requires linked { AreLinked bases.now }
        requires listed { IsListedIn bases.now self.now.handlers }
        requires row { row.now.bases ≤ length bases.now }
        ensures { IsTrue result ↔ (counts_of bases.now row.now ≡ counts_on bases.now self.now) }
    {
        u64::from(row.operands) == self.operands
            && u64::from(row.iterators) == self.iterators
            && self.handlers.are_in(bases, row.bases)
    }
}

/// How many operands an operation leaves of these.
fn left(operands: u32, effect: &Effect) -> u64
    ensures { result ≡ left_by effect.now operands }
{
    u64::from(operands).saturating_sub(u64::from(effect.takes)) + u64::from(effect.gives)
}

/// A list without its last base, which comes first.
fn list_behind(bases: &[LinkedBase], list: u32) -> u32
    requires linked { AreLinked bases.now }
    requires listed { list ≤ length bases.now }
    ensures bases { list_in bases.now result ≡ without_last (list_in bases.now list) }
    ensures listed { result ≤ length bases.now }
{
    match first_base(bases, list) {
        Some(first) => first.next,
        None => 0,
    }
}
