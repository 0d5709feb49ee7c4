//! The edges of a chunk's graph.

use grain::{Program, Read, Targets};
use grain_code::{Flow, Op};
use grain_explain::{ExplainedChunk, Row};
use grain_listing::row_at;
use grain_rules::Effect;
use std::alloc::{AllocError, Global};

/// How an edge is taken.
#[derive(Clone, Copy, PartialEq, Eq)]
pub enum EdgeKind {
    /// To the instruction below.
    Falls,
    /// To a target.
    Jumps,
    /// To a target where the handler catches.
    Catches,
}

/// An edge between two instructions, by their places among those of the chunk.
#[derive(Clone, Copy)]
pub struct Edge {
    /// Where it begins.
    pub from: usize,
    /// Where it leads.
    pub to: usize,
    /// How it is taken.
    pub kind: EdgeKind,
    /// Whether a path to the flaw takes it.
    pub is_on_path: bool,
}

/// A step of a path, by the addresses.
#[derive(Clone, Copy, PartialEq, Eq, PartialOrd, Ord)]
struct Step {
    from: usize,
    to: usize,
}

/// What leads on from an instruction.
#[derive(Drop)]
struct Exits {
    falls: bool,
    kind: EdgeKind,
    targets: Vec<u32>,
}

/// Appends the steps of a path, whose last state is first.
fn push_steps(path: &[Row], steps: &mut Vec<Step>) -> Result<(), AllocError> {
    for (to, from) in path.iter().zip(path.iter().skip(1)) {
        steps.push(Step {
            from: from.at as usize,
            to: to.at as usize,
        })?;
    }
    Ok(())
}

/// The steps of the paths to a flaw, in order.
fn steps_of(alloc: Global, chunk: &ExplainedChunk) -> Result<Vec<Step>, AllocError> {
    let mut steps = Vec::new(alloc);
    if let Some(refusal) = &chunk.refusal {
        push_steps(&refusal.way, &mut steps)?;
        push_steps(&refusal.other, &mut steps)?;
    }
    steps.sort()?;
    Ok(steps)
}

/// The targets of a switch, in its order.
fn list_of<T: Targets>(alloc: Global, mut targets: T) -> Result<Vec<u32>, AllocError> {
    let mut found = Vec::new(alloc);
    while let Some(target) = targets.next() {
        found.push(target)?;
    }
    Ok(found)
}

/// Where a switch may lead, each address once and in order.
fn switch_targets(alloc: Global, program: &Program, switch: u32) -> Result<Vec<u32>, AllocError> {
    let mut found = list_of(alloc, program.pools().targets(switch))?;
    found.sort()?;
    found.dedup();
    Ok(found)
}

/// What leads on from an instruction.
fn exits_of(alloc: Global, program: &Program, op: &Op) -> Result<Exits, AllocError> {
    let effect = Effect::of(op, &program.pools());
    let targets = match effect.flow {
        Flow::Switches => switch_targets(alloc, program, effect.target)?,
        _ => effect.target_address().into_iter().collect(alloc)?,
    };
    let kind = match effect.flow {
        Flow::PushesHandler => EdgeKind::Catches,
        _ => EdgeKind::Jumps,
    };
    Ok(Exits {
        falls: effect.falls(),
        kind,
        targets,
    })
}

/// Whether edges lead on from the instruction at an address: it is reached, and its flaw doesn't stop the run there.
fn is_left(chunk: &ExplainedChunk, at: usize) -> bool {
    let is_stopped = match &chunk.refusal {
        Some(refusal) if refusal.other.is_empty() => {
            matches!(refusal.way.first(), Some(row) if row.at as usize == at)
        }
        _ => false,
    };
    !is_stopped && row_at(chunk, at).is_some()
}

/// The edges of a chunk, while they are found.
#[derive(Drop)]
struct Search<'a> {
    items: &'a [(usize, Op)],
    steps: Vec<Step>,
    edges: Vec<Edge>,
}

impl Search<'_> {
    /// Adds the edge from one place to another.
    fn add(&mut self, from: usize, to: usize, kind: EdgeKind) -> Result<(), AllocError> {
        let (Some((start, _)), Some((end, _))) = (self.items.get(from), self.items.get(to)) else {
            return Ok(());
        };
        let step = Step {
            from: *start,
            to: *end,
        };
        let is_on_path = self.steps.binary_search(&step).is_ok();
        self.edges.push(Edge {
            from,
            to,
            kind,
            is_on_path,
        })?;
        Ok(())
    }

    /// Adds the edges from a place.
    fn add_all(&mut self, from: usize, exits: &Exits) -> Result<(), AllocError> {
        if exits.falls {
            self.add(from, from.saturating_add(1), EdgeKind::Falls)?;
        }
        for target in &exits.targets {
            let place = self
                .items
                .binary_search_by(|item| item.0.cmp(&(*target as usize)));
            if let Ok(to) = place {
                self.add(from, to, exits.kind)?;
            }
        }
        Ok(())
    }
}

/// The edges between these instructions of a chunk, by where they begin. An edge that leaves the chunk isn't among them, nor one from
/// an instruction that isn't reached, or at which the only path to the flaw ends.
///
/// # Errors
/// [`AllocError`] if memory was refused.
pub fn edges_of(
    alloc: Global,
    program: &Program,
    items: &[(usize, Op)],
    chunk: &ExplainedChunk,
) -> Result<Vec<Edge>, AllocError> {
    let mut search = Search {
        items,
        steps: steps_of(alloc, chunk)?,
        edges: Vec::new(alloc),
    };
    for (from, (at, op)) in items.iter().enumerate() {
        if is_left(chunk, *at) {
            let exits = exits_of(alloc, program, op)?;
            search.add_all(from, &exits)?;
        }
    }
    Ok(search.edges)
}
