//! The graph of an explained chunk.

use crate::edges::{Edge, edges_of};
use crate::labels::{Label, label_of, shortened};
use grain::Program;
use grain_code::Op;
use grain_explain::{ExplainedChunk, Refusal, Row};
use grain_listing::{
    Handlers, Naming, ProgramListing, name_of, push_name, push_position, row_at, rule, write_bases,
    write_wrong,
};
use std::alloc::{AllocError, Global};

/// How many columns the name of a function has at most.
const LONGEST_NAME: usize = 40;

/// What is known of an instruction.
#[derive(Clone, Copy, PartialEq, Eq)]
pub enum Standing {
    /// It is reached, and no handler is armed.
    Reached,
    /// It is reached, and a handler is armed.
    Guarded,
    /// The flaw is there.
    Flaw,
    /// The walk stopped at a flaw before it.
    NotVisited,
    /// No path leads there.
    Unreachable,
}

/// An instruction.
#[derive(Drop)]
pub struct Node {
    /// Its address.
    pub at: usize,
    /// Its name with what its indices lead to, in 44 columns at most.
    pub label: String,
    /// Its whole text, with its position where that is known.
    pub whole: String,
    /// What is known of it.
    pub standing: Standing,
    /// The operands and iterators there, at a conflict by both paths; empty if it isn't reached.
    pub counts: String,
    /// The bases of the armed handlers there, likewise.
    pub bases: String,
}

/// The graph of an explained chunk. Its nodes are made when they are needed.
#[derive(Drop)]
pub struct Graph<'a> {
    naming: Naming<'a>,
    handlers: Handlers<'a>,
    chunk: &'a ExplainedChunk,
    /// The instructions with their addresses, in order. Each is a node.
    pub items: &'a [(usize, Op)],
    /// What the chunk is called, where it is, and whether it passes.
    pub title: String,
    /// What is wrong, in a sentence; empty if the chunk passes.
    pub wrong: String,
    /// The rule that it breaks, in a sentence; likewise.
    pub rule: &'static str,
    /// The edges between the instructions, by where they begin.
    pub edges: Vec<Edge>,
}

/// The states at an instruction: two if two paths disagree.
#[derive(Clone, Copy)]
struct States<'a> {
    here: &'a Row,
    there: Option<&'a Row>,
}

/// The operands and iterators of a state.
fn counts_of(alloc: Global, row: &Row) -> Result<String, AllocError> {
    let operands = row.operands;
    let iterators = row.iterators;
    format!(in alloc; "{operands}, {iterators}")
}

/// The bases of a state.
fn bases_of(alloc: Global, handlers: Handlers<'_>, row: &Row) -> Result<String, AllocError> {
    let mut text = String::new(alloc);
    write_bases(handlers, row.bases, &mut text)?;
    Ok(text)
}

/// What two paths say, or once what both do.
fn joined(alloc: Global, here: String, there: Option<String>) -> Result<String, AllocError> {
    match there {
        Some(there) if there.as_str() != here.as_str() => {
            format!(in alloc; "{here} and {there}")
        }
        _ => Ok(here),
    }
}

impl States<'_> {
    fn counts(self, alloc: Global) -> Result<String, AllocError> {
        let here = counts_of(alloc, self.here)?;
        let there = match self.there {
            Some(row) => Some(counts_of(alloc, row)?),
            None => None,
        };
        joined(alloc, here, there)
    }

    fn bases(self, alloc: Global, handlers: Handlers<'_>) -> Result<String, AllocError> {
        let here = bases_of(alloc, handlers, self.here)?;
        let there = match self.there {
            Some(row) => Some(bases_of(alloc, handlers, row)?),
            None => None,
        };
        joined(alloc, here, there)
    }
}

/// The states at the flaw, if it is at this address.
fn flaw_at(chunk: &ExplainedChunk, at: usize) -> Option<States<'_>> {
    let refusal = chunk.refusal.as_ref()?;
    let here = refusal.way.first()?;
    (here.at as usize == at).then_some(States {
        here,
        there: refusal.other.first(),
    })
}

/// What is known of an instruction where the flaw isn't.
fn standing_of(chunk: &ExplainedChunk, row: Option<&Row>) -> Standing {
    match row {
        Some(row) if row.bases == 0 => Standing::Reached,
        Some(_) => Standing::Guarded,
        None if chunk.refusal.is_some() => Standing::NotVisited,
        None => Standing::Unreachable,
    }
}

/// The states at an address, and what is known of the instruction there.
fn found_at(chunk: &ExplainedChunk, at: usize) -> (Option<States<'_>>, Standing) {
    if let Some(states) = flaw_at(chunk, at) {
        return (Some(states), Standing::Flaw);
    }
    let row = match row_at(chunk, at) {
        Some((row, _)) => Some(row),
        None => None,
    };
    let standing = standing_of(chunk, row);
    let states = match row {
        Some(here) => Some(States { here, there: None }),
        None => None,
    };
    (states, standing)
}

/// The node of an instruction.
fn node_of(
    alloc: Global,
    naming: Naming<'_>,
    handlers: Handlers<'_>,
    chunk: &ExplainedChunk,
    at: usize,
    op: &Op,
) -> Result<Node, AllocError> {
    let Label { short, mut whole } = label_of(alloc, naming, op)?;
    if let Some(position) = naming.position(at) {
        whole.push_str("  @")?;
        push_position(position, &mut whole)?;
    }
    let (states, standing) = found_at(chunk, at);
    let (counts, bases) = match states {
        Some(states) => (states.counts(alloc)?, states.bases(alloc, handlers)?),
        None => (String::new(alloc), String::new(alloc)),
    };
    Ok(Node {
        at,
        label: short,
        whole,
        standing,
        counts,
        bases,
    })
}

/// What a chunk is called in a title.
fn short_name(alloc: Global, program: &Program, place: usize) -> Result<String, AllocError> {
    let mut name = String::new(alloc);
    push_name(name_of(program, place), &mut name)?;
    shortened(alloc, &name, LONGEST_NAME)
}

/// Appends where a chunk is.
fn push_bounds(
    listing: &ProgramListing,
    place: usize,
    title: &mut String,
) -> Result<(), AllocError> {
    let Some(chunk) = listing.chunks.get(place) else {
        return Ok(());
    };
    let (entry, end) = (chunk.entry(), chunk.end());
    write!(title, " from {entry} to {end}: ")
}

/// Whether a chunk passes, in a word.
fn outcome_of(listing: &ProgramListing, place: usize) -> &'static str {
    match listing.explained.chunks.get(place) {
        Some(
            ExplainedChunk {
                refusal: Some(_),
                ..
            },
        ) => "refused",
        _ => "passes",
    }
}

/// The title of a picture.
fn title_of(
    alloc: Global,
    program: &Program,
    listing: &ProgramListing,
    place: usize,
) -> Result<String, AllocError> {
    let mut title = short_name(alloc, program, place)?;
    push_bounds(listing, place, &mut title)?;
    title.push_str(outcome_of(listing, place))?;
    Ok(title)
}

/// What is wrong with a chunk, in a sentence; nothing if it passes.
fn wrong_with(alloc: Global, refusal: &Option<Refusal>) -> Result<String, AllocError> {
    let mut wrong = String::new(alloc);
    if let Some(refusal) = refusal {
        write_wrong(&refusal.error, &refusal.way, &refusal.other, &mut wrong)?;
    }
    Ok(wrong)
}

/// The rule that a chunk breaks; nothing if it passes.
fn broken_rule(refusal: &Option<Refusal>) -> &'static str {
    match refusal {
        Some(refusal) => rule(&refusal.error),
        None => "",
    }
}

impl<'a> Graph<'a> {
    /// The graph of the explained chunk at a place of a program, whose listing this is; none if no chunk is explained there. It takes
    /// time by the length of the chunk and of the paths to its flaw, and memory for its edges.
    ///
    /// # Errors
    /// [`AllocError`] if memory was refused.
    pub fn of(
        alloc: Global,
        program: &'a Program,
        listing: &'a ProgramListing,
        place: usize,
    ) -> Result<Option<Graph<'a>>, AllocError> {
        let Some(chunk) = listing.chunks.get(place) else {
            return Ok(None);
        };
        let Some(explained) = listing.explained.chunks.get(place) else {
            return Ok(None);
        };
        let items = listing
            .code
            .between(chunk.entry() as usize, chunk.end() as usize);
        Ok(Some(Graph {
            naming: Naming::Program(program),
            handlers: listing.handlers_at(place),
            chunk: explained,
            items,
            title: title_of(alloc, program, listing, place)?,
            wrong: wrong_with(alloc, &explained.refusal)?,
            rule: broken_rule(&explained.refusal),
            edges: edges_of(alloc, program, items, explained)?,
        }))
    }

    /// The node of an instruction.
    ///
    /// # Errors
    /// [`AllocError`] if memory was refused.
    pub fn node(&self, alloc: Global, item: &(usize, Op)) -> Result<Node, AllocError> {
        let (at, op) = item;
        node_of(alloc, self.naming, self.handlers, self.chunk, *at, op)
    }

    /// The address of the instruction in a row.
    pub fn address(&self, row: usize) -> Option<usize> {
        let (at, _) = self.items.get(row)?;
        Some(*at)
    }

    /// Whether the chunk is refused.
    pub fn is_refused(&self) -> bool {
        !self.wrong.is_empty()
    }
}
