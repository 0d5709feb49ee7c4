//! The lanes next to the instructions, in which jumps run.

use crate::edges::{Edge, EdgeKind};
use std::alloc::{AllocError, Global};

/// The rows next to which the jumps of one instruction run. The shortest span is the least.
#[derive(Clone, Copy, PartialEq, Eq, PartialOrd, Ord)]
struct Span {
    length: usize,
    row: usize,
    low: usize,
    high: usize,
}

/// The lane of each instruction that jumps. All jumps of one instruction share its lane.
#[derive(Drop)]
pub struct Lanes {
    of_rows: Vec<Option<usize>>,
    count: usize,
}

impl Span {
    /// The span of a jump.
    fn of(edge: &Edge) -> Span {
        let low = edge.from.min(edge.to);
        let high = edge.from.max(edge.to);
        Span {
            length: high.saturating_sub(low),
            row: edge.from,
            low,
            high,
        }
    }

    /// The span that has both.
    fn with(self, other: Span) -> Span {
        let low = self.low.min(other.low);
        let high = self.high.max(other.high);
        Span {
            length: high.saturating_sub(low),
            row: self.row,
            low,
            high,
        }
    }

    fn touches(&self, other: &Span) -> bool {
        self.low <= other.high && other.low <= self.high
    }
}

/// The span of each instruction that jumps, by its row.
fn spans_of(alloc: Global, edges: &[Edge]) -> Result<Vec<Span>, AllocError> {
    let mut spans: Vec<Span> = Vec::new(alloc);
    for edge in edges {
        if edge.kind == EdgeKind::Falls {
            continue;
        }
        let span = Span::of(edge);
        match spans.pop() {
            Some(last) if last.row == span.row => spans.push(span.with(last))?,
            Some(last) => {
                spans.push(last)?;
                spans.push(span)?;
            }
            None => spans.push(span)?,
        }
    }
    Ok(spans)
}

/// Puts a span into the first lane if it touches no other, and returns the lane.
fn put(alloc: Global, taken: &mut Vec<Vec<Span>>, span: Span) -> Result<usize, AllocError> {
    let free = taken
        .iter()
        .position(|lane| !lane.iter().any(|other| other.touches(&span)));
    let lane = free.unwrap_or(taken.len());
    match taken.get_mut(lane) {
        Some(spans) => spans.push(span)?,
        None => taken.push(vec![in alloc; span]?)?,
    }
    Ok(lane)
}

impl Lanes {
    /// Lanes for the jumps of this many instructions, so that no two in one lane touch. The shortest are nearest to the instructions.
    /// It takes time by the square of the jumps.
    ///
    /// # Errors
    /// [`AllocError`] if memory was refused.
    pub fn of(alloc: Global, rows: usize, edges: &[Edge]) -> Result<Lanes, AllocError> {
        let mut spans = spans_of(alloc, edges)?;
        spans.sort()?;
        let mut of_rows = Vec::new(alloc);
        of_rows.resize(rows, None)?;
        let mut taken = Vec::new(alloc);
        for span in &spans {
            let lane = put(alloc, &mut taken, *span)?;
            if let Some(place) = of_rows.get_mut(span.row) {
                *place = Some(lane);
            }
        }
        Ok(Lanes {
            of_rows,
            count: taken.len(),
        })
    }

    /// How many lanes there are.
    pub fn count(&self) -> usize {
        self.count
    }

    /// The lane of the jumps of the instruction in a row.
    pub fn at(&self, row: usize) -> usize {
        self.of_rows.get(row).copied().flatten().unwrap_or(0)
    }
}
