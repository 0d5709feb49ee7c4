//! Why a chunk is accepted or refused.
ghost use Rattle.std.specs.Prelude.{◌≡◌, ◌≤◌, ◌⊎◌, ⊤, [], None, replicate};
ghost use Rattle.std.specs.Prelude.{IfOk, IfSome, MatchOption};
ghost use Rattle.std.specs.List.{All, AllZip};
ghost use Rattle.grain_rules.specs.Flaw.{ChunkFlaw, IsFrameFlaw};
ghost use Rattle.grain_explain.specs.Explaining.{IsExplained, IsOrigin, IsReachedRow, IsTypedBy};
ghost use Rattle.grain_explain.specs.Scenes.{AreHeld, IsReadyScene, first_arrival};
ghost use Rattle.grain_explain.specs.Scenes.{IsSearching, IsStarted, seen};
ghost use Rattle.grain_explain.specs.Pursuits.{ArePursued, HasRows, WasVisited, IsRefusalShown, IsNextArrival, IsRowIn};
ghost use Rattle.grain_explain.specs.RowView.{AreAscending, AreLinked};
ghost use Rattle.grain_explain.specs.declared.arrival.Arrival.{Arrival};

use crate::arrival::Arrival;
use crate::refusal::{ExplainedChunk, Refusal};
use crate::row::Row;
use crate::scene::Scene;
use crate::stacks::Arming;
use crate::walk::{Search, Visited};
use grain_rules::{Read, VerifyError};
use std::alloc::AllocError;

/// The rows of what was visited, and from where each was reached.
#[derive(Drop)]
pub(crate) struct Rows {
    pub(crate) rows: Vec<Row>,
    pub(crate) origins: Vec<Option<u32>>,
}

impl<P: Read> Scene<'_, P> {
    /// Explains the chunk.
    ///
    /// # Errors
    /// [`AllocError`] if an allocation failed.
    pub(crate) fn explain(&self) -> Result<ExplainedChunk, AllocError>
        requires { IsStarted (seen P.facts P.leads self.now) }
        ensures { IfOk result (IsExplained (seen P.facts P.leads self.now).code
            self.now.chunk.now) }
    {
        if let Err(error) = self.check_frame() {
            return Ok(self.frame_refused(error));
        }
        let mut search = self.begin()?;
        let found = self.run(&mut search)?;
        let Search {
            slots,
            work: _,
            arming,
        } = search;
        let bases = arming.into_bases();
        let visited = Visited {
            slots: &slots,
            bases: &bases,
        };
        let Rows { rows, origins } = self.rows_of(&visited)?;
        let refusal = match found {
            Some(refusal) => Some(refusal),
            None => self.certify(&visited, &rows)?,
        };
        Ok(ExplainedChunk {
            rows,
            origins,
            bases,
            refusal,
        })
    }

    /// What is said of a chunk whose frame is refused.
    fn frame_refused(&self, error: VerifyError) -> ExplainedChunk
        requires flaw { ChunkFlaw (seen P.facts P.leads self.now).code self.now.chunk.now error }
        requires frame { IsFrameFlaw (seen P.facts P.leads self.now).code self.now.chunk.now error }
        ensures { IsExplained (seen P.facts P.leads self.now).code self.now.chunk.now result }
    {
        ExplainedChunk {
            rows: Vec::new(self.alloc),
            origins: Vec::new(self.alloc),
            bases: Vec::new(self.alloc),
            refusal: Some(Refusal {
                error,
                way: Vec::new(self.alloc),
                other: Vec::new(self.alloc),
            }),
        }
    }

    /// A walk that has visited nothing.
    ///
    /// # Errors
    /// [`AllocError`] if an allocation failed.
    fn begin(&self) -> Result<Search, AllocError>
        requires { IsReadyScene (seen P.facts P.leads self.now) }
        ensures searching { IfOk result (IsSearching (seen P.facts P.leads self.now)) }
        ensures next { IfOk result (λ x. IsNextArrival (seen P.facts P.leads self.now) x 0
            (first_arrival self.now.chunk.now)) }
    {
        let length = self.chunk.end() as usize - self.chunk.entry() as usize;
        Ok(Search {
            slots: self.free_slots(length)?,
            work: Vec::new(self.alloc),
            arming: Arming::new(self.alloc),
        })
    }

    /// A list of this many places, none of them visited.
    ///
    /// # Errors
    /// [`AllocError`] if an allocation failed.
    fn free_slots(&self, length: usize) -> Result<Vec<Option<Arrival>>, AllocError>
        ensures { IfOk result (λ v. v.items ≡ replicate length None) }
    {
        let mut slots = Vec::new(self.alloc);
        slots.resize(length, None)?;
        Ok(slots)
    }

    /// The rows of what was visited, in the order of their places, each with the address from which it was reached.
    ///
    /// # Errors
    /// [`AllocError`] if an allocation failed.
    fn rows_of(&self, visited: &Visited<'_>) -> Result<Rows, AllocError>
        requires { AreHeld (seen P.facts P.leads self.now) visited.now }
        ensures reached { IfOk result (λ x. All
            (IsReachedRow (seen P.facts P.leads self.now).code self.now.chunk.now
            visited.now.bases.now)
            x.rows.items) }
        ensures origins { IfOk result (λ x. AllZip
            (IsOrigin (seen P.facts P.leads self.now).code self.now.chunk.now visited.now.bases.now)
            x.rows.items x.origins.items) }
        ensures ascending { IfOk result (λ x. AreAscending x.rows.items) }
        ensures held { IfOk result (λ x. All (IsRowIn visited.now.slots.now) x.rows.items) }
        ensures whole { IfOk result (λ x. HasRows x.rows.items visited.now.slots.now) }
    {
        let mut rows = Vec::new(self.alloc);
        let mut origins = Vec::new(self.alloc);
        for slot in visited.slots {
            if let Some(arrival) = slot {
                rows.push(arrival.row)?;
                origins.push(self.origin_of(visited, arrival))?;
            }
        }
        Ok(Rows { rows, origins })
    }

    /// The address from which an arrival came.
    fn origin_of(&self, visited: &Visited<'_>, arrival: &Arrival) -> Option<u32>
        requires come { AreHeld (seen P.facts P.leads self.now) visited.now }
        requires arrival { WasVisited visited.now.slots.now arrival.now }
        ensures { IsOrigin (seen P.facts P.leads self.now).code self.now.chunk.now
            visited.now.bases.now arrival.now.row result }
    {
        match arrival.from {
            Some(place) => Some(visited.at(place).row.at),
            None => None,
        }
    }

    /// Whether the rows of a walk that met no flaw are too deep. Else they are a typing.
    ///
    /// # Errors
    /// [`AllocError`] if an allocation failed.
    fn certify(&self, visited: &Visited<'_>, rows: &[Row]) -> Result<Option<Refusal>, AllocError>
        requires ready { IsReadyScene (seen P.facts P.leads self.now) }
        requires linked { AreLinked visited.now.bases.now }
        requires come { AreHeld (seen P.facts P.leads self.now) visited.now }
        requires pursued { ArePursued (seen P.facts P.leads self.now)
            visited.now.bases.now visited.now.slots.now [] }
        requires ascending { AreAscending rows.now }
        requires held { All (IsRowIn visited.now.slots.now) rows.now }
        requires whole { HasRows rows.now visited.now.slots.now }
        ensures { IfOk result (λ r. MatchOption r
            (IsTypedBy (seen P.facts P.leads self.now).code self.now.chunk.now visited.now.bases.now
            rows.now)
            (IsRefusalShown (seen P.facts P.leads self.now) visited.now.bases.now
            visited.now.slots.now)) }
    {
        let Some(here) = self.deepest(visited) else {
            return Ok(None);
        };
        let declared = self.chunk.max_stack();
        if here.row.operands <= u32::from(declared) {
            return Ok(None);
        }
        let error = VerifyError::StackExceedsDeclared {
            needed: here.row.operands as usize,
            declared,
        };
        Ok(Some(self.refuse(visited, here, error)?))
    }

    /// What was visited with the most operands.
    fn deepest<'a>(&self, visited: &Visited<'a>) -> Option<&'a Arrival>
        ensures holds { IfSome result (λ a. WasVisited visited.now.slots.now a.now) }
        ensures most { MatchOption result ((a : Arrival) → WasVisited visited.now.slots.now a → ⊥)
            (λ deepest. (a : Arrival) → WasVisited visited.now.slots.now a
            → a.row.operands ≤ deepest.now.row.operands) }
    {
        let mut deepest = None;
        for slot in visited.slots {
            if let Some(arrival) = slot {
                deepest = Some(deeper(deepest, arrival));
            }
        }
        deepest
    }
}

/// Of two arrivals the one with more operands.
fn deeper<'a>(before: Option<&'a Arrival>, arrival: &'a Arrival) -> &'a Arrival
    ensures either { (result.now ≡ arrival.now)
        ⊎ MatchOption before.entry ⊥ (λ b. result.now ≡ b.now) }
    ensures most { arrival.now.row.operands ≤ result.now.row.operands }
    ensures before { MatchOption before.entry ⊤
        (λ b. b.now.row.operands ≤ result.now.row.operands) }
{
    match before {
        Some(before) if before.row.operands > arrival.row.operands => before,
        _ => arrival,
    }
}
