//! Rows with the chunk of which they are to be a typing.
//!
//! Rows come from anyone, so nothing is assumed of them: each test here is of one part of what a typing is.
ghost use Rattle.std.specs.Prelude.{◌≡◌, ◌≤◌, ◌<◌, ◌↔◌, ℕ, List, Some, slice_get, length};
ghost use Rattle.std.specs.Prelude.{IfErr, OnOk, IsTrue};
ghost use Rattle.grain_code.specs.Split.{Split};
ghost use Rattle.grain_rules.specs.Layout.{IsBoundary};
ghost use Rattle.grain_explain.specs.Claimed.{ArePlaced, AreSound, HasRow, IsWellFormed, IsSound};
ghost use Rattle.grain_explain.specs.OnEdges.{IsListedIn};
ghost use Rattle.grain_explain.specs.Certificate.{IsCertificate};
ghost use Rattle.grain_explain.specs.Claimed.{RefusesRows, claimed, lack_named, span_claimed};
ghost use Rattle.grain_explain.specs.RowView.{AreAscending, AreLinked, AreListed};

use crate::edge::OnEdge;
use crate::error::TypingError;
use crate::frame::boundary_from;
use crate::needs::{Lack, check_needs};
use crate::row::{LinkedBase, Row};
use grain_base::Caps;
use grain_code::{Chunk, count_instructions, decode, width};
use grain_rules::Read;

/// Rows that somebody hands in, and the chunk of which they are to be a typing.
#[derive(Drop)]
pub(crate) struct Claim<'a, P: Read> {
    pub(crate) caps: Caps,
    pub(crate) code: &'a [u8],
    pub(crate) chunk: &'a Chunk,
    pub(crate) pools: &'a P,
    pub(crate) bases: &'a [LinkedBase],
    pub(crate) rows: &'a [Row],
    /// How many operands a row may have.
    pub(crate) most: u32,
}

impl<P: Read> Claim<'_, P> {
    /// Tests that each base names a list before it.
    ///
    /// # Errors
    /// `Unlinked`, of the first that doesn't.
    fn check_bases(&self) -> Result<(), TypingError>
        ensures ok { OnOk result (AreLinked self.now.bases.now) }
        ensures err { IfErr result (RefusesRows (claimed P.facts P.leads self.now)) }
    {
        for base in 0..self.bases.len() {
            if self.bases[base].next as usize > base {
                return Err(TypingError::Unlinked { base });
            }
        }
        Ok(())
    }

    /// Tests that each row names a list that is there.
    ///
    /// # Errors
    /// `NoList`, of the first that doesn't.
    fn check_lists(&self) -> Result<(), TypingError>
        ensures ok { OnOk result (AreListed self.now.bases.now self.now.rows.now) }
        ensures err { IfErr result (RefusesRows (claimed P.facts P.leads self.now)) }
    {
        for (row, here) in self.rows.iter().enumerate() {
            if here.bases as usize > self.bases.len() {
                return Err(TypingError::NoList { row });
            }
        }
        Ok(())
    }

    /// Tests that each row is above the one before it.
    ///
    /// # Errors
    /// `NotAscending`, of the first that isn't.
    fn check_ascending(&self) -> Result<(), TypingError>
        ensures ok { OnOk result (AreAscending self.now.rows.now) }
        ensures err { IfErr result (RefusesRows (claimed P.facts P.leads self.now)) }
    {
        for row in 1..self.rows.len() {
            if self.rows[row].at <= self.rows[row - 1].at {
                return Err(TypingError::NotAscending { row });
            }
        }
        Ok(())
    }

    /// Tests that each row is at a start of the chunk, and that the chunk ends at a boundary. The code is read from a
    /// boundary on.
    ///
    /// # Errors
    /// `OutsideChunk` and `NoStart`, of the first row that isn't at one; `EndsInside`.
    fn check_places(&self, from: usize) -> Result<(), TypingError>
        requires whole { (starts : List ℕ) × Split self.now.code.now starts }
        requires here { IsBoundary self.now.code.now from }
        requires before { from ≤ self.now.chunk.now.entry }
        requires ordered { self.now.chunk.now.entry ≤ self.now.chunk.now.end }
        requires inside { self.now.chunk.now.end ≤ length self.now.code.now }
        requires ascending { AreAscending self.now.rows.now }
        ensures placed { OnOk result (ArePlaced (claimed P.facts P.leads self.now)) }
        ensures ends { OnOk result (IsBoundary self.now.code.now self.now.chunk.now.end) }
        ensures err { IfErr result (RefusesRows (claimed P.facts P.leads self.now)) }
    {
        let mut boundary = from;
        for (row, here) in self.rows.iter().enumerate() {
            if here.at < self.chunk.entry() || here.at >= self.chunk.end() {
                return Err(TypingError::OutsideChunk { row });
            }
            boundary = boundary_from(self.code, boundary, here.at as usize);
            if boundary != here.at as usize {
                return Err(TypingError::NoStart { row });
            }
        }
        let end = self.chunk.end() as usize;
        if boundary_from(self.code, boundary, end) != end {
            return Err(TypingError::EndsInside);
        }
        Ok(())
    }

    /// Whether the row at an address, if there is one, has the counts of an edge.
    pub(crate) fn has_row(&self, at: usize, edge: &OnEdge) -> bool
        requires laid { IsWellFormed (claimed P.facts P.leads self.now) }
        requires listed { IsListedIn self.now.bases.now edge.now.handlers }
        ensures { IsTrue result ↔ HasRow (claimed P.facts P.leads self.now) edge.now at }
    {
        match self.rows.binary_search_by_key(&at, |row| row.at as usize) {
            Ok(place) => edge.is_at(self.bases, &self.rows[place]),
            Err(_) => false,
        }
    }

    /// Tests that the instruction of a row finds what it asks and needs, and that its edges lead to rows with their counts.
    ///
    /// # Errors
    /// The first test that fails, by its name.
    fn check_row(&self, number: usize, row: &Row) -> Result<(), TypingError>
        requires laid { IsWellFormed (claimed P.facts P.leads self.now) }
        requires placed { ArePlaced (claimed P.facts P.leads self.now) }
        requires here { slice_get self.now.rows.now number ≡ Some row.now }
        ensures sound { OnOk result (IsSound (claimed P.facts P.leads self.now) row.now) }
        ensures err { IfErr result (RefusesRows (claimed P.facts P.leads self.now)) }
    {
        if row.operands > self.most {
            return Err(TypingError::TooDeep { row: number });
        }
        let at = row.at as usize;
        let Some(op) = decode(self.code, at) else {
            return Err(TypingError::NoStart { row: number });
        };
        let Some(width) = width(self.code, at) else {
            return Err(TypingError::NoStart { row: number });
        };
        match check_needs(self.caps, self.pools, &op, self.bases, row) {
            Ok(effect) => self.check_edges(number, row, &effect, at + width),
            Err(lack) => Err(TypingError::of_row(number, lack)),
        }
    }

    /// Tests that the chunk is framed, and the rows are a typing of it with no more operands than they may have.
    ///
    /// # Errors
    /// The first test that fails, by its name.
    pub(crate) fn check(&self) -> Result<(), TypingError>
        ensures yes { OnOk result
            (IsCertificate (claimed P.facts P.leads self.now).code (span_claimed
            (claimed P.facts P.leads self.now))
            self.now.bases.now self.now.rows.now) }
        ensures err { IfErr result (RefusesRows (claimed P.facts P.leads self.now)) }
    {
        if let Err(at) = count_instructions(self.code) {
            return Err(TypingError::Undecodable { at });
        }
        let end = self.chunk.end();
        if end as usize > self.code.len() || self.chunk.entry() > end {
            return Err(TypingError::ChunkOutOfRange);
        }
        self.check_bases()?;
        self.check_lists()?;
        self.check_from(0)
    }

    /// The same of a chunk in range and of lists that are there, in code that is whole instructions, which is read
    /// from a boundary on.
    ///
    /// # Errors
    /// The first test that fails, by its name.
    pub(crate) fn check_from(&self, from: usize) -> Result<(), TypingError>
        requires whole { (starts : List ℕ) × Split self.now.code.now starts }
        requires here { IsBoundary self.now.code.now from }
        requires before { from ≤ self.now.chunk.now.entry }
        requires ordered { self.now.chunk.now.entry ≤ self.now.chunk.now.end }
        requires inside { self.now.chunk.now.end ≤ length self.now.code.now }
        requires linked { AreLinked self.now.bases.now }
        requires listed { AreListed self.now.bases.now self.now.rows.now }
        ensures yes { OnOk result
            (IsCertificate (claimed P.facts P.leads self.now).code (span_claimed
            (claimed P.facts P.leads self.now))
            self.now.bases.now self.now.rows.now) }
        ensures err { IfErr result (RefusesRows (claimed P.facts P.leads self.now)) }
    {
        self.check_ascending()?;
        self.check_places(from)?;
        if !self.has_row(self.chunk.entry() as usize, &OnEdge::nothing()) {
            return Err(TypingError::BadEntry);
        }
        self.check_rows()
    }

    /// Tests all rows.
    ///
    /// # Errors
    /// That of the first row that is refused.
    fn check_rows(&self) -> Result<(), TypingError>
        requires laid { IsWellFormed (claimed P.facts P.leads self.now) }
        requires placed { ArePlaced (claimed P.facts P.leads self.now) }
        ensures sound { OnOk result (AreSound (claimed P.facts P.leads self.now)) }
        ensures err { IfErr result (RefusesRows (claimed P.facts P.leads self.now)) }
    {
        for (number, row) in self.rows.iter().enumerate() {
            self.check_row(number, row)?;
        }
        Ok(())
    }
}

impl TypingError {
    /// What the instruction of a row lacks.
    fn of_row(row: usize, lack: Lack) -> TypingError
        ensures { result ≡ lack_named row lack }
    {
        match lack {
            Lack::Capabilities(missing) => TypingError::MissingCaps { row, missing },
            Lack::Operands(need) => TypingError::Underflow { row, need },
            Lack::Iterators => TypingError::IteratorUnderflow { row },
            Lack::Handlers => TypingError::HandlerUnderflow { row },
            Lack::Reserve(need, have) => TypingError::SinksBelowHandler { row, need, have },
        }
    }
}
