//! Whether the edges of a row lead to rows with their counts.
//!
//! Rows are in the order of their addresses, so each is found by binary search and no table is made.
ghost use Rattle.std.specs.Prelude.{◌≤◌, length, IfErr, OnOk};
ghost use Rattle.std.specs.List.{All};
ghost use Rattle.grain_rules.specs.FlowFields.{targets_for};
ghost use Rattle.grain_rules.specs.EffectView.{flow_in};
ghost use Rattle.grain_explain.specs.Claimed.{AreMatched, HasRow, IsAstray, IsWellFormed, IsUnmatched};
ghost use Rattle.grain_explain.specs.Claimed.{MissesOne, claimed};
ghost use Rattle.grain_explain.specs.OnEdges.{IsListedIn};

use crate::claim::Claim;
use crate::edge::OnEdge;
use crate::error::TypingError;
use crate::row::Row;
use grain_code::Flow;
use grain_rules::{Effect, Read, Targets};

impl<P: Read> Claim<'_, P> {
    /// Tests that a row is at a target of an edge that has its counts.
    ///
    /// # Errors
    /// `Unmatched`.
    fn check_target(&self, number: usize, target: usize, edge: &OnEdge) -> Result<(), TypingError>
        requires laid { IsWellFormed (claimed P.facts P.leads self.now) }
        requires listed { IsListedIn self.now.bases.now edge.now.handlers }
        ensures ok { OnOk result (HasRow (claimed P.facts P.leads self.now) edge.now target) }
        ensures err { IfErr result (IsUnmatched (claimed P.facts P.leads self.now)
            edge.now number target) }
    {
        if self.has_row(target, edge) {
            Ok(())
        } else {
            Err(TypingError::Unmatched {
                row: number,
                target,
            })
        }
    }

    /// Tests targets of a switch.
    ///
    /// # Errors
    /// `Unmatched`, of one that doesn't match.
    fn check_each<T: Targets>(
        &self,
        number: usize,
        mut targets: T,
        edge: &OnEdge,
    ) -> Result<(), TypingError>
        requires laid { IsWellFormed (claimed P.facts P.leads self.now) }
        requires listed { IsListedIn self.now.bases.now edge.now.handlers }
        ensures ok { OnOk result (All (HasRow (claimed P.facts P.leads self.now) edge.now)
            (T.left targets)) }
        ensures err { IfErr result (MissesOne (claimed P.facts P.leads self.now) edge.now number
            (T.left targets)) }
    {
        while let Some(target) = targets.next() {
            self.check_target(number, target as usize, edge)?;
        }
        Ok(())
    }

    /// Tests the targets of an operation that does this.
    ///
    /// # Errors
    /// `Unmatched`, of one that doesn't match.
    fn check_targets(
        &self,
        number: usize,
        effect: &Effect,
        edge: &OnEdge,
    ) -> Result<(), TypingError>
        requires laid { IsWellFormed (claimed P.facts P.leads self.now) }
        requires listed { IsListedIn self.now.bases.now edge.now.handlers }
        ensures ok { OnOk result (All (HasRow (claimed P.facts P.leads self.now) edge.now)
            (targets_for (claimed P.facts P.leads self.now).code.switches (flow_in effect.now))) }
        ensures err { IfErr result (MissesOne (claimed P.facts P.leads self.now) edge.now number
            (targets_for (claimed P.facts P.leads self.now).code.switches (flow_in effect.now))) }
    {
        match effect.flow {
            Flow::Jumps | Flow::Branches | Flow::AdvancesIterator | Flow::PushesHandler =>
                self.check_target(number, effect.target as usize, edge),
            Flow::Switches => self.check_each(number, self.pools.targets(effect.target), edge),
            Flow::Falls
            | Flow::Ends
            | Flow::BeginsIterator
            | Flow::EndsIterator
            | Flow::PopsHandler => Ok(()),
        }
    }

    /// Tests that all edges of a row, whose next instruction is at an address, lead to rows with their counts.
    ///
    /// # Errors
    /// `Unmatched`, of one that doesn't.
    pub(crate) fn check_edges(
        &self,
        number: usize,
        row: &Row,
        effect: &Effect,
        next: usize,
    ) -> Result<(), TypingError>
        requires laid { IsWellFormed (claimed P.facts P.leads self.now) }
        requires listed { row.now.bases ≤ length self.now.bases.now }
        ensures ok { OnOk result (AreMatched (claimed P.facts P.leads self.now)
            row.now effect.now next) }
        ensures err { IfErr result (IsAstray (claimed P.facts P.leads self.now) number
            row.now effect.now next) }
    {
        let edge = OnEdge::to_targets(row, effect);
        self.check_targets(number, effect, &edge)?;
        if effect.falls() {
            let edge = OnEdge::to_next(self.bases, row, effect);
            self.check_target(number, next, &edge)?;
        }
        Ok(())
    }
}
