//! The walk over one chunk: what it visits, on which path, and the flaw that it meets.
//!
//! It isn't the verifier's walk, which is fast since it forgets what this one keeps.
ghost use Rattle.std.specs.Prelude.{◌≡◌, ◌+◌, ◌<◌, ◌≤◌, ◌^◌, [], None, Some, get_or, length, true};
ghost use Rattle.std.specs.Prelude.{IfErr, IfNone, IfOk, IfSome, OnOk};
ghost use Rattle.std.specs.List.{All, Contains};
ghost use Rattle.grain_rules.specs.Code.{coded};
ghost use Rattle.grain_rules.specs.Flaw.{ChunkFlaw};
ghost use Rattle.grain_rules.specs.FlowFields.{falls_for, targets_for};
ghost use Rattle.grain_rules.specs.EffectView.{flow_in};
ghost use Rattle.grain_rules.specs.Typing.{IsInChunk};
ghost use Rattle.grain_explain.specs.Pursuits.{ArePursued, WasVisited, IsBegun, IsRefusalShown, IsNextArrival};
ghost use Rattle.grain_explain.specs.Pursuits.{IsPursued, IsRowIn, IsTurn, Keeps, sent_to_next, sent_to};
ghost use Rattle.grain_explain.specs.Scenes.{AreCome, AreHeld, ArrivesInWalk, IsCome, IsReadyScene};
ghost use Rattle.grain_explain.specs.Scenes.{IsHeld, IsSearching};
ghost use Rattle.grain_explain.specs.Scenes.{Extends, IsLeft, MissesTargetOf, error_lacking, seen};
ghost use Rattle.grain_explain.specs.Scenes.{first_arrival, visit_count};
ghost use Rattle.grain_explain.specs.RowView.{AreLinked};
ghost use Rattle.grain_explain.specs.Ways.{IsWayTo, Shows, arrival_stop, stops_of};

use crate::arrival::Arrival;
use crate::edge::OnEdge;
use crate::needs::{Lack, check_needs};
use crate::refusal::Refusal;
use crate::row::{LinkedBase, Row};
use crate::scene::Scene;
use crate::stacks::{Arming, Leaving};
use crate::switches::targets_of;
use grain_code::decode_standing;
use grain_rules::{Effect, Read, VerifyError};
use std::alloc::AllocError;

/// What a walk has visited, by the distance from the chunk's entry, what waits, and the handlers that it has seen armed.
#[derive(Drop)]
pub(crate) struct Search {
    pub(crate) slots: Vec<Option<Arrival>>,
    pub(crate) work: Vec<Arrival>,
    pub(crate) arming: Arming,
}

/// What a walk does next.
#[derive(Drop)]
pub(crate) enum Turn {
    /// Nothing waits.
    Finished,
    /// It visits an instruction, whose place is free.
    Visit(usize, Arrival),
    /// It ends with the refusal of a conflict.
    Refused(Refusal),
}

/// What a walk has visited, by the distance from the chunk's entry, and the bases whose lists are named there.
#[derive(Clone, Copy)]
pub(crate) struct Visited<'a> {
    pub(crate) slots: &'a [Option<Arrival>],
    pub(crate) bases: &'a [LinkedBase],
}

/// An instruction that is left: what is there, its place, what it does, what is on its edges, and the address of the next.
#[derive(Clone, Copy)]
pub(crate) struct Departure<'a> {
    pub(crate) visited: Visited<'a>,
    pub(crate) here: &'a Arrival,
    pub(crate) place: usize,
    pub(crate) effect: &'a Effect,
    pub(crate) leaving: Leaving,
    pub(crate) next: usize,
}

impl Visited<'_> {
    /// What was visited at a place.
    pub(crate) fn at(&self, place: usize) -> &Arrival
        requires { (a : Arrival) × (get_or self.now.slots.now place None ≡ Some a) }
        ensures { get_or self.now.slots.now place None ≡ Some result.now }
    {
        let Some(arrival) = &self.slots[place] else {
            unreachable!()
        };
        arrival
    }
}

impl<P: Read> Scene<'_, P> {
    /// Walks until nothing waits, or a flaw is met. Each turn visits a place that was free, so that it ends.
    ///
    /// # Errors
    /// [`AllocError`] if an allocation failed.
    pub(crate) fn run(&self, search: &mut Search) -> Result<Option<Refusal>, AllocError>
        requires ready { IsReadyScene (seen P.facts P.leads self.now) }
        requires searching { IsSearching (seen P.facts P.leads self.now) search.old }
        requires next { IsNextArrival (seen P.facts P.leads self.now) search.old 0
            (first_arrival self.now.chunk.now) }
        ensures come { OnOk result (AreCome (seen P.facts P.leads self.now)
            search.new.arming.bases.items search.new.slots.items) }
        ensures linked { OnOk result (AreLinked search.new.arming.bases.items) }
        ensures pursued { IfOk result (λ r. IfNone r (ArePursued (seen P.facts P.leads self.now)
            search.new.arming.bases.items search.new.slots.items [])) }
        ensures refusal { IfOk result (λ r. IfSome r (IsRefusalShown (seen P.facts P.leads self.now)
            search.new.arming.bases.items search.new.slots.items)) }
    {
        let mut next = Turn::Visit(0, self.first());
        'turns: loop {
            match next {
                Turn::Finished => return Ok(None),
                Turn::Refused(refusal) => return Ok(Some(refusal)),
                Turn::Visit(place, arrival) => {
                    let refusal = self.visit(search, place, arrival)?;
                    if refusal.is_some() {
                        return Ok(refusal);
                    }
                    next = self.turn(search)?;
                }
            }
        }
    }

    /// What the walk begins with: the entry, with nothing on the stacks.
    fn first(&self) -> Arrival
        ensures { result ≡ first_arrival self.now.chunk.now }
    {
        Arrival {
            row: Row {
                at: self.chunk.entry(),
                operands: 0,
                iterators: 0,
                bases: 0,
            },
            from: None,
        }
    }

    /// Takes arrivals whose places were visited, and compares each with what is there, until one's place is free.
    ///
    /// # Errors
    /// [`AllocError`] if an allocation failed.
    fn turn(&self, search: &mut Search) -> Result<Turn, AllocError>
        requires ready { IsReadyScene (seen P.facts P.leads self.now) }
        requires searching { IsSearching (seen P.facts P.leads self.now) search.old }
        requires pursued { ArePursued (seen P.facts P.leads self.now) search.old.arming.bases.items
            search.old.slots.items search.old.work.items }
        requires begun { IsBegun search.old.slots.items }
        ensures slots { OnOk result (search.new.slots.items ≡ search.old.slots.items) }
        ensures searching { OnOk result (IsSearching (seen P.facts P.leads self.now) search.new) }
        ensures turn { IfOk result (IsTurn (seen P.facts P.leads self.now) search.new) }
    {
        while let Some(arrival) = search.work.pop() {
            let place = arrival.row.at as usize - self.chunk.entry() as usize;
            let Some(before) = &search.slots[place] else {
                return Ok(Turn::Visit(place, arrival));
            };
            let visited = Visited {
                slots: &search.slots,
                bases: &search.arming.bases,
            };
            if let Some(refusal) = self.compare(&visited, before, &arrival)? {
                return Ok(Turn::Refused(refusal));
            }
        }
        Ok(Turn::Finished)
    }

    /// Compares what leads to an instruction with what is there.
    ///
    /// # Errors
    /// [`AllocError`] if an allocation failed.
    fn compare(
        &self,
        visited: &Visited<'_>,
        before: &Arrival,
        arrival: &Arrival,
    ) -> Result<Option<Refusal>, AllocError>
        requires ready { IsReadyScene (seen P.facts P.leads self.now) }
        requires linked { AreLinked visited.now.bases.now }
        requires come { AreHeld (seen P.facts P.leads self.now) visited.now }
        requires before { WasVisited visited.now.slots.now before.now }
        requires arrival { ArrivesInWalk (seen P.facts P.leads self.now) visited.now arrival.now }
        requires there { before.now.row.at ≡ arrival.now.row.at }
        ensures same { IfOk result (λ r. IfNone r (arrival_stop visited.now.bases.now before.now
            ≡ arrival_stop visited.now.bases.now arrival.now)) }
        ensures refusal { IfOk result (λ r. IfSome r (IsRefusalShown (seen P.facts P.leads self.now)
            visited.now.bases.now visited.now.slots.now)) }
    {
        if OnEdge::at(&before.row).is_at(visited.bases, &arrival.row) {
            return Ok(None);
        }
        Ok(Some(Refusal {
            error: VerifyError::DepthConflict {
                at: before.row.at as usize,
                expected: before.row.operands as usize,
                found: arrival.row.operands as usize,
            },
            way: self.way_to(visited, before)?,
            other: self.way_to(visited, arrival)?,
        }))
    }

    /// Puts an arrival in its place, and sends counts along its edges.
    ///
    /// # Errors
    /// [`AllocError`] if an allocation failed.
    fn visit(
        &self,
        search: &mut Search,
        place: usize,
        arrival: Arrival,
    ) -> Result<Option<Refusal>, AllocError>
        requires ready { IsReadyScene (seen P.facts P.leads self.now) }
        requires searching { IsSearching (seen P.facts P.leads self.now) search.old }
        requires next { IsNextArrival (seen P.facts P.leads self.now) search.old place arrival }
        ensures more { OnOk result (visit_count search.new.slots.items
            ≡ visit_count search.old.slots.items + 1) }
        ensures searching { OnOk result (IsSearching (seen P.facts P.leads self.now) search.new) }
        ensures begun { OnOk result (IsBegun search.new.slots.items) }
        ensures pursued { IfOk result (λ r. IfNone r (ArePursued (seen P.facts P.leads self.now)
            search.new.arming.bases.items search.new.slots.items search.new.work.items)) }
        ensures refusal { IfOk result (λ r. IfSome r (IsRefusalShown (seen P.facts P.leads self.now)
            search.new.arming.bases.items search.new.slots.items)) }
    {
        search.slots[place] = Some(arrival);
        self.look(
            &search.slots,
            place,
            &arrival,
            &mut search.arming,
            &mut search.work,
        )
    }

    /// Tests what an instruction needs, and sends counts along its edges.
    ///
    /// # Errors
    /// [`AllocError`] if an allocation failed.
    fn look(
        &self,
        slots: &[Option<Arrival>],
        place: usize,
        here: &Arrival,
        arming: &mut Arming,
        work: &mut Vec<Arrival>,
    ) -> Result<Option<Refusal>, AllocError>
        requires ready { IsReadyScene (seen P.facts P.leads self.now) }
        requires linked { AreLinked arming.old.bases.items }
        requires come { AreCome (seen P.facts P.leads self.now) arming.old.bases.items slots.now }
        requires held { get_or slots.now place None ≡ Some here.now }
        requires short { length slots.now < 2 ^ 32 }
        requires few { length arming.old.bases.items < visit_count slots.now }
        requires waits { All (IsCome (seen P.facts P.leads self.now)
            arming.old.bases.items slots.now) work.old.items }
        ensures few { OnOk result (length arming.new.bases.items ≤ visit_count slots.now) }
        ensures extends { OnOk result (Extends arming.old.bases.items arming.new.bases.items) }
        ensures waits { OnOk result
            (All (IsCome (seen P.facts P.leads self.now)
            arming.new.bases.items slots.now) work.new.items) }
        ensures keeps { OnOk result (Keeps work.old.items work.new.items) }
        ensures pursued { IfOk result (λ r. IfNone r (IsPursued (seen P.facts P.leads self.now)
            arming.new.bases.items slots.now work.new.items here.now)) }
        ensures refusal { IfOk result
            (λ r. IfSome r (IsRefusalShown (seen P.facts P.leads self.now)
            arming.new.bases.items slots.now)) }
    {
        let row = &here.row;
        let (op, next) = decode_standing(self.code, row.at as usize);
        match check_needs(self.caps, self.pools, &op, &arming.bases, row) {
            Ok(effect) => {
                let leaving = arming.leave(row, &effect)?;
                let departure = Departure {
                    visited: Visited {
                        slots,
                        bases: &arming.bases,
                    },
                    here,
                    place,
                    effect: &effect,
                    leaving,
                    next,
                };
                self.send(&departure, work)
            }
            Err(lack) => {
                let visited = Visited {
                    slots,
                    bases: &arming.bases,
                };
                let error = self.lack_error(row, lack);
                Ok(Some(self.refuse(&visited, here, error)?))
            }
        }
    }

    /// What an instruction lacks that finds this row.
    fn lack_error(&self, row: &Row, lack: Lack) -> VerifyError
        ensures { result ≡ error_lacking self.now.caps row.now lack }
    {
        let at = row.at as usize;
        match lack {
            Lack::Capabilities(missing) => VerifyError::MissingCaps {
                artifact: self.caps,
                missing,
                at,
            },
            Lack::Operands(need) => VerifyError::Underflow {
                at,
                need: need as usize,
                have: row.operands as usize,
            },
            Lack::Iterators => VerifyError::IteratorUnderflow { at },
            Lack::Handlers => VerifyError::HandlerUnderflow { at },
            Lack::Reserve(need, have) => VerifyError::SinksBelowHandler {
                at,
                need: need as usize,
                have: have as usize,
            },
        }
    }

    /// Sends counts along the edges of an instruction.
    ///
    /// # Errors
    /// [`AllocError`] if an allocation failed.
    fn send(
        &self,
        departure: &Departure<'_>,
        work: &mut Vec<Arrival>,
    ) -> Result<Option<Refusal>, AllocError>
        requires ready { IsReadyScene (seen P.facts P.leads self.now) }
        requires left { IsLeft (seen P.facts P.leads self.now) departure.now }
        requires waits { All (ArrivesInWalk (seen P.facts P.leads self.now) departure.now.visited)
            work.old.items }
        ensures waits { OnOk result (All (ArrivesInWalk (seen P.facts P.leads self.now)
            departure.now.visited) work.new.items) }
        ensures keeps { OnOk result (Keeps work.old.items work.new.items) }
        ensures pursued { IfOk result (λ r. IfNone r (IsPursued (seen P.facts P.leads self.now)
            departure.now.visited.bases.now departure.now.visited.slots.now work.new.items
            departure.now.here.now)) }
        ensures refusal { IfOk result (λ r. IfSome r (IsRefusalShown (seen P.facts P.leads self.now)
            departure.now.visited.bases.now departure.now.visited.slots.now)) }
    {
        let here = departure.here;
        let effect = departure.effect;
        let targets = targets_of(self.alloc, self.pools, effect)?;
        if let Err(error) = self.check_targets(here.row.at, &targets) {
            let refusal = self.refuse(&departure.visited, here, error)?;
            return Ok(Some(refusal));
        }
        self.push_all(departure, &targets, work)?;
        if effect.falls() {
            self.fall(departure, work)
        } else {
            Ok(None)
        }
    }

    /// Sends counts along the edge to the next instruction.
    ///
    /// # Errors
    /// [`AllocError`] if an allocation failed.
    fn fall(
        &self,
        departure: &Departure<'_>,
        work: &mut Vec<Arrival>,
    ) -> Result<Option<Refusal>, AllocError>
        requires ready { IsReadyScene (seen P.facts P.leads self.now) }
        requires left { IsLeft (seen P.facts P.leads self.now) departure.now }
        requires falls { falls_for (flow_in departure.now.effect.now) ≡ true }
        requires waits { All (ArrivesInWalk (seen P.facts P.leads self.now)
            departure.now.visited) work.old.items }
        ensures waits { OnOk result (All (ArrivesInWalk (seen P.facts P.leads self.now)
            departure.now.visited) work.new.items) }
        ensures keeps { OnOk result (Keeps work.old.items work.new.items) }
        ensures sent { IfOk result (λ r. IfNone r (Contains work.new.items (sent_to_next departure.now))) }
        ensures refusal { IfOk result (λ r. IfSome r (IsRefusalShown (seen P.facts P.leads self.now)
            departure.now.visited.bases.now departure.now.visited.slots.now)) }
    {
        if departure.next == self.chunk.end() as usize {
            let error = VerifyError::FallsOffTheEnd;
            let refusal = self.refuse(&departure.visited, departure.here, error)?;
            return Ok(Some(refusal));
        }
        let at = departure.next as u32;
        work.push(Arrival {
            row: departure.leaving.fall.at(at),
            from: Some(departure.place),
        })?;
        Ok(None)
    }

    /// Tests that all targets of the instruction at an address are starts of the chunk.
    ///
    /// # Errors
    /// That of the first that is none.
    fn check_targets(&self, at: u32, targets: &[u32]) -> Result<(), VerifyError>
        requires { IsReadyScene (seen P.facts P.leads self.now) }
        ensures inside { OnOk result (All (IsInChunk (coded (seen P.facts P.leads self.now).code)
            self.now.chunk.now)
            targets.now) }
        ensures err { IfErr result (MissesTargetOf (seen P.facts P.leads self.now) at targets.now) }
    {
        for target in targets {
            self.check_target(at, *target)?;
        }
        Ok(())
    }

    /// Sends what is on the edges to targets to each of these.
    ///
    /// # Errors
    /// [`AllocError`] if an allocation failed.
    fn push_all(
        &self,
        departure: &Departure<'_>,
        targets: &[u32],
        work: &mut Vec<Arrival>,
    ) -> Result<(), AllocError>
        requires left { IsLeft (seen P.facts P.leads self.now) departure.now }
        requires targets { targets.now ≡ targets_for (seen P.facts P.leads self.now).code.switches
            (flow_in departure.now.effect.now) }
        requires inside { All (IsInChunk (coded (seen P.facts P.leads self.now).code)
            self.now.chunk.now) targets.now }
        requires waits { All (ArrivesInWalk (seen P.facts P.leads self.now)
            departure.now.visited) work.old.items }
        ensures waits { OnOk result (All (ArrivesInWalk (seen P.facts P.leads self.now)
            departure.now.visited) work.new.items) }
        ensures keeps { OnOk result (Keeps work.old.items work.new.items) }
        ensures sent { OnOk result (All (λ t. Contains work.new.items (sent_to departure.now t))
            targets.now) }
    {
        for target in targets {
            work.push(Arrival {
                row: departure.leaving.jump.at(*target),
                from: Some(departure.place),
            })?;
        }
        Ok(())
    }

    /// A refusal with the path to the instruction that shows it.
    ///
    /// # Errors
    /// [`AllocError`] if an allocation failed.
    pub(crate) fn refuse(
        &self,
        visited: &Visited<'_>,
        here: &Arrival,
        error: VerifyError,
    ) -> Result<Refusal, AllocError>
        requires come { AreHeld (seen P.facts P.leads self.now) visited.now }
        requires here { WasVisited visited.now.slots.now here.now }
        requires shows { Shows (seen P.facts P.leads self.now).code self.now.chunk.now
            (arrival_stop visited.now.bases.now here.now) error }
        requires flaw { ChunkFlaw (seen P.facts P.leads self.now).code self.now.chunk.now error }
        ensures { IfOk result (IsRefusalShown (seen P.facts P.leads self.now)
            visited.now.bases.now visited.now.slots.now) }
    {
        Ok(Refusal {
            error,
            way: self.way_to(visited, here)?,
            other: Vec::new(self.alloc),
        })
    }

    /// The path to an arrival: from it back to the chunk's entry.
    ///
    /// # Errors
    /// [`AllocError`] if an allocation failed.
    fn way_to(&self, visited: &Visited<'_>, last: &Arrival) -> Result<Vec<Row>, AllocError>
        requires come { AreHeld (seen P.facts P.leads self.now) visited.now }
        requires last { ArrivesInWalk (seen P.facts P.leads self.now) visited.now last.now }
        ensures way { IfOk result (λ v. IsWayTo (seen P.facts P.leads self.now).code
            self.now.chunk.now (arrival_stop visited.now.bases.now last.now)
            (stops_of visited.now.bases.now v.items)) }
        ensures visited { WasVisited visited.now.slots.now last.now
            → IfOk result (λ v. All (IsRowIn visited.now.slots.now) v.items) }
    {
        let mut way = Vec::new(self.alloc);
        let mut here = last;
        'back: loop {
            way.push(here.row)?;
            let Some(place) = here.from else {
                return Ok(way);
            };
            here = visited.at(place);
        }
    }
}
