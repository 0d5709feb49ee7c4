//! The walk over one chunk: [`Prepared::walk`] takes arrivals from the worklist, [`Prepared::walk_from`] goes on from each,
//! instruction after instruction, and [`Prepared::visit`] or [`Prepared::visit_by_tag`] does one of them.
ghost use Rattle.std.specs.Prelude.{◌≡◌, ◌≢◌, ℕ, ◌+◌, ◌-◌, ◌≤◌, ◌<◌, ◌^◌, ◌++◌, ◌∷◌, [], None, Some};
ghost use Rattle.std.specs.Prelude.{get_or, length, replicate, slice_get, IfErr, IfNone, IfOk, IfSome, OnOk};
ghost use Rattle.std.specs.Prelude.{true};
ghost use Rattle.std.specs.Option.{option_to_list};
ghost use Rattle.grain_code.specs.Flows.{is_fixed};
ghost use Rattle.grain_code.specs.InstructionTable.{Instr};
ghost use Rattle.grain_code.specs.Split.{StandsAt};
ghost use Rattle.grain_code.specs.declared.op.Op.{Op};
ghost use Rattle.grain_rules.specs.Accepted.{IsFramed};
ghost use Rattle.grain_verify.specs.Arrivals.{RefusesState, view};
ghost use Rattle.grain_rules.specs.Capabilities.{Allows};
ghost use Rattle.grain_rules.specs.Code.{bytecode_beside, coded};
ghost use Rattle.grain_rules.specs.Flaw.{ChunkFlaw};
ghost use Rattle.grain_verify.specs.Asked.{Knows};
ghost use Rattle.grain_rules.specs.Rows.{caps_of, needs};
ghost use Rattle.grain_verify.specs.FlowView.{IsFollowed, IsMetBy, RefusesFlow};
ghost use Rattle.grain_rules.specs.EffectView.{flow};
ghost use Rattle.grain_verify.specs.Lists.{Grows, IsShared, list_count};
ghost use Rattle.grain_verify.specs.Meter.{starts_within};
ghost use Rattle.grain_verify.specs.Plain.{GoesOn, IsFloor};
ghost use Rattle.grain_verify.specs.Progress.{Fits, HaltsAt, IsWalking, visits_in, weight};
ghost use Rattle.grain_verify.specs.TagRows.{IsEffectIn, IsRowOf};
ghost use Rattle.grain_rules.specs.Typing.{HasTyping, IsDeepest, IsInChunk, IsReachedCount};
ghost use Rattle.grain_verify.specs.Visits.{CarriesFloor, IsMarked, IsVisited, RefusesChunk};
ghost use Rattle.grain_verify.specs.Walk.{HasHead, IsPassing, IsReady};
ghost use Rattle.grain_verify.specs.declared.lists.Lists.{Lists};

use crate::asked::Asked;
use crate::by_tag::{effect_by_row, effect_by_tag, plain_next, row_of};
use crate::edges::{arrival_at, push_armed, push_ended, push_table, push_target};
use crate::lists::Lists;
use crate::sinking::check_stays;
use crate::state::{Arrival, State, check_same};
use crate::states::States;
use grain_base::{Caps, Flags};
use grain_code::{Chunk, Flow, Head, Instruction, Starts, TagRow};
use grain_rules::{Effect, Read, VerifyError, check_frame, missing};
use std::alloc::{AllocError, Global};
use std::marker::Model;

/// What the walks of all chunks share: code that is whole instructions with its indices in bounds, and its pools.
#[derive(Drop)]
pub(crate) struct Prepared<'a, P: Read> {
    caps: Caps,
    code: &'a [u8],
    pools: &'a P,
    /// Where instructions begin.
    starts: Starts,
}

impl<'a, P: Read> Model for Prepared<'a, P> {
    ghost use Rattle.grain_rules.specs.Code.{bytecode_beside};
    ghost use Rattle.grain_verify.specs.Walk.{Walked};

    ghost Value = { Walked };

    ghost view = { λ p. record {
      code = bytecode_beside p.caps.0 (P.facts p.pools.now) (P.leads p.pools.now) p.code.now;
      starts = p.starts.starts;
    } };
}

/// What a walk writes. It serves one chunk after another.
#[derive(Drop)]
pub(crate) struct Traversal {
    /// The state with which each instruction was visited, by its ordinal.
    pub(crate) states: States,
    /// The state that was sent to the targets of each switch.
    pub(crate) sent: States,
    /// The worklist.
    pub(crate) work: Vec<Arrival>,
}

impl Traversal {
    /// Room for no walk. It takes no memory.
    #[inline(always)]
    pub(crate) fn new(alloc: Global) -> Traversal {
        Traversal {
            states: States::new(alloc),
            sent: States::new(alloc),
            work: Vec::new(alloc),
        }
    }

    /// Makes room for walks over this many instructions and switches.
    ///
    /// # Errors
    /// [`AllocError`] if the memory was refused.
    fn make_room(&mut self, instructions: usize, switches: usize) -> Result<(), AllocError>
        ensures states { OnOk result (length self.new.states ≡ instructions) }
        ensures sent { OnOk result (length self.new.sent ≡ switches) }
    {
        self.states.make_room(instructions)?;
        self.sent.make_room(switches)
    }

    /// Begins the next chunk, in which nothing was visited. A state that stayed from another chunk would pass for a visit in
    /// this one, and the instruction would go untested. It is compiled apart, since it runs once for each chunk.
    #[inline(never)]
    fn begin_chunk(&mut self)
        ensures states { self.new.states ≡ replicate (length self.old.states) None }
        ensures sent { self.new.sent ≡ replicate (length self.old.sent) None }
        ensures work { self.new.work.items ≡ [] }
    {
        self.states.begin_chunk();
        self.sent.begin_chunk();
        self.work.clear();
    }
}

/// The instruction at an address, if its head is known: one look at its first byte has given its width.
#[inline(always)]
fn instruction_at<'a>(code: &'a [u8], at: usize, head: Head) -> Instruction<'a>
    requires { HasHead code.now at head }
    ensures found { (op : Op) × StandsAt code.now at op
        × Instr (result.tag ∷ result.fields.now) op }
    ensures tag { result.tag ≡ head.tag }
{
    let end = at + usize::from(head.width);
    Instruction {
        tag: head.tag,
        fields: &code[at + 1..end],
    }
}

/// Sends the state that an instruction of this width leaves to its targets, if it has what it requires and the operands
/// that it needs. It returns what falls through, or the target of a jump in place of pushing it. A path that was left out
/// here would lead runs to code that was never tested, or with other counts than were tested.
///
/// # Errors
/// `IteratorUnderflow` or `HandlerUnderflow` if it lacks one; those of its targets; `DepthConflict` if another state
/// was sent to its switch before; `OutOfMemory` if it was refused.
#[inline(always)]
fn follow<P: Read>(
    starts: &Starts,
    pools: &P,
    chunk: &Chunk,
    effect: Effect,
    here: Arrival,
    width: usize,
    lists: &mut Lists,
    traversal: &mut Traversal,
) -> Result<Option<Arrival>, VerifyError>
    requires long { length traversal.old.sent ≡ length (P.leads pools.now) }
    requires operands { effect.needs ≤ here.state.operands }
    requires operands_room { here.state.operands + 1 < 2 ^ 32 }
    requires iterators_room { here.state.iterators + 1 < 2 ^ 32 }
    requires room { here.at + width < 2 ^ 32 }
    requires ordinal_room { here.ordinal + 1 < 2 ^ 64 }
    requires shared { IsShared lists.old }
    requires list { here.state.list ≤ list_count lists.old }
    requires lists_room { list_count lists.old + 1 < 2 ^ 32 }
    ensures met { OnOk result
        (IsMetBy (flow effect.flow effect.target) (view lists.old here.state)) }
    ensures grows { OnOk result (Grows lists.old lists.new) }
    ensures followed { IfOk result (λ next. IsFollowed starts.now.starts chunk.now
        (P.leads pools.now) (flow effect.flow effect.target)
        (here.state.operands - effect.takes + effect.gives) here width lists.old lists.new
        traversal.old.sent traversal.new.sent traversal.old.work.items
        (traversal.new.work.items ++ option_to_list next)) }
    ensures states { OnOk result (traversal.new.states ≡ traversal.old.states) }
    ensures long { OnOk result (length traversal.new.sent ≡ length traversal.old.sent) }
    ensures goes_on { GoesOn effect.flow → IfOk result (λ next. IfNone next ⊥) }
    ensures floor { IfOk result (λ next. IfSome next (λ a.
        CarriesFloor effect.flow lists.old lists.new here.state a.state)) }
    ensures err { IfErr result (RefusesFlow starts.now.starts chunk.now
        (P.leads pools.now) here.at (view lists.old here.state) (record here.state {
          operands = here.state.operands - effect.takes + effect.gives;
        }) traversal.old.sent (flow effect.flow effect.target)) }
{
    let work = &mut traversal.work;
    let Arrival { at, state, .. } = here;
    let target = effect.target;
    let after = state.with(effect);
    match effect.flow {
        Flow::Falls => Ok(Some(here.next(width, after))),
        Flow::Ends => Ok(None),
        Flow::Jumps => match arrival_at(starts, chunk, at, target, after) {
            Ok(next) => Ok(Some(next)),
            Err(error) => Err(error),
        },
        Flow::Branches => match push_target(starts, chunk, at, target, after, work) {
            Ok(()) => Ok(Some(here.next(width, after))),
            Err(error) => Err(error),
        },
        Flow::Switches => {
            let sent = &mut traversal.sent;
            match push_table(starts, chunk, at, pools, target, after, sent, work) {
                Ok(()) => Ok(None),
                Err(error) => Err(error),
            }
        }
        Flow::BeginsIterator => {
            let begun = State {
                iterators: state.iterators + 1,
                ..after
            };
            Ok(Some(here.next(width, begun)))
        }
        Flow::AdvancesIterator => match push_ended(starts, chunk, at, target, state, work) {
            Ok(()) => {
                let advanced = State {
                    operands: state.operands + 1,
                    ..state
                };
                Ok(Some(here.next(width, advanced)))
            }
            Err(error) => Err(error),
        },
        Flow::EndsIterator => match state.without_iterators(1, at) {
            Ok(ended) => Ok(Some(here.next(width, ended))),
            Err(error) => Err(error),
        },
        Flow::PushesHandler => {
            match push_armed(starts, chunk, at, target, state, lists, work) {
                Ok(armed) => Ok(Some(here.next(width, armed))),
                Err(error) => Err(error),
            }
        }
        Flow::PopsHandler => match state.without_handler(at, lists) {
            Ok(left) => Ok(Some(here.next(width, left))),
            Err(error) => Err(error),
        },
    }
}

impl<'a, P: Read> Prepared<'a, P> {
    /// The code with pools, whose instructions begin there.
    pub(crate) fn new(caps: Caps, code: &'a [u8], pools: &'a P, starts: Starts) -> Prepared<'a, P>
        ensures { result ≡ record {
          code = bytecode_beside caps.0 (P.facts pools.now) (P.leads pools.now) code.now;
          starts = starts.starts;
        } }
    {
        Prepared {
            caps,
            code,
            pools,
            starts,
        }
    }

    /// How many instructions are before the chunk's entry, where the chunk lies in the code as it has to.
    ///
    /// # Errors
    /// Those of [`check_frame`].
    pub(crate) fn entry_ordinal(&self, chunk: &Chunk) -> Result<usize, VerifyError>
        requires { IsReady self.now }
        ensures framed { OnOk result (IsFramed self.now.code chunk.now) }
        ensures holds { OnOk result (chunk.now.entry < chunk.now.end) }
        ensures place { IfOk result (λ k. slice_get self.now.starts k ≡ Some chunk.now.entry) }
        ensures err { IfErr result (λ e. ChunkFlaw self.now.code chunk.now e
            × (e ≢ VerifyError.OutOfMemory)) }
    {
        check_frame(self.code, &self.starts, chunk)
    }

    /// Makes room for walks over all chunks.
    ///
    /// # Errors
    /// [`AllocError`] if the memory was refused.
    pub(crate) fn make_room(&self, traversal: &mut Traversal) -> Result<(), AllocError>
        ensures { OnOk result (Fits self.now traversal.new) }
    {
        traversal.make_room(self.starts.count(), self.pools.switches())
    }

    /// Where the instructions begin, once all walks are over.
    pub(crate) fn into_starts(self) -> Starts {
        let Prepared { starts, .. } = self;
        starts
    }

    /// The instruction at an address, if its head is known.
    #[inline(always)]
    fn instruction(&self, at: u32, head: Head) -> Instruction<'a>
        requires { HasHead self.now.code.bytes at head }
        ensures found { (op : Op) × StandsAt self.now.code.bytes at op
            × Instr (result.tag ∷ result.fields.now) op }
        ensures tag { result.tag ≡ head.tag }
    {
        instruction_at(self.code, at as usize, head)
    }

    /// Whether the host has what the instruction requires, and the operand stack what it needs. Else a machine would do what the
    /// host doesn't allow, or read below its operand stack.
    ///
    /// # Errors
    /// `MissingCaps`, or `Underflow` if nothing is missing.
    #[inline(always)]
    fn check_needs(
        &self,
        asks: Caps,
        effect: Effect,
        at: u32,
        state: State,
    ) -> Result<(), VerifyError>
        ensures allowed { OnOk result (Allows self.now.code.setting.caps asks.0) }
        ensures there { OnOk result (effect.needs ≤ state.operands) }
        ensures err { (op : Op) (lists : Lists)
            → asks.0 ≡ caps_of self.now.code.setting op
            → effect.needs ≡ needs self.now.code.setting op
            → IfErr result (λ e. RefusesState self.now.code op at (view lists state) e) }
    {
        let missing = missing(self.caps, asks);
        if !missing.is_empty() {
            return Err(VerifyError::MissingCaps {
                artifact: self.caps,
                missing,
                at: at as usize,
            });
        }
        if state.operands < effect.needs {
            return Err(VerifyError::Underflow {
                at: at as usize,
                need: effect.needs as usize,
                have: state.operands as usize,
            });
        }
        Ok(())
    }

    /// What an instruction does. It is decoded if its row doesn't say all of it, since decoding takes longer.
    #[inline(always)]
    fn effect_of(&self, instruction: &Instruction<'_>, row: &TagRow) -> Effect
        requires row { IsRowOf row.now instruction.now.tag }
        requires known { (op : Op) × Instr (instruction.now.tag ∷ instruction.now.fields.now) op }
        ensures { (op : Op) → Instr (instruction.now.tag ∷ instruction.now.fields.now) op
            → IsEffectIn self.now.code.setting.facts result op }
    {
        if let Some(effect) = effect_by_tag(instruction, row) {
            return effect;
        }
        let Some(op) = instruction.op() else {
            unreachable!();
        };
        Effect::of(&op, self.pools)
    }

    /// Follows the flow of an instruction that has all that it requires and needs except maybe an iterator or a handler. It returns
    /// the next arrival, if there is one that isn't on the worklist. It is cut from [`Prepared::visit`] and
    /// [`Prepared::visit_by_tag`] for the prover alone, which learns here once why the walk stays right.
    ///
    /// # Errors
    /// Those of [`follow`].
    #[inline(always)]
    fn follow_passing(
        &self,
        chunk: &Chunk,
        here: Arrival,
        instruction: &Instruction<'_>,
        effect: Effect,
        lists: &mut Lists,
        traversal: &mut Traversal,
    ) -> Result<Option<Arrival>, VerifyError>
        requires marked { IsMarked self.now chunk.now lists.old traversal.old here }
        requires passing { IsPassing self.now lists.old here instruction.now effect }
        ensures visited { IfOk result (λ next. IsVisited self.now chunk.now lists.old lists.new
            traversal.old traversal.new here (option_to_list next)) }
        ensures goes_on { GoesOn effect.flow → IfOk result (λ next. IfNone next ⊥) }
        ensures floor { IfOk result (λ next. IfSome next (λ a.
            CarriesFloor effect.flow lists.old lists.new here.state a.state)) }
        ensures err { IfErr result (RefusesChunk self.now.code chunk.now) }
    {
        follow(
            &self.starts,
            self.pools,
            chunk,
            effect,
            here,
            instruction.width(),
            lists,
            traversal,
        )
    }

    /// Visits an instruction: tests what it requires and needs and what it leaves as it was, and follows its flow. It returns the
    /// next arrival, if there is one that isn't on the worklist.
    ///
    /// # Errors
    /// The first test that fails, by its name.
    #[inline(always)]
    fn visit(
        &self,
        chunk: &Chunk,
        here: Arrival,
        head: Head,
        row: &TagRow,
        lists: &mut Lists,
        traversal: &mut Traversal,
        asked: &mut Asked,
    ) -> Result<Option<Arrival>, VerifyError>
        requires marked { IsMarked self.now chunk.now lists.old traversal.old here }
        requires headed { HasHead self.now.code.bytes here.at head }
        requires row { IsRowOf row.now head.tag }
        requires knows { Knows self.now.code.setting.facts asked.old }
        ensures visited { IfOk result (λ next. IsVisited self.now chunk.now lists.old lists.new
            traversal.old traversal.new here (option_to_list next)) }
        ensures knows { OnOk result (Knows self.now.code.setting.facts asked.new) }
        ensures err { IfErr result (RefusesChunk self.now.code chunk.now) }
    {
        let instruction = self.instruction(here.at, head);
        let effect = self.effect_of(&instruction, row);
        let asks = asked.of(self.pools, effect.asks)?;
        self.check_needs(asks, effect, here.at, here.state)?;
        check_stays(&instruction, effect, here, lists)?;
        self.follow_passing(chunk, here, &instruction, effect, lists, traversal)
    }

    /// Visits an instruction that goes on and needs no iterator, of which its tag says all, and that finds the operands that
    /// it needs above the floor. It returns the next arrival. What [`Prepared::visit`] tests can't fail then: it requires nothing of
    /// the host, and the operands above the floor are those that it may take.
    ///
    /// # Errors
    /// Those of [`follow`].
    #[inline(always)]
    fn visit_by_tag(
        &self,
        chunk: &Chunk,
        here: Arrival,
        head: Head,
        row: &TagRow,
        flow: Flow,
        lists: &mut Lists,
        traversal: &mut Traversal,
    ) -> Result<Arrival, VerifyError>
        requires marked { IsMarked self.now chunk.now lists.old traversal.old here }
        requires headed { HasHead self.now.code.bytes here.at head }
        requires row { IsRowOf row.now head.tag }
        requires flow { row.now.flow ≡ flow }
        requires fixed { is_fixed row.now ≡ true }
        requires goes_on { GoesOn flow }
        requires above { (floor : ℕ) × IsFloor lists.old here.state floor
            × (floor + row.now.needs ≤ here.state.operands) }
        ensures visited { IfOk result (λ next. IsVisited self.now chunk.now lists.old lists.new
            traversal.old traversal.new here (next ∷ [])) }
        ensures floor { IfOk result (λ next.
            CarriesFloor flow lists.old lists.new here.state next.state) }
        ensures err { IfErr result (RefusesChunk self.now.code chunk.now) }
    {
        let instruction = self.instruction(here.at, head);
        let effect = effect_by_row(&instruction, row, flow);
        match self.follow_passing(chunk, here, &instruction, effect, lists, traversal)? {
            Some(next) => Ok(next),
            None => unreachable!(),
        }
    }

    /// The head of the instruction at an address that was reached, or `None` at the end of the chunk. What follows the end
    /// is other code, whose counts this walk doesn't know.
    #[inline(always)]
    fn head_at(&self, chunk: &Chunk, at: u32) -> Option<Head>
        requires framed { IsFramed self.now.code chunk.now }
        requires place { at < chunk.now.end → IsInChunk (coded self.now.code) chunk.now at }
        ensures inside { IfSome result (λ _. at < chunk.now.end) }
        ensures addresses { chunk.now.end < 2 ^ 32 }
        ensures headed { IfSome result (HasHead self.now.code.bytes at) }
        ensures none { IfNone result (chunk.now.end ≤ at) }
    {
        let code = &self.code[..chunk.end() as usize];
        Head::at(code, at as usize)
    }

    /// Marks an instruction as visited, and counts it. It is marked before its flow is followed, so that a loop back to it ends
    /// there. It is cut from [`Prepared::walk_from`] for the prover alone.
    #[inline(always)]
    fn mark(
        &self,
        chunk: &Chunk,
        here: Arrival,
        lists: &Lists,
        traversal: &mut Traversal,
        visits: &mut u32,
        deepest: &mut u32,
    )
        requires ready { IsReady self.now }
        requires walking { IsWalking self.now chunk.now lists.now traversal.old
            (traversal.old.work.items ++ here ∷ []) deepest.old }
        requires inside { here.at < chunk.now.end }
        requires addresses { chunk.now.end < 2 ^ 32 }
        requires fresh { get_or traversal.old.states here.ordinal None ≡ None }
        requires counted { visits.old ≡ visits_in traversal.old.states }
        ensures halts { HaltsAt self.now chunk.now lists.now traversal.new here deepest.new }
        ensures counted { visits.new ≡ visits_in traversal.new.states }
        ensures within { visits.new ≤ starts_within self.now.starts chunk.now }
        ensures more { visits_in traversal.new.states ≡ visits_in traversal.old.states + 1 }
        ensures long { length traversal.new.states ≡ length traversal.old.states }
        ensures work { traversal.new.work ≡ traversal.old.work }
    {
        traversal.states.set(here.ordinal, here.state);
        *visits += 1;
        *deepest = (*deepest).max(here.state.operands);
    }

    /// Walks from an arrival on, until nothing comes next that wasn't visited.
    ///
    /// What is reached twice is tested once, with the counts of the first path. So a second path must bring the same: a run
    /// on it would else find fewer operands than were tested, or leave other counts to all that follows.
    ///
    /// What tags decide most often is visited without the tests of [`Prepared::visit`] if the operands are above the floor,
    /// each flow in an arm of its own, which is compiled apart.
    ///
    /// # Errors
    /// `DepthConflict` if counts differ, `FallsOffTheEnd` at the chunk's end, and those of visits.
    #[inline(always)]
    fn walk_from(
        &self,
        chunk: &Chunk,
        from: Arrival,
        lists: &mut Lists,
        traversal: &mut Traversal,
        asked: &mut Asked,
        visits: &mut u32,
        deepest: &mut u32,
    ) -> Result<(), VerifyError>
        requires ready { IsReady self.now }
        requires knows { Knows self.now.code.setting.facts asked.old }
        requires framed { IsFramed self.now.code chunk.now }
        requires walking { IsWalking self.now chunk.now lists.old traversal.old
            (traversal.old.work.items ++ from ∷ []) deepest.old }
        requires counted { visits.old ≡ visits_in traversal.old.states }
        ensures walking { OnOk result (IsWalking self.now chunk.now lists.new traversal.new
            traversal.new.work.items deepest.new) }
        ensures counted { OnOk result (visits.new ≡ visits_in traversal.new.states) }
        ensures within { visits.new ≤ starts_within self.now.starts chunk.now }
        ensures lighter { OnOk result (weight self.now traversal.new
            (length traversal.new.work.items)
            < weight self.now traversal.old (length traversal.old.work.items + 1)) }
        ensures knows { OnOk result (Knows self.now.code.setting.facts asked.new) }
        ensures err { IfErr result (RefusesChunk self.now.code chunk.now) }
    {
        let mut here = from;
        let mut floor = from.state.floor(lists);
        'others: while let Some(head) = self.head_at(chunk, here.at) {
            if let Some(before) = traversal.states.get(here.ordinal) {
                return check_same(here.at, before, here.state);
            }
            self.mark(chunk, here, lists, traversal, visits, deepest);
            let row = row_of(head.tag);
            if let Some(next) = plain_next(row, head, here, floor) {
                here = next;
                continue;
            }
            let above = floor + u64::from(row.needs) <= u64::from(here.state.operands);
            match row.flow {
                Flow::Jumps if above => {
                    let flow = Flow::Jumps;
                    match self.visit_by_tag(chunk, here, head, row, flow, lists, traversal) {
                        Ok(next) => here = next,
                        Err(error) => return Err(error),
                    }
                }
                Flow::Branches if above => {
                    let flow = Flow::Branches;
                    match self.visit_by_tag(chunk, here, head, row, flow, lists, traversal) {
                        Ok(next) => here = next,
                        Err(error) => return Err(error),
                    }
                }
                Flow::PushesHandler if above => {
                    let flow = Flow::PushesHandler;
                    match self.visit_by_tag(chunk, here, head, row, flow, lists, traversal) {
                        Ok(next) => here = next,
                        Err(error) => return Err(error),
                    }
                    floor = here.state.floor_armed();
                }
                Flow::PopsHandler if above => {
                    let flow = Flow::PopsHandler;
                    match self.visit_by_tag(chunk, here, head, row, flow, lists, traversal) {
                        Ok(next) => here = next,
                        Err(error) => return Err(error),
                    }
                    floor = here.state.floor(lists);
                }
                _ => match self.visit(chunk, here, head, row, lists, traversal, asked) {
                    Ok(Some(next)) => {
                        here = next;
                        floor = here.state.floor(lists);
                    }
                    Ok(None) => return Ok(()),
                    Err(error) => return Err(error),
                },
            }
        }
        Err(VerifyError::FallsOffTheEnd)
    }

    /// Walks from the chunk's entry, an instruction of this ordinal, and returns the greatest operand count that it meets.
    /// It counts the instructions that it visits. No run starts elsewhere, so what it doesn't reach needs no test.
    ///
    /// # Errors
    /// Those of [`Prepared::walk_from`].
    pub(crate) fn walk(
        &self,
        chunk: &Chunk,
        ordinal: usize,
        lists: &mut Lists,
        traversal: &mut Traversal,
        asked: &mut Asked,
        visits: &mut u32,
    ) -> Result<u32, VerifyError>
        requires ready { IsReady self.now }
        requires knows { Knows self.now.code.setting.facts asked.old }
        requires framed { IsFramed self.now.code chunk.now }
        requires holds { chunk.now.entry < chunk.now.end }
        requires place { slice_get self.now.starts ordinal ≡ Some chunk.now.entry }
        requires fits { Fits self.now traversal.old }
        requires none { visits.old ≡ 0 }
        ensures typed { IfOk result (λ n. HasTyping (coded self.now.code) chunk.now n) }
        ensures deepest { IfOk result (λ n. IsDeepest (coded self.now.code) chunk.now n) }
        ensures within { visits.new ≤ starts_within self.now.starts chunk.now }
        ensures reached { OnOk result
            (IsReachedCount (coded self.now.code) chunk.now visits.new) }
        ensures knows { OnOk result (Knows self.now.code.setting.facts asked.new) }
        ensures err { IfErr result (RefusesChunk self.now.code chunk.now) }
        ensures fits { OnOk result (Fits self.now traversal.new) }
    {
        // The walk reads its end at each instruction.
        let chunk = *chunk;
        traversal.begin_chunk();
        lists.clear();
        let mut deepest = 0;
        let mut from = Arrival {
            ordinal,
            at: chunk.entry(),
            state: State::NOTHING,
        };
        'arrivals: loop {
            self.walk_from(&chunk, from, lists, traversal, asked, visits, &mut deepest)?;
            match traversal.work.pop() {
                Some(arrival) => from = arrival,
                None => return Ok(deepest),
            }
        }
    }
}
