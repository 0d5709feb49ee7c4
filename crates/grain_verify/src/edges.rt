//! Pushing where an instruction may lead.
ghost use Rattle.std.specs.Prelude.{◌≡◌, ◌+◌, ◌-◌, ◌<◌, ◌≤◌, ◌^◌, ◌∷◌, ◌⊎◌, [], Some};
ghost use Rattle.std.specs.Prelude.{get_or, length, map, slice_get, IfErr, IfOk, OnOk};
ghost use Rattle.std.specs.List.{All};
ghost use Rattle.grain_verify.specs.Arrivals.{IsAtOrdinal, IsStartIn, Pushes, RefusesSwitch, RefusesTarget};
ghost use Rattle.grain_verify.specs.Arrivals.{RefusesTargetOf, Sends, underway, view};
ghost use Rattle.grain_rules.specs.Counts.{armed};
ghost use Rattle.grain_rules.specs.Flow as flows;
ghost use Rattle.grain_verify.specs.Lists.{Grows, IsShared, list_count, list_of};

use crate::lists::Lists;
use crate::state::{Arrival, State, check_same};
use crate::states::States;
use grain_code::{Chunk, Starts};
use grain_rules::{Read, Targets, VerifyError};

/// How many instructions are before a target, which must be a start of the chunk: elsewhere a run would reach code that
/// this walk doesn't visit, or read bytes within an instruction as another one.
///
/// # Errors
/// `JumpOutOfRange` or `JumpIntoAnInstruction`.
#[inline(always)]
fn ordinal_of(starts: &Starts, chunk: &Chunk, at: u32, target: u32) -> Result<usize, VerifyError>
    ensures ok { OnOk result (IsStartIn starts.now.starts chunk.now target) }
    ensures ordinal { IfOk result (λ k. slice_get starts.now.starts k ≡ Some target) }
    ensures err { IfErr result (λ e. RefusesTarget starts.now.starts chunk.now at target e) }
{
    let at = at as usize;
    if target < chunk.entry() || target >= chunk.end() {
        return Err(VerifyError::JumpOutOfRange { at, target });
    }
    match starts.ordinal(target as usize) {
        Some(ordinal) => Ok(ordinal),
        None => Err(VerifyError::JumpIntoAnInstruction { at, target }),
    }
}

/// The state on its way to a target.
///
/// # Errors
/// `JumpOutOfRange` or `JumpIntoAnInstruction` if it is none.
#[inline(always)]
pub(crate) fn arrival_at(
    starts: &Starts,
    chunk: &Chunk,
    at: u32,
    target: u32,
    after: State,
) -> Result<Arrival, VerifyError>
    ensures arrives { IfOk result (λ a. underway a ≡ record { at = target; state = after }) }
    ensures inside { OnOk result (IsStartIn starts.now.starts chunk.now target) }
    ensures at_ordinal { IfOk result (IsAtOrdinal starts.now.starts chunk.now) }
    ensures err { IfErr result (λ e.
        RefusesTargetOf starts.now.starts chunk.now at (target ∷ []) e) }
{
    let ordinal = ordinal_of(starts, chunk, at, target)?;
    Ok(Arrival {
        ordinal,
        at: target,
        state: after,
    })
}

/// Pushes the state to one target.
///
/// # Errors
/// `JumpOutOfRange` or `JumpIntoAnInstruction` if it is none, `OutOfMemory` if it was refused.
#[inline(always)]
pub(crate) fn push_target(
    starts: &Starts,
    chunk: &Chunk,
    at: u32,
    target: u32,
    after: State,
    work: &mut Vec<Arrival>,
) -> Result<(), VerifyError>
    ensures pushed { OnOk result (Pushes starts.now.starts chunk.now after (target ∷ [])
        work.old.items work.new.items) }
    ensures err { IfErr result (λ e.
        RefusesTargetOf starts.now.starts chunk.now at (target ∷ []) e) }
{
    let arrival = arrival_at(starts, chunk, at, target, after)?;
    work.push(arrival)?;
    Ok(())
}

/// Pushes a state to the exit of an iterator, without that iterator.
///
/// # Errors
/// `IteratorUnderflow` if it has none, and those of [`push_target`].
#[inline(always)]
pub(crate) fn push_ended(
    starts: &Starts,
    chunk: &Chunk,
    at: u32,
    exit: u32,
    state: State,
    work: &mut Vec<Arrival>,
) -> Result<(), VerifyError>
    ensures met { OnOk result (1 ≤ state.iterators) }
    ensures pushed { OnOk result (Pushes starts.now.starts chunk.now
        (record state { iterators = state.iterators - 1 }) (exit ∷ [])
        work.old.items work.new.items) }
    ensures err { IfErr result (λ e.
        ((e ≡ VerifyError.IteratorUnderflow at) × (state.iterators < 1))
        ⊎ ((1 ≤ state.iterators)
        × RefusesTargetOf starts.now.starts chunk.now at (exit ∷ []) e)) }
{
    let ended = state.without_iterators(1, at)?;
    push_target(starts, chunk, at, exit, ended, work)
}

/// Arms a handler, and pushes the state that has it to where it catches. It returns that state, which falls through too.
///
/// # Errors
/// Those of [`push_target`].
#[inline(always)]
pub(crate) fn push_armed(
    starts: &Starts,
    chunk: &Chunk,
    at: u32,
    target: u32,
    state: State,
    lists: &mut Lists,
    work: &mut Vec<Arrival>,
) -> Result<State, VerifyError>
    requires shared { IsShared lists.old }
    requires list { state.list ≤ list_count lists.old }
    requires room { list_count lists.old + 1 < 2 ^ 32 }
    ensures grows { OnOk result (Grows lists.old lists.new) }
    ensures same { IfOk result (λ s. s ≡ record state { list = s.list }) }
    ensures list { IfOk result (λ s. (s.list ≤ list_count lists.new)
        × (list_of lists.new s.list ≡ armed (view lists.old state))) }
    ensures pushed { IfOk result (λ s. Pushes starts.now.starts chunk.now s (target ∷ [])
        work.old.items work.new.items) }
    ensures err { IfErr result (λ e.
        RefusesTargetOf starts.now.starts chunk.now at (target ∷ []) e) }
{
    let armed = state.with_handler(lists)?;
    push_target(starts, chunk, at, target, armed, work)?;
    Ok(armed)
}

/// Pushes the state to each of these targets.
///
/// # Errors
/// Those of the first target that is none.
fn push_targets<T: Targets>(
    starts: &Starts,
    chunk: &Chunk,
    at: u32,
    mut targets: T,
    after: State,
    work: &mut Vec<Arrival>,
) -> Result<(), VerifyError>
    ensures pushed { OnOk result (Pushes starts.now.starts chunk.now after
        (T.left targets) work.old.items work.new.items) }
    ensures err { IfErr result (λ e. RefusesTargetOf starts.now.starts chunk.now at
        (T.left targets) e) }
{
    while let Some(target) = targets.next() {
        push_target(starts, chunk, at, target, after, work)?;
    }
    Ok(())
}

/// Pushes the state to each target of the switch of an index, if there is one, unless it was sent there before. Many
/// instructions may name one switch, and a walk that pushed all its targets for each of them would take time by the product.
///
/// # Errors
/// Those of the first target that is none, and `DepthConflict` if another state was sent there before.
// Switches are rare: inlined, this would take registers from the walk.
#[inline(never)]
pub(crate) fn push_table<P: Read>(
    starts: &Starts,
    chunk: &Chunk,
    at: u32,
    pools: &P,
    index: u32,
    after: State,
    sent: &mut States,
    work: &mut Vec<Arrival>,
) -> Result<(), VerifyError>
    requires { length sent.old ≡ length (P.leads pools.now) }
    ensures sends { OnOk result (Sends starts.now.starts chunk.now
        (P.leads pools.now) (flows.Switches index) after
        sent.old sent.new (map underway work.old.items) (map underway work.new.items)) }
    ensures long { OnOk result (length sent.new ≡ length sent.old) }
    ensures at_ordinal { All (IsAtOrdinal starts.now.starts chunk.now) work.old.items
        → OnOk result (All (IsAtOrdinal starts.now.starts chunk.now) work.new.items) }
    ensures err { IfErr result (λ e.
        RefusesTargetOf starts.now.starts chunk.now at
        (get_or (P.leads pools.now) index []) e
        ⊎ RefusesSwitch (P.leads pools.now) (flows.Switches index) after sent.old e) }
{
    let Some(default) = pools.default_target(index) else {
        return Ok(());
    };
    match sent.get(index as usize) {
        Some(before) => check_same(default, before, after),
        None => {
            push_targets(starts, chunk, at, pools.targets(index), after, work)?;
            sent.set(index as usize, after);
            Ok(())
        }
    }
}
