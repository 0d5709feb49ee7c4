//! What every path to an instruction has to agree on, and states on their way.
ghost use Rattle.std.specs.Prelude.{◌≡◌, ◌≢◌, ◌+◌, ◌-◌, ◌<◌, ◌≤◌, ◌^◌, IfErr, IfOk, OnOk};
ghost use Rattle.grain_verify.specs.Arrivals.{view};
ghost use Rattle.grain_rules.specs.Counts.{armed, last_base, without_last};
ghost use Rattle.grain_verify.specs.Lists.{Grows, IsShared, list_of, list_count};
ghost use Rattle.grain_verify.specs.Plain.{IsFloor};

use crate::lists::{Base, Lists};
use grain_rules::{Effect, VerifyError};
use std::alloc::AllocError;

/// How many operands and iterators there are, and the number of the list of the bases of armed handlers.
#[derive(Clone, Copy, PartialEq, Eq)]
pub(crate) struct State {
    pub(crate) operands: u32,
    pub(crate) iterators: u32,
    pub(crate) list: u32,
}

/// A state on its way to an address.
#[derive(Clone, Copy)]
pub(crate) struct Arrival {
    /// How many instructions are before the address in the code.
    pub(crate) ordinal: usize,
    pub(crate) at: u32,
    pub(crate) state: State,
}

/// Whether what is at an address already has the state that reaches it. All that follows was tested with the first one
/// alone, so that a run with another would find fewer operands than were tested, or another handler armed.
///
/// # Errors
/// `DepthConflict` at the address.
#[inline(always)]
pub(crate) fn check_same(at: u32, before: State, state: State) -> Result<(), VerifyError>
    ensures ok { OnOk result (before ≡ state) }
    ensures err { IfErr result (λ e.
        (e ≡ VerifyError.DepthConflict at before.operands state.operands)
        × (before ≢ state)) }
{
    if before != state {
        return Err(VerifyError::DepthConflict {
            at: at as usize,
            expected: before.operands as usize,
            found: state.operands as usize,
        });
    }
    Ok(())
}

impl Arrival {
    /// What falls through an instruction of this width, with this state.
    #[inline(always)]
    pub(crate) fn next(self, width: usize, after: State) -> Arrival
        requires room { self.at + width < 2 ^ 32 }
        requires few { self.ordinal + 1 < 2 ^ 64 }
        ensures { result ≡ record { at = self.at + width; ordinal = self.ordinal + 1; state = after } }
    {
        Arrival {
            ordinal: self.ordinal + 1,
            at: self.at + width as u32,
            state: after,
        }
    }
}

impl State {
    /// No operands, no iterators and no armed handlers.
    pub(crate) const NOTHING: State = State {
        operands: 0,
        iterators: 0,
        list: 0,
    };

    /// The state with what an operation leaves of the operands.
    #[inline(always)]
    pub(crate) fn with(self, effect: Effect) -> State
        requires needed { effect.needs ≤ self.operands }
        requires room { self.operands + 1 < 2 ^ 32 }
        ensures { result ≡ record self { operands = self.operands - effect.takes + effect.gives } }
    {
        State {
            operands: self.operands - effect.takes + effect.gives,
            ..self
        }
    }

    /// The state with this many iterators fewer. A machine that ends or advances an iterator reaches below its stack if
    /// there is none.
    ///
    /// # Errors
    /// `IteratorUnderflow` at the address where there are fewer.
    #[inline(always)]
    pub(crate) fn without_iterators(self, needed: u32, at: u32) -> Result<State, VerifyError>
        ensures ok { IfOk result (λ s. (needed ≤ self.iterators)
            × (s ≡ record self { iterators = self.iterators - needed })) }
        ensures err { IfErr result (λ e. (e ≡ VerifyError.IteratorUnderflow at)
            × (self.iterators < needed)) }
    {
        if self.iterators < needed {
            return Err(VerifyError::IteratorUnderflow { at: at as usize });
        }
        Ok(State {
            iterators: self.iterators - needed,
            ..self
        })
    }

    /// The state with another handler armed.
    ///
    /// # Errors
    /// [`AllocError`] if the memory was refused.
    #[inline(always)]
    pub(crate) fn with_handler(self, lists: &mut Lists) -> Result<State, AllocError>
        requires shared { IsShared lists.old }
        requires list { self.list ≤ list_count lists.old }
        requires room { list_count lists.old + 1 < 2 ^ 32 }
        ensures grows { OnOk result (Grows lists.old lists.new) }
        ensures same { IfOk result (λ s. s ≡ record self { list = s.list }) }
        ensures list { IfOk result (λ s. (s.list ≤ list_count lists.new)
            × (list_of lists.new s.list ≡ armed (view lists.old self))) }
    {
        let base = Base {
            operands: self.operands,
            iterators: self.iterators,
        };
        let list = lists.with_base(self.list, base)?;
        Ok(State { list, ..self })
    }

    /// The state without the handler that was armed last.
    ///
    /// # Errors
    /// `HandlerUnderflow` at the address where none is armed.
    #[inline(always)]
    pub(crate) fn without_handler(self, at: u32, lists: &Lists) -> Result<State, VerifyError>
        requires shared { IsShared lists.now }
        requires list { self.list ≤ list_count lists.now }
        ensures same { IfOk result (λ s. (0 < self.list) × (s ≡ record self { list = s.list })) }
        ensures list { IfOk result (λ s. (s.list ≤ list_count lists.now)
            × (list_of lists.now s.list ≡ without_last (list_of lists.now self.list))) }
        ensures err { IfErr result (λ e. (e ≡ VerifyError.HandlerUnderflow at)
            × (self.list ≡ 0)) }
    {
        if self.list == 0 {
            return Err(VerifyError::HandlerUnderflow { at: at as usize });
        }
        Ok(State {
            list: lists.without_last(self.list),
            ..self
        })
    }

    /// How many operands have to stay for the stacks to reach up to the base of the last handler: more than there can be
    /// if they lack an iterator of it.
    #[inline(always)]
    pub(crate) fn floor(self, lists: &Lists) -> u64
        requires shared { IsShared lists.now }
        requires list { self.list ≤ list_count lists.now }
        ensures small { result ≤ 2 ^ 32 }
        ensures floor { IsFloor lists.now self result }
    {
        let last = lists.last_base(self.list);
        if self.iterators < last.iterators {
            return 1 << 32;
        }
        u64::from(last.operands)
    }

    /// How many operands have to stay if the last handler has just been armed: all that are there.
    #[inline(always)]
    pub(crate) fn floor_armed(self) -> u64
        ensures small { result ≤ 2 ^ 32 }
        ensures floor { result ≡ self.operands }
    {
        u64::from(self.operands)
    }
}
