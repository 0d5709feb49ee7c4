//! What happens to the runs of a state, and why its calls are refused.
ghost use Rattle.std.specs.Prelude.{◌≡◌};
ghost use Rattle.rhai_engine.specs.Ends.{CanEnd, event_of, event_of_fault};

use grain_machine::Outcome;
use rhai_runtime::Fault;
use rhai_values::{Cause, Value};
use std::alloc::AllocError;

/// The status of the last run of a state.
#[derive(Clone, Copy, Debug, PartialEq, Eq, Drop)]
pub enum Status {
    /// No run is under way.
    Idle,
    /// It can be resumed.
    Ready,
    /// It waits for a call that the host does.
    Calls,
}

/// What happened to the last run of a state.
#[derive(Drop)]
pub enum Event {
    /// It can be resumed: the fuel is used up, or the call for which it waited has ended.
    Paused,
    /// It waits for a call that the host does.
    Calls,
    /// It has returned this value.
    Returned(Value),
    /// It has failed by this fault.
    Failed(Fault),
    /// It has ended, since an iterator or a handler more needs memory that isn't there.
    OutOfMemory,
    /// Nothing: no run is under way, or it waits for no call.
    Idle,
}

/// What a run did when it was resumed.
#[derive(Drop)]
pub struct Slice {
    /// What happened to it.
    pub event: Event,
    /// How many turns it made.
    pub turns: u64,
}

/// Why a run can't begin.
#[derive(Clone, Copy, Debug, PartialEq, Eq, Drop)]
pub enum BeginError {
    /// The script has no function of this name with this number of parameters.
    NoFunction,
    /// As many runs wait as may.
    TooManyRuns,
    /// A run is under way that can be resumed. The top level can't begin while a run waits either.
    Busy,
    /// The limits don't allow an argument.
    TooLarge,
    /// Out of memory.
    OutOfMemory,
}

impl From<AllocError> for BeginError {
    ghost use Rattle.rhai_engine.specs.declared.event.BeginError.TheVariants as variants;

    ghost from_gives = { λ _ error. error ≡ variants.OutOfMemory };

    fn from(_: AllocError) -> BeginError {
        BeginError::OutOfMemory
    }
}

/// Why a variable isn't set.
#[derive(Clone, Copy, Debug, PartialEq, Eq, Drop)]
pub enum VariableError {
    /// The program doesn't have the name.
    NoName,
    /// The limits don't allow the value.
    TooLarge,
    /// Out of memory.
    OutOfMemory,
}

impl From<AllocError> for VariableError {
    ghost use Rattle.rhai_engine.specs.declared.event.VariableError.TheVariants as variants;

    ghost from_gives = { λ _ error. error ≡ variants.OutOfMemory };

    fn from(_: AllocError) -> VariableError {
        VariableError::OutOfMemory
    }
}

/// The event of a run that ended by this fault, which is none if the script ended itself.
fn event_of_fault(fault: Fault) -> Event
    ensures { result ≡ event_of_fault fault }
{
    match fault {
        Fault {
            cause: Cause::Exited(value),
            ..
        } => Event::Returned(value),
        fault => Event::Failed(fault),
    }
}

/// The event of a run that has ended so.
pub(crate) fn event_of_end(outcome: Outcome<Value, Fault>) -> Event
    requires { CanEnd outcome }
    ensures { result ≡ event_of outcome }
{
    match outcome {
        Outcome::Returned(Some(value)) => Event::Returned(value),
        Outcome::Returned(None) => Event::Returned(Value::Unit),
        Outcome::Faulted(fault) | Outcome::Uncatchable(fault) => event_of_fault(fault),
        Outcome::OutOfMemory => Event::OutOfMemory,
        Outcome::OutOfFuel | Outcome::Unanswered => unreachable!(),
    }
}
