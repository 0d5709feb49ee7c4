//! How far runs are, and why calls of a session do nothing.

use rhai_flat::BadValue;
use rhai_values::Cause;
use std::alloc::AllocError;

/// Why a call of a session does nothing.
#[derive(Clone, Copy, Debug, PartialEq, Eq, Drop)]
pub enum Refused {
    /// The script has no function or variable of this name.
    NoName,
    /// The state doesn't allow it now: a run can be resumed, or none waits.
    NotNow,
    /// Bytes are no text, or rows are no values within the limits.
    BadValue,
    /// Out of memory.
    OutOfMemory,
}

/// What happened to a run.
#[derive(Clone, Copy, Debug, PartialEq, Eq, Drop)]
pub enum HostEvent {
    /// No run is under way.
    Idle,
    /// It has returned a value, which the host is shown.
    Returned,
    /// It waits for a call of the host, whose arguments the host is shown.
    Calls,
    /// Its turns are used up.
    Paused,
    /// It has failed.
    Failed,
    /// It has ended, since an allocation failed.
    OutOfMemory,
}

/// How the host ends a call.
#[derive(Clone, Copy, Debug, PartialEq, Eq, Drop)]
pub enum Answer {
    /// The call returns the value.
    Return,
    /// The call throws the value.
    Throw,
}

impl From<AllocError> for Refused {
    ghost use Rattle.rhai_session.specs.Shown.{IsOfValue};

    ghost from_gives = { λ _ why. IsOfValue why };

    fn from(_: AllocError) -> Refused {
        Refused::OutOfMemory
    }
}

impl From<BadValue> for Refused {
    ghost use Rattle.rhai_session.specs.Shown.{IsOfValue};

    ghost from_gives = { λ _ why. IsOfValue why };

    fn from(bad: BadValue) -> Refused {
        match bad {
            BadValue::OutOfMemory => Refused::OutOfMemory,
            _ => Refused::BadValue,
        }
    }
}

impl From<Cause> for Refused {
    ghost use Rattle.rhai_session.specs.Shown.{IsOfValue};

    ghost from_gives = { λ _ why. IsOfValue why };

    fn from(cause: Cause) -> Refused {
        match cause {
            Cause::OutOfMemory => Refused::OutOfMemory,
            _ => Refused::BadValue,
        }
    }
}
