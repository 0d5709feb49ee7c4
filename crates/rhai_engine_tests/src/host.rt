//! A host: what the tests do with a state.

use grain_machine::prepare;
use rhai_compile::{Options, compile};
use rhai_engine::{BeginError, Bounds, Event, State};
use rhai_values::{Cause, Value};
use std::alloc::{AllocError, Global};
use std::process::Abort;
use std::sync::Arc;
use std::test::Fail;

/// Enough for each run.
pub const FUEL: u64 = 10_000;

/// What a test found, for which there is memory.
pub fn made<T>(rt: &impl Abort, found: Result<T, Fail>) -> T {
    match found {
        Ok(value) => value,
        Err(_) => panic!(rt; "a test can't be prepared"),
    }
}

/// A state of a script.
pub fn state_of(alloc: Global, source: &str, bounds: Bounds) -> Result<State, Fail> {
    let options = Options {
        strict_variables: false,
        debug_id: 0,
    };
    let Ok(verified) = compile(alloc, source, &options) else {
        return Err(Fail::new("the script isn't compiled"));
    };
    let prepared = Arc::new(alloc, prepare(alloc, verified)?)?;
    match State::new(alloc, prepared, bounds) {
        Ok(state) => Ok(state),
        Err(_) => Err(Fail::new("there is no state")),
    }
}

/// The integer of a value, and -1 of any other.
pub fn number(value: Option<&Value>) -> i64 {
    match value {
        Some(Value::Int(x)) => *x,
        _ => -1,
    }
}

/// Whether a run of the top level begins. It has no clause, like all calls here: so a test doesn't carry what they ensure.
pub fn begins(state: &mut State) -> bool {
    state.begin().is_ok()
}

/// Why no run of a function begins that gets an integer.
pub fn begin_error(
    alloc: Global,
    state: &mut State,
    name: &str,
    x: i64,
) -> Result<Option<BeginError>, AllocError> {
    let arguments = vec![in alloc; Value::Int(x)]?;
    match state.begin_call(name, arguments) {
        Ok(()) => Ok(None),
        Err(error) => Ok(Some(error)),
    }
}

/// Sets a variable.
pub fn set(state: &mut State, name: &str, x: i64) -> Result<(), Fail> {
    match state.set_variable(name, Value::Int(x)) {
        Ok(()) => Ok(()),
        Err(_) => Err(Fail::new("the variable isn't set")),
    }
}

/// Answers the call for which the run waits, and what the run returns then.
pub fn answered(state: &mut State, x: i64) -> i64 {
    let _paused = state.answer(Value::Int(x));
    returned(state)
}

/// As [`answered`], but the call fails by this cause.
pub fn failed(state: &mut State, cause: Cause) -> i64 {
    let _paused = state.fail(cause);
    returned(state)
}

/// What the last run returns, if that is an integer: -1 of any other value, -2 if it pauses or waits, and -3 if it fails.
pub fn returned(state: &mut State) -> i64 {
    match state.resume(FUEL).event {
        Event::Returned(value) => number(Some(&value)),
        Event::Paused | Event::Calls => -2,
        _ => -3,
    }
}

/// What a function of the script returns for an integer.
pub fn called(alloc: Global, state: &mut State, name: &str, x: i64) -> Result<i64, AllocError> {
    let arguments = vec![in alloc; Value::Int(x)]?;
    match state.begin_call(name, arguments) {
        Ok(()) => Ok(returned(state)),
        Err(_) => Ok(-4),
    }
}
