//! Functions of the host.

use crate::host::{
    answered, begin_error, begins, called, failed, made, number, returned, state_of,
};
use rhai_engine::{BeginError, Bounds, Event, State};
use rhai_values::{Cause, Reason, SizeLimits, Value};
use std::alloc::{AllocError, Global};
use std::test::Fail;

const ASKING: &str = "
    fn double(x) { 2 * x }
    fn outer(x) { let y = ask(x); try { y += ask(100) } catch (e) { y += e } y + x }
    let total = outer(1);
    try { total += ask(200) } catch (e) { total += 1000 }
    total
";

/// A state in which the run of the top level waits for its first call of the host.
fn asking(alloc: Global, bounds: Bounds) -> Result<State, Fail> {
    let mut state = state_of(alloc, ASKING, bounds)?;
    state.register("ask", 1)?;
    if !begins(&mut state) || returned(&mut state) != -2 {
        return Err(Fail::new("the run doesn't wait"));
    }
    Ok(state)
}

/// The argument of the call for which the run waits.
fn argument(state: &State) -> i64 {
    match state.asked() {
        Some(asked) if asked.name() == "ask" => number(asked.arguments().first()),
        _ => -1,
    }
}

/// Whether a run has failed by a value that is too large.
fn is_too_large(event: &Event) -> bool {
    match event {
        Event::Failed(fault) => matches!(&fault.cause, Cause::TooLarge),
        _ => false,
    }
}

/// Whether an answer that is too large ends the run.
fn is_refused_for_its_size(alloc: Global, state: &mut State) -> Result<bool, AllocError> {
    let long = "a text of more than fifty characters, which no limit of fifty allows";
    let value = Value::text(alloc, String::from_str(alloc, long)?)?;
    Ok(is_too_large(&state.answer(value)))
}

/// The arguments of three calls, of which the first is answered, the second throws and the third returns a value that is too large; and
/// whether the run fails by that.
fn answers(alloc: Global) -> Result<([i64; 3], bool), Fail> {
    let bounds = Bounds {
        size: SizeLimits { size: 50, depth: 5 },
        ..Bounds::DEFAULT
    };
    let mut state = asking(alloc, bounds)?;
    let first = argument(&state);
    let _waits = answered(&mut state, 5);
    let second = argument(&state);
    let _waits = failed(&mut state, Cause::Thrown(Value::Int(7)));
    let third = argument(&state);
    Ok((
        [first, second, third],
        is_refused_for_its_size(alloc, &mut state)?,
    ))
}

#[test]
fn calls_are_answered_and_fail(rt: HostRuntime) {
    assert!(&rt; made(&rt, answers(rt.alloc())) == ([1, 100, 200], true));
}

/// What nested calls of a function return, while the run waits for two calls; what the run returns; and how many nested runs there can be.
fn nested(alloc: Global) -> Result<[i64; 4], Fail> {
    let bounds = Bounds {
        runs: 1,
        ..Bounds::DEFAULT
    };
    let mut state = asking(alloc, bounds)?;
    let doubled = called(alloc, &mut state, "double", 21)?;
    // A nested run of `outer` waits for a call of its own, and no third run begins.
    let waits = called(alloc, &mut state, "outer", 3)?;
    let refused = match begin_error(alloc, &mut state, "double", 1)? {
        Some(BeginError::TooManyRuns) => argument(&state),
        _ => -5,
    };
    let _waits = answered(&mut state, 10);
    let _failed = state.fail(Cause::Detailed(Reason::World, String::new(alloc)));
    // The run of the top level waits for its first call again.
    let first = argument(&state);
    let _waits = answered(&mut state, first);
    let _waits = answered(&mut state, 2);
    Ok([doubled, waits, refused, answered(&mut state, 3)])
}

#[test]
fn functions_run_while_a_call_waits(rt: HostRuntime) {
    assert!(&rt; made(&rt, nested(rt.alloc())) == [42, -2, 3, 7]);
}
