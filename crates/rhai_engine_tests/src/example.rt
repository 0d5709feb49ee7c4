//! The example of docs/EMBEDDING.md.

use crate::host::{made, number, state_of};
use rhai_engine::{Bounds, Event, State};
use rhai_values::{Cause, Value};
use std::alloc::Global;
use std::test::Fail;

/// The value of the last run. Its calls of `twice` are answered here.
fn value_of(state: &mut State) -> Option<Value> {
    'slices: for _slice in 0..1_000 {
        match state.resume(10_000).event {
            Event::Paused => {}
            Event::Calls => {
                let number = match state.asked()?.arguments() {
                    [Value::Int(number)] => Some(*number),
                    _ => None,
                };
                let _event = match number {
                    Some(number) => state.answer(Value::Int(number.saturating_mul(2))),
                    None => state.fail(Cause::WrongType("i64")),
                };
            }
            Event::Returned(value) => return Some(value),
            Event::Failed(_) | Event::OutOfMemory | Event::Idle => return None,
        }
    }
    None
}

/// What a call of `f` returns that has an integer, and one that has another value.
fn values(alloc: Global) -> Result<[i64; 2], Fail> {
    let source = "fn f(x) { try { return twice(x); } catch { return -5; } }";
    let mut state = state_of(alloc, source, Bounds::DEFAULT)?;
    state.register("twice", 1)?;
    let mut values = [0; 2];
    if state
        .begin_call("f", vec![in alloc; Value::Int(4)]?)
        .is_ok()
    {
        values[0] = number(value_of(&mut state).as_ref());
    }
    if state.begin_call("f", vec![in alloc; Value::Unit]?).is_ok() {
        values[1] = number(value_of(&mut state).as_ref());
    }
    Ok(values)
}

#[test]
fn a_host_answers_calls(rt: HostRuntime) {
    assert!(&rt; made(&rt, values(rt.alloc())) == [8, -5]);
}
