//! Runs of the top level and of functions.

use crate::host::{begins, called, made, number, returned, set, state_of};
use rhai_engine::Bounds;
use std::alloc::Global;
use std::test::Fail;

const COUNTING: &str = "
    fn add(x) { count += x; count }
    count = 10;
    count
";

/// What the top level returns, and then three calls of a function that changes a variable; and the variable.
fn counted(alloc: Global) -> Result<[i64; 5], Fail> {
    let mut state = state_of(alloc, COUNTING, Bounds::DEFAULT)?;
    set(&mut state, "count", 0)?;
    if !begins(&mut state) {
        return Err(Fail::new("no run begins"));
    }
    let top = returned(&mut state);
    let first = called(alloc, &mut state, "add", 1)?;
    let second = called(alloc, &mut state, "add", 2)?;
    let third = called(alloc, &mut state, "add", 3)?;
    Ok([top, first, second, third, number(state.variable("count"))])
}

#[test]
fn named_variables_stay(rt: HostRuntime) {
    assert!(&rt; made(&rt, counted(rt.alloc())) == [10, 11, 13, 16, 16]);
}
