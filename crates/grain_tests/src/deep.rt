//! Values that are deep. What they cost is in docs/COSTS.md.

use crate::samples::{assert_same, made};
use grain_base::{Caps, Dynamic};
use grain_bytecode::Switch;
use grain_rules::constant_caps;
use std::alloc::{AllocError, Global};
use std::collections::HashMap;
use std::test::Fail;

/// How many arrays there are, one in another.
const DEPTH: usize = 300;

/// A value in an array, under a shared mark where it is asked for.
fn array_of(alloc: Global, value: Dynamic, is_shared: bool) -> Result<Dynamic, AllocError> {
    let inner = if is_shared {
        Dynamic::Shared(Box::new(alloc, value)?)
    } else {
        value
    };
    Ok(Dynamic::Array(vec![in alloc; inner]?))
}

/// An integer in nested arrays of this number, each of them under a shared mark where that is wanted.
fn deep(alloc: Global, integer: i64, is_shared: bool) -> Result<Dynamic, AllocError> {
    let mut value = Dynamic::Int(integer);
    for _ in 0..DEPTH {
        value = array_of(alloc, value, is_shared)?;
    }
    Ok(value)
}

/// A switch to 10 where the subject is that value, and else to 99.
fn switch_on(alloc: Global, value: Dynamic) -> Result<Switch, Fail> {
    let mut cases = HashMap::new(alloc);
    let _ = cases.insert(value, (10, 0))?;
    Ok(Switch {
        cases: Some(cases),
        ranges: Vec::new(alloc),
        default: 99,
    })
}

/// Where a deep 1 as a case leads this integer, and what that needs as a constant.
fn led(alloc: Global, integer: i64, is_shared: bool) -> Result<(u32, Option<Caps>), Fail> {
    let switch = switch_on(alloc, deep(alloc, 1, false)?)?;
    let value = deep(alloc, integer, is_shared)?;
    Ok((switch.dispatch(&value), constant_caps(&value)))
}

#[test]
fn deep_values_are_cases_and_constants(rt: HostRuntime) {
    assert_same(&rt, made(&rt, led(rt.alloc(), 1, true)), (10, None));
    let found = made(&rt, led(rt.alloc(), 2, false));
    assert_same(&rt, found, (99, Some(Caps::ARRAY)));
}
