//! A script that runs several times.

use crate::runs::{ADD, ASSIGN, DECLARE, INVOKE, with_function};
use crate::samples::{assert_same, made};
use grain::Op;
use grain_machine::{Outcome, Prepared, RunLimits, prepare};
use rhai_runtime::{Recorder, Script};
use std::alloc::{AllocError, Global};
use std::process::Abort;
use std::test::Fail;

/// f(true); f(false), where f(x) is 1 where x holds, and otherwise throws 7
const THROWING: &[Op] = &[
    Op::Bool(true),
    INVOKE,
    Op::Pop,
    Op::Bool(false),
    INVOKE,
    Op::Return,
    Op::LoadLocal(0),
    Op::JumpIfFalse { target: 10 },
    Op::Const(1),
    Op::Return,
    Op::Const(7),
    Op::Throw,
];

/// How many calls the fault of a run ended.
fn calls_of_run(
    alloc: Global,
    prepared: &Prepared,
    script: &mut Script<Recorder>,
) -> Result<usize, AllocError> {
    let limits = RunLimits {
        fuel: 100,
        depth: 5,
    };
    let _ending = prepared.main().run(alloc, script, limits)?;
    Ok(script.backtrace().len())
}

/// The same of two runs, one after the other.
fn calls_of_both(
    alloc: Global,
    prepared: &Prepared,
    script: &mut Script<Recorder>,
) -> Result<[usize; 2], AllocError> {
    let first = calls_of_run(alloc, prepared, script)?;
    let second = calls_of_run(alloc, prepared, script)?;
    Ok([first, second])
}

/// The program of these operations, of which those from one on are a function.
fn prepared(alloc: Global, ops: &[Op], end: usize) -> Result<Prepared, Fail> {
    Ok(prepare(alloc, with_function(alloc, ops, end)?)?)
}

fn script_of(alloc: Global, prepared: &Prepared) -> Result<Script<Recorder>, Fail> {
    let limits = Script::<Recorder>::DEFAULT_LIMITS;
    let program = prepared.verified().program();
    match Script::new(alloc, program, Recorder::new(alloc), limits) {
        Ok(script) => Ok(script),
        Err(_) => Err(Fail::new("there is no script")),
    }
}

#[test]
fn each_run_has_a_backtrace_of_its_own(rt: HostRuntime) {
    let prepared = made(&rt, prepared(rt.alloc(), THROWING, 6));
    let mut script = made(&rt, script_of(rt.alloc(), &prepared));
    let calls = made(&rt, calls_of_both(rt.alloc(), &prepared, &mut script));
    assert_same(&rt, calls, [1, 1]);
}

/// let x = 1; x = x + 1; f(x); x, where f(x) is x
const COUNTING: &[Op] = &[
    Op::Const(1),
    DECLARE,
    Op::LoadLocal(0),
    Op::Const(1),
    ADD,
    ASSIGN,
    Op::LoadLocal(0),
    INVOKE,
    Op::Pop,
    Op::LoadLocal(0),
    Op::Return,
    Op::LoadLocal(0),
    Op::Return,
];

/// let x = []; x = x + [1]; f(x); x, where f(x) is x
const COLLECTING: &[Op] = &[
    Op::MakeArray(0),
    DECLARE,
    Op::LoadLocal(0),
    Op::Const(1),
    Op::MakeArray(1),
    ADD,
    ASSIGN,
    Op::LoadLocal(0),
    INVOKE,
    Op::Pop,
    Op::LoadLocal(0),
    Op::Return,
    Op::LoadLocal(0),
    Op::Return,
];

/// Enough for a whole run.
const WHOLE: RunLimits = RunLimits {
    fuel: 100,
    depth: 5,
};

/// Ends with a fault if a function is called.
const WITHOUT_CALLS: RunLimits = RunLimits {
    fuel: 100,
    depth: 0,
};

/// Ends inside the function.
const WITHOUT_FUEL: RunLimits = RunLimits { fuel: 9, depth: 5 };

/// What a run returns as text, or nothing.
fn returned(
    alloc: Global,
    prepared: &Prepared,
    script: &mut Script<Recorder>,
    limits: RunLimits,
) -> Result<String, AllocError> {
    let ending = prepared.main().run(alloc, script, limits)?;
    match ending.outcome {
        Outcome::Returned(Some(value)) => format!(in alloc; "{value};"),
        _ => String::from_str(alloc, ";"),
    }
}

/// What several runs of one script return, one after the other.
fn returned_by_all(
    alloc: Global,
    prepared: &Prepared,
    script: &mut Script<Recorder>,
) -> Result<String, AllocError> {
    let mut text = String::new(alloc);
    for limits in [
        WHOLE,
        WHOLE,
        WHOLE,
        WITHOUT_CALLS,
        WHOLE,
        WITHOUT_FUEL,
        WHOLE,
    ] {
        let one = returned(alloc, prepared, script, limits)?;
        text.push_str(one.as_str())?;
    }
    Ok(text)
}

fn runs_of(rt: &impl Abort, alloc: Global, ops: &[Op], end: usize) -> String {
    let prepared = made(rt, prepared(alloc, ops, end));
    let mut script = made(rt, script_of(alloc, &prepared));
    made(rt, returned_by_all(alloc, &prepared, &mut script))
}

#[test]
fn a_run_begins_with_no_variables(rt: HostRuntime) {
    let numbers = runs_of(&rt, rt.alloc(), COUNTING, 11);
    assert_same(&rt, numbers.as_str(), "2;2;2;;2;;2;");
    let arrays = runs_of(&rt, rt.alloc(), COLLECTING, 12);
    assert_same(&rt, arrays.as_str(), "[1];[1];[1];;[1];;[1];");
}
