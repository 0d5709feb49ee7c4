//! Functions of a program that are called, and other ways that runs take.

use crate::runs::{
    ADD, DIVIDE, INVOKE, LESS, Seen, ended, idle_script, program_of, with_function, with_switch,
};
use crate::samples::{assert_same, made};
use grain::{Dynamic, Op, Switch, SwitchRange, Verified};
use grain_machine::prepare;
use std::alloc::{AllocError, Global};
use std::collections::HashMap;
use std::test::Fail;

/// f(argument), where f(n) is 0 below 1, and else n + f(n / 2)
macro_rules! halving {
    ($argument:expr) => {
        &[
            Op::Const($argument),
            INVOKE,
            Op::Return,
            Op::LoadLocal(0),
            Op::Const(1),
            LESS,
            Op::JumpIfFalse { target: 9 },
            Op::Const(0),
            Op::Return,
            Op::LoadLocal(0),
            Op::LoadLocal(0),
            Op::Const(2),
            DIVIDE,
            INVOKE,
            ADD,
            Op::Return,
        ]
    };
}

const HALVING_3: &[Op] = halving!(3);

const HALVING_4: &[Op] = halving!(4);

/// How a run of the program ends, and how many functions are under way then, as the host was told.
fn told(alloc: Global, verified: Verified, fuel: u64) -> Result<(Seen, usize), Fail> {
    let prepared = prepare(alloc, verified)?;
    let mut script = idle_script(alloc);
    let main = prepared.main();
    let (outcome, _) = ended(&main, alloc, &mut script, fuel)?;
    Ok((outcome, script.under_way()))
}

/// The same of a top level, which ends at an operation, and a function.
fn called(alloc: Global, ops: &[Op], end: usize, fuel: u64) -> Result<(Seen, usize), Fail> {
    told(alloc, with_function(alloc, ops, end)?, fuel)
}

#[test]
fn a_function_calls_itself(rt: HostRuntime) {
    let rows = [
        (HALVING_3, 1000, Seen::Returned(4)),
        (HALVING_3, 20, Seen::OutOfFuel),
        (HALVING_4, 1000, Seen::TooDeep),
    ];
    for (ops, fuel, outcome) in rows {
        assert_same(
            &rt,
            made(&rt, called(rt.alloc(), ops, 3, fuel)),
            (outcome, 0),
        );
    }
}

/// try { f(3) } catch { 9 }, where f(n) is f(0) from 1 on, and f(0) throws 7
const THROWING: &[Op] = &[
    Op::PushHandler {
        target: 5,
        catch_var: None,
    },
    Op::Const(3),
    INVOKE,
    Op::PopHandler,
    Op::Return,
    Op::PopHandler,
    Op::Const(9),
    Op::Return,
    Op::LoadLocal(0),
    Op::Const(1),
    LESS,
    Op::JumpIfFalse { target: 14 },
    Op::Const(7),
    Op::Throw,
    Op::Const(0),
    INVOKE,
    Op::Return,
];

#[test]
fn a_fault_leaves_functions_until_it_is_caught(rt: HostRuntime) {
    let found = made(&rt, called(rt.alloc(), THROWING, 8, 1000));
    assert_same(&rt, found, (Seen::Returned(9), 0));
}

const TWO: &[Op] = &[Op::Const(1), Op::Return, Op::Const(8), Op::Return];

/// How a run of the program's only function ends, and where.
fn function_ended(alloc: Global, verified: Verified) -> Result<(Seen, usize), Fail> {
    if verified.program().functions().len() != 1 {
        return Err(Fail::new("not one function"));
    }
    let prepared = prepare(alloc, verified)?;
    let mut script = idle_script(alloc);
    Ok(ended(&prepared.function(0), alloc, &mut script, 10)?)
}

/// The same of the function that begins at the third of these operations.
fn second_ended(alloc: Global, ops: &[Op]) -> Result<(Seen, usize), Fail> {
    function_ended(alloc, with_function(alloc, ops, 2)?)
}

#[test]
fn a_function_runs_by_itself(rt: HostRuntime) {
    let found = made(&rt, second_ended(rt.alloc(), TWO));
    assert_same(&rt, found, (Seen::Returned(8), 7));
}

/// switch x { 7 => 1, 2..=4 => 5, _ => 3 }
macro_rules! switching {
    ($x:expr) => {
        &[
            Op::Const($x),
            Op::Switch(0),
            Op::Pop,
            Op::Const(1),
            Op::Return,
            Op::Pop,
            Op::Const(5),
            Op::Return,
            Op::Pop,
            Op::Const(3),
            Op::Return,
        ]
    };
}

/// 7 leads to operation 2, 2 to 4 lead to 5, and all else to 8.
fn switch(alloc: Global) -> Result<Switch, AllocError> {
    let mut cases = HashMap::new(alloc);
    let _ = cases.insert(Dynamic::Int(7), (2, 7))?;
    let range = SwitchRange {
        from: 2,
        to: 4,
        inclusive: true,
        target: 5,
    };
    Ok(Switch {
        cases: Some(cases),
        ranges: vec![in alloc; range]?,
        default: 8,
    })
}

/// How a run of the operations with the switch ends.
fn switched(alloc: Global, ops: &[Op]) -> Result<(Seen, usize), Fail> {
    let parts = with_switch(alloc, switch(alloc)?)?;
    told(alloc, program_of(alloc, ops, parts)?, 10)
}

const SWITCHES: [(&[Op], i64); 3] = [(switching!(7), 1), (switching!(4), 5), (switching!(5), 3)];

#[test]
fn a_switch_leads_where_its_subject_says(rt: HostRuntime) {
    for (ops, wanted) in SWITCHES {
        let found = made(&rt, switched(rt.alloc(), ops));
        assert_same(&rt, found, (Seen::Returned(wanted), 0));
    }
}
