//! Runs that pause.

use crate::runs::{
    ADD, ASKING, Fault, INVOKE, Script, Seen, ended, idle_script, told, with_function,
};
use crate::samples::{assert_same, made};
use grain::{Dynamic, Op};
use grain_machine::{Progress, RunLimits, Runnable, prepare};
use std::alloc::{AllocError, Global};
use std::test::Fail;

/// What the embedding program does with a call.
#[derive(Clone, Copy)]
enum Answer {
    Returns(i64),
    Fails,
}

/// How a run in slices of this fuel ends, where, and after how many turns.
fn in_slices(
    main: &Runnable<'_>,
    alloc: Global,
    script: &mut Script,
    fuel: u64,
    answer: Answer,
) -> Result<(Seen, usize, u64), AllocError> {
    let limits = RunLimits { fuel, depth: 3 };
    let mut run = main.start(alloc)?;
    let mut turns = 0u64;
    'slices: for _slice in 0..1000 {
        match main.resume(alloc, run, script, limits) {
            Progress::Paused(rest) => {
                run = rest;
                turns = turns.saturating_add(fuel);
            }
            Progress::Waits {
                run: waiting,
                turns: used,
            } => {
                turns = turns.saturating_add(used);
                match answer {
                    Answer::Returns(x) => run = main.answer(script, waiting, Dynamic::Int(x)),
                    Answer::Fails => match main.fail(script, waiting, Fault::Wrong) {
                        Ok(rest) => run = rest,
                        Err(ending) => return Ok((told(&ending.outcome), ending.at, turns)),
                    },
                }
                turns = turns.saturating_add(1);
            }
            Progress::Ended {
                ending,
                turns: used,
            } => return Ok((told(&ending.outcome), ending.at, turns.saturating_add(used))),
        }
    }
    Ok((Seen::OutOfFuel, 0, turns))
}

/// The same of a program of a top level, which ends at an operation, and a function.
fn sliced(
    alloc: Global,
    ops: &[Op],
    end: usize,
    fuel: u64,
    answer: Answer,
) -> Result<(Seen, usize, u64), Fail> {
    let prepared = prepare(alloc, with_function(alloc, ops, end)?)?;
    let mut script = idle_script(alloc);
    Ok(in_slices(&prepared.main(), alloc, &mut script, fuel, answer)?)
}

/// How a run of the same program ends that can't pause, and where.
fn unsliced(alloc: Global, ops: &[Op], end: usize) -> Result<(Seen, usize), Fail> {
    let prepared = prepare(alloc, with_function(alloc, ops, end)?)?;
    let mut script = idle_script(alloc);
    Ok(ended(&prepared.main(), alloc, &mut script, 1000)?)
}

/// try { f(1) + 2 } catch { 8 }, where f(n) is n + 3
const ADDS: &[Op] = &[
    Op::PushHandler {
        target: 6,
        catch_var: None,
    },
    Op::Const(1),
    INVOKE,
    Op::Const(2),
    ADD,
    Op::Return,
    Op::PopHandler,
    Op::Const(8),
    Op::Return,
    Op::LoadLocal(0),
    Op::Const(3),
    ADD,
    Op::Return,
];

/// try { f(1) + 2 } catch { 8 }, where f(n) is ask(n) + 3
const ASKS: &[Op] = &[
    Op::PushHandler {
        target: 6,
        catch_var: None,
    },
    Op::Const(1),
    INVOKE,
    Op::Const(2),
    ADD,
    Op::Return,
    Op::PopHandler,
    Op::Const(8),
    Op::Return,
    Op::LoadLocal(0),
    ASKING,
    Op::Const(3),
    ADD,
    Op::Return,
];

/// f(1), where f(n) is ask(n)
const ASKS_BARELY: &[Op] = &[
    Op::Const(1),
    INVOKE,
    Op::Return,
    Op::LoadLocal(0),
    ASKING,
    Op::Return,
];

#[test]
fn slices_make_the_turns_of_one_run(rt: HostRuntime) {
    let whole = made(&rt, sliced(rt.alloc(), ADDS, 9, 1000, Answer::Fails));
    assert_same(&rt, whole, (Seen::Returned(6), 19, 9));
    let one = made(&rt, unsliced(rt.alloc(), ADDS, 9));
    assert_same(&rt, one, (Seen::Returned(6), 19));
    for fuel in [1, 2, 5] {
        let found = made(&rt, sliced(rt.alloc(), ADDS, 9, fuel, Answer::Fails));
        assert_same(&rt, found, whole);
    }
}

#[test]
fn a_run_waits_for_answers(rt: HostRuntime) {
    for fuel in [1, 2, 1000] {
        let found = made(&rt, sliced(rt.alloc(), ASKS, 9, fuel, Answer::Returns(4)));
        assert_same(&rt, found, (Seen::Returned(9), 19, 10));
    }
    let unanswered = made(&rt, unsliced(rt.alloc(), ASKS, 9));
    assert_same(&rt, unanswered, (Seen::Unanswered, 8));
}

#[test]
fn a_handler_catches_the_fault_of_a_call(rt: HostRuntime) {
    for fuel in [1, 2, 1000] {
        let found = made(&rt, sliced(rt.alloc(), ASKS, 9, fuel, Answer::Fails));
        assert_same(&rt, found, (Seen::Returned(8), 24, 7));
        let found = made(&rt, sliced(rt.alloc(), ASKS_BARELY, 3, fuel, Answer::Fails));
        assert_same(&rt, found, (Seen::Wrong, 3, 3));
    }
}
