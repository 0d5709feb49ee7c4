use crate::samples::{assert_same, made};
use grain::{
    BuildError, Caps, Cut, Dynamic, Flags, FnAccess, Head, Op, Parts, Positions, Strings, Switch,
    Verified, build,
};
use grain_machine::{
    CallError, Host, Outcome, Reply, Request, RunLimits, Runnable, dispatch, prepare,
};
use std::alloc::{AllocError, Global};
use std::test::Fail;

/// Integers and lists of them, with local variables.
#[derive(Drop)]
pub(crate) struct Script {
    alloc: Global,
    locals: Vec<i64>,
    /// Where the locals of each function begin that is under way.
    bases: Vec<usize>,
    caught: Vec<i64>,
    /// What it was asked last that is answered later.
    pub(crate) asked: i64,
    /// Whether it does at once what it can.
    is_quick: bool,
}

#[derive(Drop)]
pub(crate) enum Fault {
    Thrown(Dynamic),
    Wrong,
    Stopped,
    TooDeep,
    OutOfMemory,
}

fn number(value: Option<&Dynamic>) -> i64 {
    match value {
        Some(Dynamic::Int(x)) => *x,
        _ => 0,
    }
}

/// What a call gives: `0` adds, `1` compares, `3` stops the script, anything else divides.
fn called(name: u32, operands: &[Dynamic]) -> Result<Dynamic, Fault> {
    let a = number(operands.get(0));
    let b = number(operands.get(1));
    match name {
        0 => Ok(Dynamic::Int(a.wrapping_add(b))),
        1 => Ok(Dynamic::Bool(a < b)),
        3 => Err(Fault::Stopped),
        _ => match a.checked_div(b) {
            Some(x) => Ok(Dynamic::Int(x)),
            None => Err(Fault::Wrong),
        },
    }
}

/// An array of these integers.
fn array_of(alloc: Global, operands: &[Dynamic]) -> Result<Dynamic, Fault> {
    let mut items = Vec::new(alloc);
    for operand in operands.iter() {
        if items.push(Dynamic::Int(number(Some(operand)))).is_err() {
            return Err(Fault::OutOfMemory);
        }
    }
    Ok(Dynamic::Array(items))
}

impl Script {
    /// The place of a local variable of the function that runs.
    fn place(&self, slot: u16) -> usize {
        let base = self.bases.last().copied().unwrap_or(0);
        base.saturating_add(slot as usize)
    }

    /// How many functions are under way.
    pub(crate) fn under_way(&self) -> usize {
        self.bases.len()
    }

    /// Begins the locals of a function with its arguments.
    fn pass(&mut self, arguments: &[Dynamic]) -> Result<(), AllocError> {
        self.bases.reserve(1)?;
        let base = self.locals.len();
        for argument in arguments {
            self.locals.push(number(Some(argument)))?;
        }
        self.bases.push_reserved(base);
        Ok(())
    }

    /// What an operation gives that calls no function of the program.
    fn value(&mut self, request: &Request<'_>, operands: &[Dynamic]) -> Result<Dynamic, Fault> {
        match request.op {
            Op::Const(index) => Ok(Dynamic::Int(number(
                request.program.consts().get(*index as usize),
            ))),
            Op::LoadLocal(slot) => match self.locals.get(self.place(*slot)) {
                Some(x) => Ok(Dynamic::Int(*x)),
                None => Err(Fault::Wrong),
            },
            Op::Call { name, .. } => called(*name, operands),
            Op::MakeArray(_) => array_of(self.alloc, operands),
            _ => Err(Fault::Wrong),
        }
    }

    /// Does an operation that gives no value.
    fn act(&mut self, request: &Request<'_>, operands: &[Dynamic]) -> Result<(), Fault> {
        match request.op {
            Op::DeclareLocal { .. } => match self.locals.push(number(operands.get(0))) {
                Ok(()) => Ok(()),
                Err(_) => Err(Fault::OutOfMemory),
            },
            Op::AssignLocal { slot, .. } => {
                let place = self.place(*slot);
                match self.locals.get_mut(place) {
                    Some(local) => {
                        *local = number(operands.get(0));
                        Ok(())
                    }
                    None => Err(Fault::Wrong),
                }
            }
            Op::Tick => Ok(()),
            _ => Err(Fault::Wrong),
        }
    }
}

impl Host for Script {
    type Value = Dynamic;

    type Iterator = Vec<i64>;

    type Fault = Fault;

    fn unit(&mut self) -> Dynamic {
        Dynamic::Unit
    }

    fn boolean(&mut self, value: bool) -> Dynamic {
        Dynamic::Bool(value)
    }

    fn unwind_to(&mut self, depth: u16) {
        let place = self.place(depth);
        self.locals.truncate(place);
    }

    fn give(
        &mut self,
        request: &Request<'_>,
        operands: &mut [Dynamic],
    ) -> Result<Reply<Dynamic>, Fault> {
        if let Op::Call { name: ASK, .. } = request.op {
            self.asked = number(operands.get(0));
            return Ok(Reply::Wait);
        }
        // The names from `4` on are those of functions.
        if let Op::Call { name, .. } = request.op
            && *name >= 4
        {
            let function = *name as usize - 4;
            if function >= request.program.functions().len() {
                return Err(Fault::Wrong);
            }
            return match self.pass(operands) {
                Ok(()) => Ok(Reply::Call { function }),
                Err(_) => Err(Fault::OutOfMemory),
            };
        }
        match self.value(request, operands) {
            Ok(value) => Ok(Reply::Value(value)),
            Err(fault) => Err(fault),
        }
    }

    fn left(&mut self) {
        if let Some(base) = self.bases.pop() {
            self.locals.truncate(base);
        }
    }

    fn refused(&mut self, _: usize, cause: CallError) -> Fault {
        self.left();
        match cause {
            CallError::TooDeep => Fault::TooDeep,
            CallError::OutOfMemory => Fault::OutOfMemory,
        }
    }

    fn take(&mut self, request: &Request<'_>, operands: &mut [Dynamic]) -> Result<(), Fault> {
        self.act(request, operands)
    }

    fn quick_give(&mut self, request: &Request<'_>, operands: &[Dynamic]) -> Option<Dynamic> {
        // The names from `4` on are those of functions.
        if !self.is_quick || matches!(request.op, Op::Call { name, .. } if *name >= 4) {
            return None;
        }
        match self.value(request, operands) {
            Ok(value) => Some(value),
            Err(_) => None,
        }
    }

    fn quick_take(&mut self, request: &Request<'_>, operands: &[Dynamic]) -> bool {
        self.is_quick && self.act(request, operands).is_ok()
    }

    fn quick_truth(&mut self, value: &Dynamic) -> Option<bool> {
        match value {
            Dynamic::Bool(value) if self.is_quick => Some(*value),
            _ => None,
        }
    }

    fn quick_next(&mut self, iterator: &Vec<i64>, _: Option<u16>) -> Option<Dynamic> {
        match iterator.last() {
            Some(x) if self.is_quick => Some(Dynamic::Int(*x)),
            _ => None,
        }
    }

    fn went_on(&mut self, iterator: &mut Vec<i64>) {
        let _ = iterator.pop();
    }

    fn needs_drop(&self, value: &Dynamic) -> bool {
        !self.is_quick || !matches!(value, Dynamic::Int(_) | Dynamic::Bool(_))
    }

    fn is_true(&mut self, _: &Request<'_>, value: &Dynamic) -> Result<bool, Fault> {
        match value {
            Dynamic::Bool(value) => Ok(*value),
            _ => Err(Fault::Wrong),
        }
    }

    fn is_unit(&mut self, value: &Dynamic) -> bool {
        match value {
            Dynamic::Unit => true,
            _ => false,
        }
    }

    fn dispatch(
        &mut self,
        _: &Request<'_>,
        switch: &Switch,
        subject: &Dynamic,
    ) -> Result<u32, Fault> {
        Ok(dispatch(switch, subject))
    }

    fn begin(&mut self, _: &Request<'_>, value: Dynamic) -> Result<Vec<i64>, Fault> {
        let Dynamic::Array(items) = value else {
            return Err(Fault::Wrong);
        };
        let mut numbers = Vec::new(self.alloc);
        for item in items.iter().rev() {
            if numbers.push(number(Some(item))).is_err() {
                return Err(Fault::OutOfMemory);
            }
        }
        Ok(numbers)
    }

    fn advance(
        &mut self,
        _: &Request<'_>,
        iterator: &mut Vec<i64>,
        _: Option<u16>,
    ) -> Result<Option<Dynamic>, Fault> {
        Ok(iterator.pop().map(|x| Dynamic::Int(x)))
    }

    fn thrown(&mut self, _: &Request<'_>, value: Dynamic) -> Fault {
        Fault::Thrown(value)
    }

    fn caught(&mut self, fault: Fault, _: Option<u32>) -> Result<(), Fault> {
        let number = match fault {
            Fault::Thrown(value) => number(Some(&value)),
            Fault::Wrong => -1,
            Fault::Stopped => return Err(Fault::Stopped),
            Fault::TooDeep => -2,
            Fault::OutOfMemory => return Err(Fault::OutOfMemory),
        };
        match self.caught.push(number) {
            Ok(()) => Ok(()),
            Err(_) => Err(Fault::OutOfMemory),
        }
    }
}

/// Declares a local variable.
pub(crate) const DECLARE: Op = Op::DeclareLocal {
    name: 0,
    is_const: false,
    is_global: false,
};

/// Assigns to the first local variable.
pub(crate) const ASSIGN: Op = Op::AssignLocal {
    slot: 0,
    var_name: 0,
    op: None,
};

/// Calls what has that name with this number of arguments.
macro_rules! call {
    ($name:expr, $argc:expr) => {
        Op::Call {
            name: $name,
            argc: $argc,
            op: None,
            capture_parent_scope: false,
        }
    };
}

pub(crate) const ADD: Op = call!(0, 2);

pub(crate) const LESS: Op = call!(1, 2);

pub(crate) const DIVIDE: Op = call!(2, 2);

const STOP: Op = call!(3, 2);

/// The name of what is answered later.
const ASK: u32 = 6;

pub(crate) const ASKING: Op = call!(ASK, 1);

/// Calls the first function.
pub(crate) const INVOKE: Op = call!(4, 1);

/// Arms a handler whose catch begins at an operation.
macro_rules! catching {
    ($target:expr) => {
        Op::PushHandler {
            target: $target,
            catch_var: None,
        }
    };
}

/// What all programs here share: the constants 0, 1, 2 and so on, and names.
fn parts(alloc: Global) -> Result<Parts, Fail> {
    let mut parts = Parts {
        positions: Positions::Stripped,
        debug_id: 0,
        residuals: 0,
        consts: Vec::new(alloc),
        names: Strings::new(alloc, &["+", "<", "/", "stop", "f", "g", "ask"])?,
        tokens: Vec::new(alloc),
        assign_ops: Vec::new(alloc),
        chains: Vec::new(alloc),
        switches: Vec::new(alloc),
        source: None,
    };
    fill(&mut parts.consts)?;
    Ok(parts)
}

fn fill(consts: &mut Vec<Dynamic>) -> Result<(), Fail> {
    for x in 0..10 {
        consts.push(Dynamic::Int(x))?;
    }
    Ok(())
}

/// The same, and a switch.
pub(crate) fn with_switch(alloc: Global, switch: Switch) -> Result<Parts, Fail> {
    let mut parts = parts(alloc)?;
    parts.switches.push(switch)?;
    Ok(parts)
}

/// [`build`], where each cut but the first has its head.
fn built(
    alloc: Global,
    ops: &[Op],
    cuts: &[Cut],
    heads: Vec<Head>,
    parts: Parts,
) -> Result<Verified, BuildError> {
    if cuts.len() != heads.len() + 1 {
        return Err(BuildError::BadCut { index: usize::MAX });
    }
    build(alloc, Caps::all(), ops, cuts, heads, parts)
}

/// The operations from the first up to the end, which declare that they stack at most 8 operands.
fn cut(first: usize, end: usize) -> Cut {
    Cut {
        first,
        end,
        max_stack: 8,
    }
}

/// The operations as the top level of a program with these parts.
pub(crate) fn program_of(alloc: Global, ops: &[Op], parts: Parts) -> Result<Verified, BuildError> {
    built(alloc, ops, &[cut(0, ops.len())], Vec::new(alloc), parts)
}

/// The head of the function of the name 4, with one parameter of the name 5.
fn heads(alloc: Global) -> Result<Vec<Head>, AllocError> {
    let head = Head {
        name: 4,
        params: vec![in alloc; 5]?,
        access: FnAccess::Public,
        this_type: None,
    };
    Ok(vec![in alloc; head]?)
}

/// A program of the top level, which ends at an operation, and of one function.
pub(crate) fn with_function(alloc: Global, ops: &[Op], end: usize) -> Result<Verified, Fail> {
    let cuts = [cut(0, end), cut(end, ops.len())];
    let heads = heads(alloc)?;
    let parts = parts(alloc)?;
    Ok(built(alloc, ops, &cuts, heads, parts)?)
}

/// The operations as the top level of a program.
pub(crate) fn program(alloc: Global, ops: &[Op]) -> Result<Verified, Fail> {
    let parts = parts(alloc)?;
    Ok(program_of(alloc, ops, parts)?)
}

/// How a run ended, with the integer that it returned or threw.
#[derive(Clone, Copy, Debug, PartialEq, Eq)]
pub(crate) enum Seen {
    Returned(i64),
    Thrown(i64),
    Wrong,
    Stopped,
    TooDeep,
    OutOfFuel,
    OutOfMemory,
    Unanswered,
}

pub(crate) fn told(outcome: &Outcome<Dynamic, Fault>) -> Seen {
    match outcome {
        Outcome::Returned(Some(Dynamic::Int(x))) => Seen::Returned(*x),
        Outcome::Returned(_) => Seen::Wrong,
        Outcome::Faulted(Fault::Thrown(Dynamic::Int(x))) => Seen::Thrown(*x),
        Outcome::Faulted(Fault::TooDeep) => Seen::TooDeep,
        Outcome::Faulted(Fault::OutOfMemory) => Seen::OutOfMemory,
        Outcome::Faulted(_) => Seen::Wrong,
        Outcome::Uncatchable(_) => Seen::Stopped,
        Outcome::OutOfFuel => Seen::OutOfFuel,
        Outcome::OutOfMemory => Seen::OutOfMemory,
        Outcome::Unanswered => Seen::Unanswered,
    }
}

/// A script that has declared nothing.
pub(crate) fn idle_script(alloc: Global) -> Script {
    Script {
        alloc,
        locals: Vec::new(alloc),
        bases: Vec::new(alloc),
        caught: Vec::new(alloc),
        asked: 0,
        is_quick: false,
    }
}

/// How a run of the chunk ends, and where.
pub(crate) fn ended(
    main: &Runnable<'_>,
    alloc: Global,
    script: &mut Script,
    fuel: u64,
) -> Result<(Seen, usize), AllocError> {
    let limits = RunLimits { fuel, depth: 3 };
    let ending = main.run(alloc, script, limits)?;
    Ok((told(&ending.outcome), ending.at))
}

/// How a run of the chunk ends, where, and whether this was caught in it, by a host that does at once what it can, or nothing.
fn ended_by(
    main: &Runnable<'_>,
    alloc: Global,
    is_quick: bool,
    fuel: u64,
    caught: &[i64],
) -> Result<(Seen, usize, bool), AllocError> {
    let mut script = idle_script(alloc);
    script.is_quick = is_quick;
    let (told, at) = ended(main, alloc, &mut script, fuel)?;
    Ok((told, at, script.caught.as_slice() == caught))
}

/// How a run of the program ends, where, and whether this was caught in it, by both hosts.
fn ends(
    alloc: Global,
    verified: Verified,
    fuel: u64,
    caught: &[i64],
) -> Result<(Seen, usize, bool), Fail> {
    let prepared = prepare(alloc, verified)?;
    let main = prepared.main();
    let (told, at, all) = ended_by(&main, alloc, false, fuel, caught)?;
    let same = ended_by(&main, alloc, true, fuel, caught)? == (told, at, all);
    Ok((told, at, same && all))
}

/// How a run of the operations ends, where, and whether this was caught in it.
fn ran(alloc: Global, ops: &[Op], fuel: u64, caught: &[i64]) -> Result<(Seen, usize, bool), Fail> {
    ends(alloc, program(alloc, ops)?, fuel, caught)
}

/// sum = 0; for x in [1, 2, 3] { sum = sum + x }; sum
const LOOP: &[Op] = &[
    Op::Const(0),
    DECLARE,
    Op::Const(1),
    Op::Const(2),
    Op::Const(3),
    Op::MakeArray(3),
    Op::IterInit,
    Op::IterNext {
        exit: 12,
        counter_slot: None,
    },
    Op::LoadLocal(0),
    ADD,
    ASSIGN,
    Op::Jump(7),
    Op::LoadLocal(0),
    Op::Return,
];

#[test]
fn a_loop_runs_to_its_end(rt: HostRuntime) {
    let found = made(&rt, ran(rt.alloc(), LOOP, 1000, &[]));
    assert_same(&rt, found, (Seen::Returned(6), 44, true));
    let found = made(&rt, ran(rt.alloc(), LOOP, 9, &[]));
    assert_same(&rt, found, (Seen::OutOfFuel, 27, true));
}

/// try { try { 5 / 0 } catch { throw 7 } } catch { 9 }
const TRIES: &[Op] = &[
    catching!(9),
    catching!(6),
    Op::Const(5),
    Op::Const(0),
    DIVIDE,
    Op::Return,
    Op::PopHandler,
    Op::Const(7),
    Op::Throw,
    Op::PopHandler,
    Op::Const(9),
    Op::Return,
];

const THROWING: &[Op] = &[Op::Const(4), Op::Throw];

#[test]
fn faults_are_caught_by_the_innermost_handler(rt: HostRuntime) {
    let found = made(&rt, ran(rt.alloc(), TRIES, 1000, &[-1, 7]));
    assert_same(&rt, found, (Seen::Returned(9), 30, true));
    let found = made(&rt, ran(rt.alloc(), THROWING, 1000, &[]));
    assert_same(&rt, found, (Seen::Thrown(4), 3, true));
}

/// try { stop(1, 2) } catch { 9 }
const STOPPING: &[Op] = &[
    catching!(5),
    Op::Const(1),
    Op::Const(2),
    STOP,
    Op::Return,
    Op::PopHandler,
    Op::Const(9),
    Op::Return,
];

#[test]
fn a_fault_that_is_not_let_be_caught_ends_the_run(rt: HostRuntime) {
    let found = made(&rt, ran(rt.alloc(), STOPPING, 1000, &[]));
    assert_same(&rt, found, (Seen::Stopped, 11, true));
}

/// if a < b { 3 } else { 4 }
macro_rules! branching {
    ($a:expr, $b:expr) => {
        &[
            Op::Const($a),
            Op::Const($b),
            LESS,
            Op::JumpIfFalse { target: 6 },
            Op::Const(3),
            Op::Return,
            Op::Const(4),
            Op::Return,
        ]
    };
}

const BRANCHES: [(&[Op], Seen, usize); 2] = [
    (branching!(1, 2), Seen::Returned(3), 18),
    (branching!(2, 1), Seen::Returned(4), 22),
];

#[test]
fn branches_go_where_the_condition_says(rt: HostRuntime) {
    for (ops, outcome, at) in BRANCHES {
        assert_same(
            &rt,
            made(&rt, ran(rt.alloc(), ops, 1000, &[])),
            (outcome, at, true),
        );
    }
}
