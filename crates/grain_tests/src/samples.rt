//! What several tests share.

use grain::{
    Chain, Chunk, Flags, FnAccess, Function, Parts, Pools, Position, Positions, Program, Root,
    Sidecar, Step, StepFlags, Strings, Tail,
};
use std::alloc::{AllocError, Global};
use std::fmt::Debug;
use std::process::Abort;
use std::test::Fail;

/// Asserts that both are the same. `assert_eq!` in its place costs the prover five times as much.
pub(crate) fn assert_same<T: PartialEq + Debug + Drop>(rt: &impl Abort, found: T, wanted: T) {
    assert_eq!(rt; found, wanted);
}

/// What a test prepares, for which there is memory. A `?` in its place costs the prover a drop of all that is alive.
pub(crate) fn made<T, E>(rt: &impl Abort, made: Result<T, E>) -> T {
    match made {
        Ok(made) => made,
        Err(_) => panic!(rt; "a test can't be prepared"),
    }
}

/// `a[i].b`, whose four positions in the first line are 1:1, 1:3, its bracket 1:2, and 1:6.
pub(crate) fn chain(alloc: Global) -> Result<Chain, AllocError> {
    let index = Step::Index {
        operand: 0,
        flags: StepFlags::empty(),
        pos: Position::new(1, 3),
        bracket: Position::new(1, 2),
    };
    let property = Step::Property {
        name: 1,
        getter: 2,
        setter: 3,
        flags: StepFlags::SKIP_IF_UNIT,
        pos: Position::new(1, 6),
    };
    Ok(Chain {
        root: Root::Named {
            name: 0,
            pos: Position::new(1, 1),
        },
        steps: vec![in alloc; index, property]?,
        tail: Tail::Read,
        operands: 1,
    })
}

/// Number 7, with these names and nothing else.
pub(crate) fn parts(alloc: Global, names: &[&str]) -> Result<Parts, Fail> {
    Ok(Parts {
        positions: Positions::Stripped,
        debug_id: 7,
        residuals: 0,
        consts: Vec::new(alloc),
        names: Strings::new(alloc, names)?,
        tokens: Vec::new(alloc),
        assign_ops: Vec::new(alloc),
        chains: Vec::new(alloc),
        switches: Vec::new(alloc),
        source: None,
    })
}

/// Pools with these names and nothing else.
pub(crate) fn pools(names: &Strings) -> Pools<'_> {
    Pools {
        consts: 0,
        names,
        tokens: 0,
        assign_ops: 0,
        residuals: 0,
        chains: &[],
        switches: &[],
    }
}

/// A function of that name with this number of parameters, which are called as it is.
pub(crate) fn function(
    alloc: Global,
    name: u32,
    this_type: Option<u32>,
    argc: usize,
    chunk: Chunk,
) -> Result<Function, AllocError> {
    Ok(Function {
        name,
        params: vec![in alloc; name; argc]?,
        access: FnAccess::Public,
        this_type,
        chunk,
    })
}

// What these ensure isn't said, so that the prover needn't carry it through the rest of a test. A test that has a program
// costs it some seconds more for each `?` behind that, at which the program would be dropped: so most of them have none.

/// Strips the program, and gives it back what came off it. Tells whether both succeeded, and nothing was left between.
pub(crate) fn strip_and_attach(program: &mut Program) -> bool {
    let Ok(sidecar) = program.strip_positions() else {
        return false;
    };
    let is_bare = program.positions().is_stripped();
    program.attach_positions(&sidecar).is_ok() && is_bare
}

/// Whether [`Program::tighten_stack`] succeeds.
pub(crate) fn tightens(program: &mut Program) -> bool {
    program.tighten_stack().is_ok()
}

/// Whether [`Program::verify`] answers these numbers.
pub(crate) fn verifies(program: &Program, numbers: &[u16]) -> bool {
    match program.verify() {
        Ok(answer) => answer.as_slice() == numbers,
        Err(_) => false,
    }
}

/// Whether this table and this stream are the program's sidecar.
pub(crate) fn is_sidecar(program: &Program, table: &[u8], stream: &[u8]) -> bool {
    match program.sidecar() {
        Ok(sidecar) => is(&sidecar, table, stream),
        Err(_) => false,
    }
}

/// Whether the sidecar is this table and this stream.
pub(crate) fn is(sidecar: &Sidecar, table: &[u8], stream: &[u8]) -> bool {
    sidecar.positions.as_slice() == table && sidecar.chains.as_slice() == stream
}
