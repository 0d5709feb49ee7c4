use crate::samples::{assert_same, made};
use grain_bytecode::{AssembleError, Op, Receiver, assemble, decode, disassemble, width};
use std::alloc::{AllocError, Global};
use std::process::Abort;

const OPS: &[Op] = &[Op::Const(0), Op::Unit, Op::Pop, Op::Return, Op::Jump(3)];

const CODE: &[u8] = &[0x01, 0, 0, 0x02, 0x0b, 0x13, 0x0c, 5, 0, 0, 0];

const OFFSETS: &[u32] = &[0, 3, 4, 5, 6, 11];

/// Asserts that the operations are written as that code, at these offsets.
fn assert_written(rt: &impl Abort, alloc: Global) -> Result<(), AssembleError> {
    let (code, offsets) = assemble(alloc, OPS)?;
    assert_same(rt, code.as_slice(), CODE);
    assert_same(rt, offsets.as_slice(), OFFSETS);
    Ok(())
}

#[test]
fn writes_operations(rt: HostRuntime) {
    made(&rt, assert_written(&rt, rt.alloc()));
}

#[test]
fn decodes_in_place(rt: HostRuntime) {
    let code = [0x02, 0x37, 1, 0, 2, 3, 1, 0x13];
    assert_same(&rt, width(&code, 1), Some(6));
    let call = Op::CallRef {
        name: 1,
        argc: 2,
        receiver: Receiver::Named(259),
        capture_parent_scope: false,
    };
    assert_same(&rt, decode(&code, 1), Some(call));
    assert_same(&rt, decode(&code, 8), None);
}

/// The operations of code with their addresses.
fn items(alloc: Global, code: &[u8]) -> Result<Vec<(usize, Op)>, AllocError> {
    disassemble(code).collect(alloc)
}

#[test]
fn disassembles(rt: HostRuntime) {
    let found = made(&rt, items(rt.alloc(), &[0x02, 0x0b, 0xff, 0x02]));
    let wanted = [(0, Op::Unit), (1, Op::Pop)];
    assert_same(&rt, found.as_slice(), wanted.as_slice());
}
