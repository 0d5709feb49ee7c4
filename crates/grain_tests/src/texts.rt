//! What derived printing writes, and the text of a value that no file keeps.

use crate::samples::{assert_same, chain, made};
use grain_base::pos::Site;
use grain_base::{Dynamic, FnAccess, HostValue, Token, varint};
use grain_bytecode::sites::StreamError;
use grain_bytecode::{
    AssembleError, AssignOp, BadTable, Chunk, DisassembleError, Function, StringsError, StripError,
    SwitchRange, TableError,
};
use grain_rules::VerifyError;
use std::alloc::{AllocError, Global};
use std::fmt::Debug;
use std::test::Fail;

/// Adds a value as a line.
fn add<T: Debug>(out: &mut String, value: &T) -> Result<(), Fail> {
    writeln!(out, "{value:?}")?;
    Ok(())
}

/// One of each kind of errors.
fn add_errors(out: &mut String) -> Result<(), Fail> {
    add(out, &varint::Error::Overflow)?;
    add(out, &AssembleError::ChunkTooLarge { bytes: 7 })?;
    add(out, &StripError::AddressTooWide)?;
    add(out, &TableError::ChainCount { sites: 4, slots: 5 })?;
    add(out, &StreamError::TrailingBytes { count: 12 })?;
    add(out, &BadTable::NotUtf8 { at: 1 })?;
    add(out, &StringsError::TooLong)?;
    add(out, &DisassembleError::OutOfMemory)?;
    add(out, &VerifyError::HandlerUnderflow { at: 3 })
}

fn plus() -> AssignOp {
    AssignOp {
        op_assign: Token::PlusAssign,
        op_assign_name: 1,
        op: Token::Plus,
        op_name: 2,
    }
}

const RANGE: SwitchRange = SwitchRange {
    from: 0,
    to: 2,
    inclusive: true,
    target: 1,
};

fn function(alloc: Global) -> Result<Function, AllocError> {
    Ok(Function {
        name: 0,
        params: vec![in alloc; 1]?,
        access: FnAccess::Private,
        this_type: None,
        chunk: Chunk::new(0, 2, 1),
    })
}

fn operator(alloc: Global) -> Result<Token, AllocError> {
    Ok(Token::Custom(String::from_str(alloc, "<=>")?))
}

/// A value of the host.
fn host(alloc: Global) -> Result<Dynamic, AllocError> {
    Ok(Dynamic::Host(HostValue {
        type_name: String::from_str(alloc, "Timer")?,
        id: 1,
    }))
}

/// A value of the host in an array, by its text.
fn add_value(alloc: Global, out: &mut String) -> Result<(), Fail> {
    let value = Dynamic::Array(vec![in alloc; host(alloc)?]?);
    writeln!(out, "{value}")?;
    Ok(())
}

/// Parts of programs.
fn add_parts(alloc: Global, out: &mut String) -> Result<(), Fail> {
    add(out, &plus())?;
    add(out, &RANGE)?;
    add(out, &Site { line: 1, column: 5 })?;
    add(out, &operator(alloc)?)?;
    add(out, &function(alloc)?)?;
    add(out, &chain(alloc)?)
}

fn lines(alloc: Global) -> Result<String, Fail> {
    let mut out = String::new(alloc);
    add_errors(&mut out)?;
    add_parts(alloc, &mut out)?;
    add_value(alloc, &mut out)?;
    Ok(out)
}

const LINES: &str = "\
Overflow
ChunkTooLarge { bytes: 7 }
AddressTooWide
ChainCount { sites: 4, slots: 5 }
TrailingBytes { count: 12 }
NotUtf8 { at: 1 }
TooLong
OutOfMemory
HandlerUnderflow { at: 3 }
AssignOp { op_assign: PlusAssign, op_assign_name: 1, op: Plus, op_name: 2 }
SwitchRange { from: 0, to: 2, inclusive: true, target: 1 }
Site { line: 1, column: 5 }
Custom(\"<=>\")
Function { name: 0, params: [1], access: Private, this_type: None, chunk: Chunk { entry: 0, end: 2, max_stack: 1 } }
Chain { root: Named { name: 0, pos: 1:1 }, steps: [Index { operand: 0, flags: StepFlags(0), pos: 1:3, bracket: 1:2 }, Property { name: 1, getter: 2, setter: 3, flags: StepFlags(1), pos: 1:6 }], tail: Read, operands: 1 }
[<Timer>]
";

#[test]
fn values_are_printed(rt: HostRuntime) {
    assert_same(&rt, made(&rt, lines(rt.alloc())).as_str(), LINES);
}
