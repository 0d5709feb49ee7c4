use super::*;
use grain::{AssignOp, DisassembleError, Op, Switch, SwitchRange};

/// Of an instruction its address, its position and its text.
fn write_op(out: &mut String, program: &Program, at: usize, op: &Op) -> Result<(), Fail> {
    let text = op.disassemble(*out.allocator(), program)?;
    writeln!(out, "{at} {} {text}", program.position(at))?;
    Ok(())
}

/// Each instruction of the chunk.
fn write_chunk(out: &mut String, program: &Program, chunk: &Chunk) -> Result<(), Fail> {
    for (at, op) in chunk.ops(program.code()) {
        write_op(out, program, at, &op)?;
    }
    Ok(())
}

/// The function's head, and each instruction of its chunk.
fn write_function(out: &mut String, program: &Program, function: &Function) -> Result<(), Fail> {
    let head = function.disassemble(*out.allocator(), program)?;
    writeln!(out, "{head}")?;
    write_chunk(out, program, &function.chunk)
}

/// The whole program, chunk by chunk.
fn written(alloc: Global, program: &Program) -> Result<String, Fail> {
    let mut out = String::new(alloc);
    write_chunk(&mut out, program, &program.main())?;
    for function in program.functions() {
        write_function(&mut out, program, function)?;
    }
    Ok(out)
}

fn written_out(alloc: Global) -> Result<String, Fail> {
    written(alloc, &compiled(alloc)?)
}

const WANTED: &str = "\
0 none Const(0) = 21
3 1:1 Call { name: 0, argc: 1, op: None, capture_parent_scope: false } : double
7 none Chain(0, 0 total operands): Temporary <temp value> .len\u{20}
10 none Return
double(double)
11 none LoadLocal(0)
14 none LoadLocal(0)
17 none Call { name: 1, argc: 2, op: Some(0), capture_parent_scope: false } : + (Plus)
23 none Return
i64!double()
24 none LoadThis
25 none Return
";

#[test]
fn programs_are_written_out(rt: HostRuntime) {
    let out = made(&rt, written_out(rt.alloc()));
    assert_same(&rt, out.as_str(), WANTED);
}

/// Adds a text as a line.
fn add(out: &mut String, text: Result<String, DisassembleError>) -> Result<(), Fail> {
    let text = text?;
    writeln!(out, "{text}")?;
    Ok(())
}

/// The program's chain, its step, and a tail that assigns.
fn write_chain(out: &mut String, program: &Program) -> Result<(), Fail> {
    let (alloc, tail) = (*out.allocator(), Tail::Assign { op: None });
    for chain in program.chains() {
        add(out, chain.disassemble(alloc, program))?;
        for step in &chain.steps {
            add(out, step.disassemble(alloc, program))?;
        }
    }
    add(out, tail.disassemble(alloc, program))
}

/// An op-assignment by the name of the operator.
fn plus() -> AssignOp {
    AssignOp {
        op_assign: Token::PlusAssign,
        op_assign_name: 1,
        op: Token::Plus,
        op_name: 1,
    }
}

fn range_text(alloc: Global) -> Result<String, DisassembleError> {
    let range = SwitchRange {
        from: 5,
        to: 8,
        inclusive: false,
        target: 20,
    };
    Ok(range.disassemble(alloc)?)
}

/// An op-assignment, a range, and a switch that has neither cases nor ranges.
fn write_others(out: &mut String, program: &Program) -> Result<(), Fail> {
    let alloc = *out.allocator();
    let switch = Switch {
        cases: None,
        ranges: Vec::new(alloc),
        default: 3,
    };
    add(out, switch.disassemble(alloc, program))?;
    add(out, plus().disassemble(alloc, program))?;
    add(out, range_text(alloc))
}

fn parts_written(alloc: Global, program: &Program) -> Result<String, Fail> {
    let mut out = String::new(alloc);
    write_chain(&mut out, program)?;
    write_others(&mut out, program)?;
    Ok(out)
}

fn parts_of_program(alloc: Global) -> Result<String, Fail> {
    parts_written(alloc, &compiled(alloc)?)
}

const PARTS: &str = "\
Temporary <temp value> .len\u{20}
.len
=
{ default => 3 }
+ (PlusAssign) / + (Plus)
range 5..8 => 20
";

#[test]
fn parts_are_written_out(rt: HostRuntime) {
    let out = made(&rt, parts_of_program(rt.alloc()));
    assert_same(&rt, out.as_str(), PARTS);
}
