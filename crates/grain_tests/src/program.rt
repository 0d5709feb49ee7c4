use crate::samples::{
    assert_same, function, is_sidecar, made, parts, strip_and_attach, tightens, verifies,
};
use grain::{
    Caps, Chain, Chunk, Dynamic, Flags, Function, Lookups, Parts, Position, Positions, Program,
    Root, Step, StepFlags, Tail, Token, verify,
};
use std::alloc::Global;
use std::test::Fail;

/// const 0; call `double` with it; take `.len` of what it gave; return
const MAIN: &[u8] = &[
    0x01, 0, 0, //
    0x0f, 0, 0, 1, //
    0x16, 0, 0, //
    0x13,
];

/// local 0; local 0; call `+` with both, which is operator 0; return
const DOUBLE: &[u8] = &[
    0x05, 0, 0, //
    0x05, 0, 0, //
    0x10, 1, 0, 2, 0, 0, //
    0x13,
];

/// `this`; return
const DOUBLE_THIS: &[u8] = &[0x39, 0x13];

/// `.len` of a temporary value.
fn length(alloc: Global) -> Result<Chain, Fail> {
    let step = Step::Property {
        name: 3,
        getter: 4,
        setter: 5,
        flags: StepFlags::empty(),
        pos: Position::new(1, 11),
    };
    Ok(Chain {
        root: Root::Temporary,
        steps: vec![in alloc; step]?,
        tail: Tail::Read,
        operands: 0,
    })
}

/// The code is one list of bytes, of which each chunk is a part.
fn code(alloc: Global) -> Result<Vec<u8>, Fail> {
    let mut code = MAIN.to_vec(alloc)?;
    code.extend_from_slice(DOUBLE)?;
    code.extend_from_slice(DOUBLE_THIS)?;
    Ok(code)
}

/// The position of the call, which stands at 3.
fn positions(alloc: Global) -> Result<Positions, Fail> {
    let mut positions = [Position::NONE; 26];
    positions[3] = Position::new(1, 1);
    Ok(Positions::dense(positions.to_vec(alloc)?))
}

fn functions(alloc: Global) -> Result<Vec<Function>, Fail> {
    let double = function(alloc, 0, None, 1, Chunk::new(11, 24, 8))?;
    let double_this = function(alloc, 0, Some(2), 0, Chunk::new(24, 26, 8))?;
    Ok(vec![in alloc; double, double_this]?)
}

fn fill(alloc: Global, parts: &mut Parts) -> Result<(), Fail> {
    parts.positions = positions(alloc)?;
    parts.consts.push(Dynamic::Int(21))?;
    parts.tokens.push(Token::Plus)?;
    parts.chains.push(length(alloc)?)?;
    Ok(())
}

fn pools(alloc: Global) -> Result<Parts, Fail> {
    let names = ["double", "+", "i64", "len", "get$len", "set$len"];
    let mut parts = parts(alloc, &names)?;
    fill(alloc, &mut parts)?;
    Ok(parts)
}

/// What a compiler would hand over of
///     double(21).len
///     fn double(x) { x + x }
///     fn i64.double() { this }
/// if it didn't know how many operands are needed.
fn compiled(alloc: Global) -> Result<Program, Fail> {
    let caps = Caps::FUNCTION.union(Caps::THIS).union(Caps::PROPERTY);
    let main = Chunk::new(0, 11, 8);
    let (code, functions) = (code(alloc)?, functions(alloc)?);
    Ok(Program::new(alloc, caps, code, main, functions, pools(alloc)?))
}

/// Where a function begins that was found.
fn entry(function: Option<&Function>) -> Option<u32> {
    Some(function?.chunk.entry())
}

/// A host calls functions by name, and a method by the type of its receiver: where these begin, and the index of a name.
fn entries(program: &Program) -> [Option<u32>; 4] {
    [
        entry(program.function_named("double", 1)),
        entry(program.function(0, 1)),
        entry(program.method(0, 0, "i64")),
        program.function_name_index("double", 1),
    ]
}

/// A machine looks up what indices lead to: a name, a token, a chain, and a chain that isn't there.
fn looked_up(program: &Program) -> [bool; 4] {
    [
        program.name(3) == Some("len"),
        program.token(0) == Some(&Token::Plus),
        program.chain(0).is_some(),
        program.chain(1).is_some(),
    ]
}

/// Whether `verify` answers these numbers, as a host calls it that has the parts of the program.
fn is_verified(alloc: Global, program: &Program, numbers: &[u16]) -> bool {
    let (caps, consts, code) = (program.caps(), program.consts(), program.code());
    let (double, double_this) = (Chunk::new(11, 24, 8), Chunk::new(24, 26, 8));
    let chunks = [program.main(), double, double_this];
    match verify(
        alloc,
        caps,
        consts,
        code,
        program.functions(),
        &chunks,
        &program.pools(),
    ) {
        Ok(answer) => answer.as_slice() == numbers,
        Err(_) => false,
    }
}

#[test]
fn programs_are_looked_into(rt: HostRuntime) {
    let program = made(&rt, compiled(rt.alloc()));
    let wanted = [Some(11), Some(11), Some(24), Some(0)];
    assert_same(&rt, entries(&program), wanted);
    assert_same(&rt, looked_up(&program), [true, true, true, false]);

    // No run of the top level stacks more than one operand, and none of the first function more than two.
    let verified = is_verified(rt.alloc(), &program, &[1, 2, 1]);
    assert_same(
        &rt,
        (verified, verifies(&program, &[1, 2, 1])),
        (true, true),
    );
}

/// The position of the call, and that of the property.
fn places(program: &Program) -> (Position, Option<Position>) {
    let property = match program.chains() {
        [chain] => chain.positions().next(),
        _ => None,
    };
    (program.position(3), property)
}

#[test]
fn positions_go_apart_and_come_back(rt: HostRuntime) {
    let mut program = made(&rt, compiled(rt.alloc()));

    // Positions are shipped apart. Whoever looks into a crash gives them back.
    let is_written = is_sidecar(&program, &[1, 3, 1, 1], &[1, 1, 11]);
    assert_same(&rt, is_written, true);
    assert_same(&rt, strip_and_attach(&mut program), true);
    let wanted = (Position::new(1, 1), Some(Position::new(1, 11)));
    assert_same(&rt, places(&program), wanted);
}

/// Tightens the program, and prints it, whose source is called so.
fn shown(alloc: Global) -> Result<String, Fail> {
    let source = String::from_str(alloc, "sums.rhai")?;
    let mut program = compiled(alloc)?;
    let _ = tightens(program.set_source(source));
    Ok(format!(in alloc; "{program:?}")?)
}

/// What is printed is what the top level declares, though a function declares more.
#[test]
fn programs_are_printed_by_their_counts(rt: HostRuntime) {
    assert_same(
        &rt,
        made(&rt, shown(rt.alloc())).as_str(),
        "Program { source: Some(\"sums.rhai\"), bytes: 26, max_stack: 1, consts: 1, names: 6, residuals: 0, compiled_fns: 2, positions: true }",
    );
}

mod texts;
