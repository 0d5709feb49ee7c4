//! Whole programs.
ghost use Rattle.std.specs.Prelude.{◌≡◌, ◌≤◌, [], IfErr, IfOk, IfSome, None, OnOk};
ghost use Rattle.grain.specs.Program.{declared_by, input_of};
ghost use Rattle.grain.specs.Verified.{IsVerified};
ghost use Rattle.grain_needs.specs.Capabilities.{AreLeast};
ghost use Rattle.rhai_compile.specs.Chunks.{BeginsChunk};
ghost use Rattle.rhai_compile.specs.Positions.{ArePositions, EachHasPlace, IsListedPosition, IsPositionAmong, IsPositionOf};
ghost use Rattle.rhai_emit.specs.Bodies.{bodies_places, body_places};
ghost use Rattle.rhai_emit.specs.Places.{both, here, script_places, syntax_places};
ghost use Rattle.rhai_emit.specs.Rules.{AddsPlaces};
ghost use Rattle.std.specs.List.{All};
ghost use Rattle.rhai_errors.specs.Places.{HasPlaces};

use crate::building::{finish, head_of};
use crate::coder::{Coder, expr};
use crate::prelude::with_prelude;
use grain::{Head, Op, Verified};
use grain_base::pos::Site;
use rhai_emit::{Body, Emitter, Options, PoolBuilder, global_constants, split_functions};
use rhai_errors::{CompileError, Lines, Problem, Thing};
use rhai_syntax::{Expr, MAX_DEPTH, Syntax, parse};
use std::alloc::Global;

/// How deep code nests: an expression of the source text is several of these levels.
const MAX_LEVELS: usize = 8 * MAX_DEPTH;

/// More lines than come before those of the prelude, so that these have no positions.
const BEHIND: u32 = 1 << 31;

/// Compiles a source text to a verified program. It can't import modules: [`compile_with`](crate::compile_with) does that. Each chunk declares its depth, and the program the least capabilities that suffice
/// for it ([`Program::declare_least_caps`](grain::Program::declare_least_caps)). The position of each error, and each position of the
/// program, lies in the text, unless there is none. It takes time linear in the length of the text, except that the cases of a switch
/// are read again for each arm with a condition. The code is assembled once, and verified once.
///
/// # Errors
/// The first thing that is wrong with the text, with its line and column. `OutOfMemory` has no place, nor has `TooMany` if it
/// is about the program as a whole. What it makes is never refused.
pub fn compile(alloc: Global, source: &str, options: &Options) -> Result<Verified, CompileError>
    ensures placed { IfErr result (HasPlaces source.now) }
    ensures positions { IfOk result (λ built. ArePositions (IsPositionOf source.now) built.program) }
    ensures verified { IfOk result IsVerified }
    ensures declared { IfOk result (λ built. declared_by built.program ≡ built.depths) }
    ensures least { IfOk result (λ built. AreLeast (input_of built.program) built.program.caps.0) }
{
    match compiled_text(alloc, source, options) {
        Ok(built) => Ok(built),
        Err(error) => Err(error.within(source)),
    }
}

/// Compiles a source text, with errors of whose places nothing is proved.
fn compiled_text(alloc: Global, source: &str, options: &Options) -> Result<Verified, CompileError>
    ensures positions { IfOk result (λ built. ArePositions (IsPositionOf source.now) built.program) }
    ensures verified { IfOk result IsVerified }
    ensures declared { IfOk result (λ built. declared_by built.program ≡ built.depths) }
    ensures least { IfOk result (λ built. AreLeast (input_of built.program) built.program.caps.0) }
{
    let syntax = parse(alloc, source)?;
    if let Some(import) = syntax.interface.imports.first() {
        return Err(CompileError::new(import.place, Problem::Unsupported(Thing::Import)));
    }
    let lines = Lines::new(alloc, source)?;
    let syntax = with_prelude(alloc, syntax, BEHIND)?;
    compile_syntax(alloc, options, syntax, &lines)
}

/// Compiles a syntax tree, as [`compile`] does a source text. The position of each operation is the place of a form of the tree,
/// if that lies in these lines and its numbers are at most 65,535, and none otherwise.
///
/// # Errors
/// As [`compile`]. Nothing is proved of places that errors name.
pub fn compile_syntax(
    alloc: Global,
    options: &Options,
    syntax: Syntax,
    lines: &Lines,
) -> Result<Verified, CompileError>
    ensures positions { IfOk result
        (λ built. ArePositions (IsListedPosition lines.now.lengths.items) built.program) }
    ensures placed { IfOk result
        (λ built. IfSome built.program.positions (All (IsPositionAmong (syntax_places syntax)))) }
    ensures located { IfOk result
        (λ built. EachHasPlace lines.now.lengths.items (syntax_places syntax) built.program) }
    ensures verified { IfOk result IsVerified }
    ensures declared { IfOk result (λ built. declared_by built.program ≡ built.depths) }
    ensures least { IfOk result (λ built. AreLeast (input_of built.program) built.program.caps.0) }
{
    let Syntax {
        names,
        texts,
        functions,
        body,
        interface,
    } = syntax;
    let (signatures, bodies) = split_functions(alloc, functions)?;
    let pools = PoolBuilder::new(alloc, names, texts);
    let constants = global_constants(alloc, &body, interface.constants)?;
    let mut emitter = Emitter::new(alloc, *options, pools, signatures, constants);
    let heads = chunks(&mut emitter, &body, &bodies)?;
    finish(emitter, heads, lines)
}

/// The code of the top level and of the functions, and what each function has except for its chunk. A closure comes after the
/// code that makes it, which captures its variables.
fn chunks(emitter: &mut Emitter, body: &[Expr], bodies: &[Body]) -> Result<Vec<Head>, CompileError>
    requires around { emitter.old.scope.around ≡ None }
    requires begun { BeginsChunk emitter.old.code }
    ensures closed { OnOk result (emitter.new.code.pending ≡ 0) }
    ensures ended { OnOk result (1 ≤ emitter.new.code.level.home) }
    ensures placed { OnOk result (AddsPlaces emitter.old emitter.new
        (both (script_places body.now) (bodies_places bodies.now))) }
{
    let mut heads = Vec::new(emitter.alloc);
    main_chunk(emitter, body)?;
    for turn in 0..bodies.len() {
        let index = bodies.len() - 1 - turn;
        heads.push(head_of(emitter, index)?)?;
        function_chunk(emitter, index, &bodies[index])?;
    }
    Ok(heads)
}

/// The top level. A checkpoint before each statement says which variables a fault in it keeps.
fn main_chunk(emitter: &mut Emitter, body: &[Expr]) -> Result<(), CompileError>
    requires around { emitter.old.scope.around ≡ None }
    requires begun { BeginsChunk emitter.old.code }
    ensures begun { OnOk result (BeginsChunk emitter.new.code) }
    ensures ended { OnOk result (1 ≤ emitter.new.code.level.home) }
    ensures placed { OnOk result (AddsPlaces emitter.old emitter.new (script_places body.now)) }
{
    let Some((last, others)) = body.split_last() else {
        emitter.put(Site::START, Op::Unit, 0, 1)?;
        return ended(emitter, Site::START);
    };
    for statement in others {
        emitter.put(statement.place, Op::Checkpoint, 0, 0)?;
        expr(emitter, statement, MAX_LEVELS, false)?;
    }
    emitter.put(last.place, Op::Checkpoint, 0, 0)?;
    expr(emitter, last, MAX_LEVELS, true)?;
    ended(emitter, last.place)
}

fn function_chunk(emitter: &mut Emitter, index: usize, body: &Body) -> Result<(), CompileError>
    requires { BeginsChunk emitter.old.code }
    ensures begun { OnOk result (BeginsChunk emitter.new.code) }
    ensures ended { OnOk result (1 ≤ emitter.new.code.level.home) }
    ensures placed { OnOk result (AddsPlaces emitter.old emitter.new (body_places body.now)) }
{
    emitter.begin_function(index)?;
    let place = body.place;
    let coder = Coder {
        depth: MAX_LEVELS,
        writes: expr,
    };
    coder.statements(emitter, place, &body.statements, true)?;
    ended(emitter, place)
}

/// The chunk ends with its value, and the next one begins.
fn ended(emitter: &mut Emitter, place: Site) -> Result<(), CompileError>
    requires floor { emitter.old.code.level.floor ≤ emitter.old.code.operands }
    requires closed { emitter.old.code.pending ≡ 0 }
    ensures begun { OnOk result (BeginsChunk emitter.new.code) }
    ensures ended { OnOk result (1 ≤ emitter.new.code.level.home) }
    ensures placed { OnOk result (AddsPlaces emitter.old emitter.new (here place)) }
{
    emitter.code.stop(place, Op::Return, 0, 0)?;
    emitter.code.end_chunk()
}
