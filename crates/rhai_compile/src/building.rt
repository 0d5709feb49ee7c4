//! From the code that was made to an accepted program.
ghost use Rattle.std.specs.Prelude.{◌≡◌, ◌+◌, ◌≤◌, IfOk, IfSome, OnOk, length, map, take};
ghost use Rattle.std.specs.List.{All};
ghost use Rattle.grain_code.specs.Assembly.{IsAssembly};
ghost use Rattle.grain_rules.specs.Accepted.{AreIndexed, IsAccepted};
ghost use Rattle.grain.specs.Build.{span_of};
ghost use Rattle.grain.specs.Program.{declared_by, input_of, listed_positions, setting_of};
ghost use Rattle.grain.specs.Tightened.{IsTightened};
ghost use Rattle.grain.specs.Verified.{IsVerified};
ghost use Rattle.grain_needs.specs.Capabilities.{AreLeast};
ghost use Rattle.grain_builder.specs.Finished.{IsComplete};
ghost use Rattle.rhai_compile.specs.Capabilities.{every_capability};
ghost use Rattle.rhai_compile.specs.Laid.{IsLaidOut};
ghost use Rattle.rhai_compile.specs.Positions.{AreApart, ArePlacedAt, ArePositions, IsListedPosition, IsLocated, IsPositionIn};

use crate::parts::parts;
use crate::placing::{keep_in_chains, kept_place};
use grain::{
    BuildError, Caps, Chunk, Cut, Flags, FnAccess, Head, Op, Parts, Position, Positions, Program,
    Verified, VerifyError, lay,
};
use grain_base::pos::Site;
use grain_builder::Assembled;
use grain_rules::check_code;
use rhai_emit::{Emitter, Options, Signature};
use rhai_errors::{CompileError, Lines, Problem, Thing};
use std::alloc::{AllocError, Global};

/// Builds the program of the code that was made. Only what lies in these lines has positions.
pub(crate) fn finish(
    emitter: Emitter,
    heads: Vec<Head>,
    lines: &Lines,
) -> Result<Verified, CompileError>
    requires closed { emitter.code.pending ≡ 0 }
    requires ended { 1 ≤ emitter.code.level.home }
    ensures positions { IfOk result
        (λ built. ArePositions (IsListedPosition lines.now.lengths.items) built.program) }
    ensures placed { IfOk result
        (λ built. IfSome built.program.positions (All (IsPositionIn emitter.code.places))) }
    ensures located { IfOk result
        (λ built. IsLocated lines.now.lengths.items emitter.code.places built.program) }
    ensures verified { IfOk result IsVerified }
    ensures declared { IfOk result (λ built. declared_by built.program ≡ built.depths) }
    ensures least { IfOk result (λ built. AreLeast (input_of built.program) built.program.caps.0) }
{
    let Emitter {
        alloc,
        options,
        code,
        pools,
        ..
    } = emitter;
    let made = code.finish()?;
    complete(alloc, options, pools, (made, heads), lines)
}

/// Builds the program of operations, and of what functions have except for their chunks.
fn complete(
    alloc: Global,
    options: Options,
    pools: rhai_emit::PoolBuilder,
    made: (Assembled, Vec<Head>),
    lines: &Lines,
) -> Result<Verified, CompileError>
    requires { IsComplete made.0 }
    ensures positions { IfOk result
        (λ built. ArePositions (IsListedPosition lines.now.lengths.items) built.program) }
    ensures placed { IfOk result
        (λ built. IfSome built.program.positions (All (IsPositionIn made.0.places.items))) }
    ensures located { IfOk result
        (λ built. IsLocated lines.now.lengths.items made.0.places.items built.program) }
    ensures verified { IfOk result IsVerified }
    ensures declared { IfOk result (λ built. declared_by built.program ≡ built.depths) }
    ensures least { IfOk result (λ built. AreLeast (input_of built.program) built.program.caps.0) }
{
    let (assembled, heads) = made;
    let Assembled {
        ops,
        places,
        mut chains,
        tables,
        cuts,
    } = assembled;
    keep_in_chains(&mut chains, lines);
    let parts = parts(pools, options, chains, &tables)?;
    let (cuts, heads) = paired(alloc, &cuts, heads)?;
    let (program, offsets) = laid(alloc, &ops, &cuts, heads, parts)?;
    let program = positioned(alloc, program, &offsets, &places, lines)?;
    verified(program)
}

/// The chunks as cuts of the operations, and for each but the first what its function has besides.
fn paired(
    alloc: Global,
    chunks: &[Chunk],
    heads: Vec<Head>,
) -> Result<(Vec<Cut>, Vec<Head>), AllocError>
    requires { 1 ≤ length chunks.now }
    ensures count { IfOk result (λ p. length p.0.items ≡ length p.1.items + 1) }
    ensures cuts { IfOk result
        (λ p. map span_of p.0.items ≡ take (length p.1.items + 1) chunks.now) }
{
    let mut heads = heads;
    heads.truncate(chunks.len() - 1);
    let cuts = cuts_of(alloc, &chunks[..heads.len() + 1])?;
    Ok((cuts, heads))
}

/// The chunks as cuts of the operations.
fn cuts_of(alloc: Global, chunks: &[Chunk]) -> Result<Vec<Cut>, AllocError>
    ensures { IfOk result (λ v. map span_of v.items ≡ chunks.now) }
{
    let mut cuts = Vec::new(alloc);
    for chunk in chunks {
        cuts.push(Cut {
            first: chunk.entry() as usize,
            end: chunk.end() as usize,
            max_stack: chunk.max_stack(),
        })?;
    }
    Ok(cuts)
}

/// The program that is assembled of operations, with every capability, and where each operation begins in its code.
fn laid(
    alloc: Global,
    ops: &[Op],
    cuts: &[Cut],
    heads: Vec<Head>,
    parts: Parts,
) -> Result<(Program, Vec<u32>), CompileError>
    requires { length cuts.now ≡ length heads.items + 1 }
    ensures laid { IfOk result (λ l. IsLaidOut ops.now cuts.now heads.items parts l.0) }
    ensures offsets { IfOk result (λ l. IsAssembly ops.now l.0.code l.1.items) }
{
    match lay(alloc, all_capabilities(), ops, cuts, heads, parts) {
        Ok((program, offsets)) => {
            check_indices(&program)?;
            Ok((program, offsets))
        }
        Err(BuildError::OutOfMemory) => Err(CompileError::new(Site::NONE, Problem::OutOfMemory)),
        Err(_) => Err(CompileError::new(Site::NONE, Problem::TooMany(Thing::Operations))),
    }
}

/// The capabilities that a program is assembled with: all of them. It declares the least that suffice in the end.
fn all_capabilities() -> Caps
    ensures { result.0 ≡ every_capability }
{
    Caps::all()
}

/// Tests that each index of the code leads into its pool, as it does for each syntax tree that the parser makes.
fn check_indices(program: &Program) -> Result<(), CompileError>
    ensures { OnOk result (AreIndexed (setting_of program.now) program.now.code) }
{
    match check_code(&program.pools(), program.code()) {
        Ok(()) => Ok(()),
        Err(_) => Err(CompileError::new(Site::NONE, Problem::TooMany(Thing::Names))),
    }
}

/// The program with a position for each byte of the code. Only the first byte of an operation has one, and only if its place lies
/// in one of the lines.
fn positioned(
    alloc: Global,
    mut program: Program,
    offsets: &[u32],
    places: &[Site],
    lines: &Lines,
) -> Result<Program, AllocError>
    requires { AreApart (length places.now) (length program.code) offsets.now }
    ensures rest { IfOk result (λ p. p ≡ record program { positions = p.positions }) }
    ensures listed { IfOk result
        (λ p. IfSome p.positions (All (IsListedPosition lines.now.lengths.items))) }
    ensures placed { IfOk result (λ p. IfSome p.positions (All (IsPositionIn places.now))) }
    ensures located { IfOk result
        (λ p. ArePlacedAt lines.now.lengths.items places.now offsets.now p.positions) }
{
    let len = program.code().len();
    program.set_positions(dense(alloc, len, offsets, places, lines)?);
    Ok(program)
}

/// The positions of the bytes of the code: at each offset that of its place, if that lies in one of the lines.
fn dense(
    alloc: Global,
    len: usize,
    offsets: &[u32],
    places: &[Site],
    lines: &Lines,
) -> Result<Positions, AllocError>
    requires { AreApart (length places.now) len offsets.now }
    ensures listed { IfOk result (λ p. IfSome (listed_positions p)
        (All (IsListedPosition lines.now.lengths.items))) }
    ensures placed { IfOk result (λ p. IfSome (listed_positions p) (All (IsPositionIn places.now))) }
    ensures located { IfOk result (λ p. ArePlacedAt lines.now.lengths.items places.now offsets.now
        (listed_positions p)) }
{
    let mut positions = vec![in alloc; Position::NONE; len]?;
    for (index, place) in places.iter().enumerate() {
        positions[offsets[index] as usize] = kept_place(*place, lines);
    }
    Ok(Positions::dense(positions))
}

/// The program, verified. It declares no more of the host than it needs: the least capabilities, and of each chunk its depth.
fn verified(mut program: Program) -> Result<Verified, CompileError>
    requires { IsAccepted (input_of program) }
    ensures positions { IfOk result (λ built. built.program.positions ≡ program.positions) }
    ensures chains { IfOk result (λ built. built.program.chains ≡ program.chains) }
    ensures code { IfOk result (λ built. built.program.code ≡ program.code) }
    ensures verified { IfOk result IsVerified }
    ensures declared { IfOk result (λ built. declared_by built.program ≡ built.depths) }
    ensures least { IfOk result (λ built. AreLeast (input_of built.program) built.program.caps.0) }
{
    program.declare_least_caps();
    match program.into_verified() {
        Ok(verified) => Ok(tight(verified)),
        Err(rejected) => match rejected.refusal.error {
            VerifyError::OutOfMemory => { Err(CompileError::new(Site::NONE, Problem::OutOfMemory)) }
            _ => unreachable!(),
        },
    }
}

/// The program, each of whose chunks declares its depth.
fn tight(mut verified: Verified) -> Verified
    ensures tightened { IsTightened verified.program result.program }
    ensures verified { IsVerified result }
    ensures declared { declared_by result.program ≡ result.depths }
{
    verified.tighten();
    // The prover learns that what is verified stays so.
    let _depths = verified.depths();
    verified
}

/// What a function has except for its chunk.
pub(crate) fn head_of(emitter: &Emitter, index: usize) -> Result<Head, CompileError> {
    match emitter.signatures.get(index) {
        Some(signature) => Ok(head_with(emitter.alloc, signature)?),
        // Each function has a signature, which no clause says. A function under another name would be a wrong program.
        None => Err(CompileError::new(Site::NONE, Problem::Unsupported(Thing::Function))),
    }
}

/// What a function with this signature has except for its chunk.
fn head_with(alloc: Global, signature: &Signature) -> Result<Head, AllocError> {
    let mut params = Vec::new(alloc);
    for local in &signature.captured {
        params.push(local.name)?;
    }
    for param in &signature.params {
        params.push(param.name)?;
    }
    let access = if signature.is_private {
        FnAccess::Private
    } else {
        FnAccess::Public
    };
    Ok(Head {
        name: signature.name,
        params,
        access,
        this_type: signature.this_type,
    })
}
