//! The verifier.
ghost use Rattle.std.specs.Prelude.{◌≡◌, ℕ, IfErr, IfOk, IfSome, IsTrue, List, OnOk};
ghost use Rattle.std.specs.List.{All, AllZip};
ghost use Rattle.grain_code.specs.Split.{Split};
ghost use Rattle.grain_rules.specs.Accepted.{AreIndexed, ChunkPasses, CodePasses, input};
ghost use Rattle.grain_rules.specs.Code.{coded};
ghost use Rattle.grain_rules.specs.Flaw.{CodeFlaw, Flaw};
ghost use Rattle.grain_verify.specs.Meter.{IsMetered};
ghost use Rattle.grain_verify.specs.Progress.{AreMeteredChunks};
ghost use Rattle.grain_verify.specs.Refusals.{IsChunkRefusal, IsLocatedRefusal, without_chunk};
ghost use Rattle.grain_rules.specs.Setting.{with_caps};
ghost use Rattle.grain_rules.specs.Typing.{HasTyping, IsDeepest};
ghost use Rattle.grain_rules.specs.Verdict.{IsVerdict, ReachesChunks};
ghost use Rattle.grain_verify.specs.Walk.{IsReady};

use crate::asked::Asked;
use crate::chunk::verify_chunk;
use crate::lists::Lists;
use crate::meter::Meter;
use crate::refusal::Refusal;
use crate::scratch::Scratch;
use crate::walk::{Prepared, Traversal};
use grain_base::{Caps, Dynamic};
use grain_code::{Chunk, Function, Growing, Starts};
use grain_rules::{
    Candidate, Pools, Read, VerifyError, check_code, check_constants, check_functions, start_code,
};
use std::alloc::{AllocError, Global};
use std::mem;

/// Code of fewer bytes is read twice, for its indices and for its starts: to read it once would take longer.
const SHORT_CODE: usize = 64;

/// Tests the code and its indices while its starts are written down, if their memory suffices, or `None`. It is compiled
/// apart, so that the walk has the registers that it would have without.
#[inline(never)]
fn start_within<P: Read>(
    alloc: Global,
    starts: &mut Starts,
    code: &[u8],
    pools: &P,
) -> Option<Result<(), VerifyError>>
    ensures ok { IfSome result (λ tested. OnOk tested
        ((caps : ℕ) → AreIndexed (with_caps caps (P.facts pools.now)) code.now)) }
    ensures known { IfSome result (λ tested. OnOk tested
        (Split code.now starts.new.starts)) }
    ensures err { IfSome result (λ tested. IfErr tested
        (λ e. (caps : ℕ) → CodeFlaw (with_caps caps (P.facts pools.now)) code.now e)) }
{
    let room = mem::replace(starts, Starts::none(alloc));
    match Growing::within(room, code.len()) {
        Ok(growing) => {
            let started = start_code(pools, code, growing);
            *starts = started.starts;
            Some(started.tested)
        }
        Err(room) => {
            *starts = room;
            None
        }
    }
}

/// Tests the code and its indices, and says whether the starts are those of the code now.
fn check_code_within<P: Read>(
    alloc: Global,
    starts: &mut Starts,
    code: &[u8],
    pools: &P,
) -> Result<bool, VerifyError>
    ensures ok { OnOk result
        ((caps : ℕ) → AreIndexed (with_caps caps (P.facts pools.now)) code.now) }
    ensures known { IfOk result (λ known. IsTrue known → Split code.now starts.new.starts) }
    ensures err { IfErr result
        (λ e. (caps : ℕ) → CodeFlaw (with_caps caps (P.facts pools.now)) code.now e) }
{
    if code.len() >= SHORT_CODE {
        match start_within(alloc, starts, code, pools) {
            Some(Ok(())) => return Ok(true),
            Some(Err(error)) => return Err(error),
            None => {}
        }
    }
    match check_code(pools, code) {
        Ok(()) => Ok(false),
        Err(error) => Err(error),
    }
}

/// The tests before the chunks: of the constants, of the code and its indices, and of the functions. They take no
/// memory. The result says whether the starts are those of the code then: it makes them so if the code isn't short and they
/// have room for it.
///
/// # Errors
/// The first of them that fails, by its name.
fn check_before_chunks<P: Read>(
    alloc: Global,
    starts: &mut Starts,
    candidate: &Candidate<'_, P>,
) -> Result<bool, VerifyError>
    ensures ok { OnOk result (ReachesChunks candidate.now) }
    ensures known { IfOk result (λ known. IsTrue known
        → Split candidate.now.code.bytes starts.new.starts) }
    ensures refused { ReachesChunks candidate.now → IfErr result (λ _. ⊥) }
    ensures flaws { IfErr result (Flaw candidate.now) }
{
    check_constants(candidate.caps, candidate.consts)?;
    let is_known = check_code_within(alloc, starts, candidate.code, candidate.pools)?;
    check_functions(candidate.caps, candidate.functions)?;
    Ok(is_known)
}

/// Writes down the deepest operand stack of each chunk, or says why the first is refused that is.
#[inline(always)]
fn walk_each<P: Read>(
    prepared: &Prepared<'_, P>,
    chunks: &[Chunk],
    lists: &mut Lists,
    traversal: &mut Traversal,
    asked: &mut Asked,
    deepest: &mut Vec<u16>,
    meter: &mut Meter,
) -> Result<(), Refusal>
    requires { IsReady prepared.now }
    ensures passes { OnOk result (All (ChunkPasses prepared.now.code) chunks.now) }
    ensures typed { OnOk result (AllZip (HasTyping (coded prepared.now.code))
        chunks.now deepest.new.items) }
    ensures deepest { OnOk result (AllZip (IsDeepest (coded prepared.now.code))
        chunks.now deepest.new.items) }
    ensures accepts { All (ChunkPasses prepared.now.code) chunks.now
        → IfErr result (λ r. r.error ≡ VerifyError.OutOfMemory) }
    ensures flaws { IfErr result (IsChunkRefusal prepared.now.code chunks.now) }
    ensures metered { AreMeteredChunks prepared.now.code prepared.now.starts
        chunks.now meter.old meter.new result }
{
    prepared.make_room(traversal)?;
    asked.forget();
    deepest.clear();
    deepest.try_reserve_exact(chunks.len())?;
    for (index, chunk) in chunks.iter().enumerate() {
        match verify_chunk(prepared, chunk, lists, traversal, asked, meter) {
            Ok(needed) => deepest.push_reserved(needed),
            Err(error) => return Err(Refusal::of_chunk(index, error)),
        }
    }
    Ok(())
}

/// Writes down the deepest operand stack of each chunk, or says why the first is refused that is.
fn walk_chunks<P: Read>(
    alloc: Global,
    prepared: &Prepared<'_, P>,
    chunks: &[Chunk],
    scratch: &mut Scratch,
    meter: &mut Meter,
) -> Result<(), Refusal>
    requires { IsReady prepared.now }
    ensures passes { OnOk result (All (ChunkPasses prepared.now.code) chunks.now) }
    ensures typed { OnOk result (AllZip (HasTyping (coded prepared.now.code))
        chunks.now scratch.new.deepest.items) }
    ensures deepest { OnOk result (AllZip (IsDeepest (coded prepared.now.code))
        chunks.now scratch.new.deepest.items) }
    ensures accepts { All (ChunkPasses prepared.now.code) chunks.now
        → IfErr result (λ r. r.error ≡ VerifyError.OutOfMemory) }
    ensures flaws { IfErr result (IsChunkRefusal prepared.now.code chunks.now) }
    ensures metered { AreMeteredChunks prepared.now.code prepared.now.starts
        chunks.now meter.old meter.new result }
{
    // Walks write into variables of this call, and not through the scratch.
    let mut traversal = mem::replace(&mut scratch.traversal, Traversal::new(alloc));
    let mut lists = mem::replace(&mut scratch.lists, Lists::new(alloc));
    let deepest = &mut scratch.deepest;
    let asked = &mut scratch.asked;
    let walked = walk_each(
        prepared,
        chunks,
        &mut lists,
        &mut traversal,
        asked,
        deepest,
        meter,
    );
    scratch.traversal = traversal;
    scratch.lists = lists;
    walked
}

/// The starts of code that is whole instructions: those that are known, or else in their memory.
///
/// # Errors
/// [`AllocError`] if the memory was refused.
#[inline(always)]
fn starts_of(room: Starts, is_known: bool, code: &[u8]) -> Result<Starts, AllocError>
    requires { IsTrue is_known → Split code.now room.starts }
    ensures { (starts : List ℕ) → Split code.now starts
        → IfOk result (λ s. s.starts ≡ starts) }
{
    if is_known {
        Ok(room)
    } else {
        room.refill(code)
    }
}

/// The deepest operand stack of each chunk of code that is whole instructions, or why the first is refused that is.
/// `is_known` says that the scratch has the starts of the code.
fn verify_chunks<P: Read>(
    alloc: Global,
    scratch: &mut Scratch,
    is_known: bool,
    candidate: &Candidate<'_, P>,
    meter: &mut Meter,
) -> Result<Vec<u16>, Refusal>
    requires indexed { CodePasses candidate.now }
    requires known { IsTrue is_known → Split candidate.now.code.bytes scratch.old.starts.starts }
    ensures passes { OnOk result (All (ChunkPasses candidate.now.code) candidate.now.chunks) }
    ensures typed { IfOk result (λ v. AllZip (HasTyping (coded candidate.now.code))
        candidate.now.chunks v.items) }
    ensures deepest { IfOk result (λ v. AllZip (IsDeepest (coded candidate.now.code))
        candidate.now.chunks v.items) }
    ensures accepts { All (ChunkPasses candidate.now.code) candidate.now.chunks
        → IfErr result (λ r. r.error ≡ VerifyError.OutOfMemory) }
    ensures flaws { IfErr result (IsChunkRefusal candidate.now.code candidate.now.chunks) }
    ensures metered { (starts : List ℕ) → Split candidate.now.code.bytes starts
        → AreMeteredChunks candidate.now.code starts candidate.now.chunks meter.old meter.new
        result }
{
    let Candidate {
        caps,
        code,
        chunks,
        pools,
        ..
    } = candidate;
    let room = mem::replace(&mut scratch.starts, Starts::none(alloc));
    let starts = starts_of(room, is_known, code)?;
    let prepared = Prepared::new(*caps, code, *pools, starts);
    let walked = walk_chunks(alloc, &prepared, chunks, scratch, meter);
    scratch.starts = prepared.into_starts();
    walked?;
    Ok(mem::replace(&mut scratch.deepest, Vec::new(alloc)))
}

/// The greatest operand count that any run of each chunk reaches, chunk by chunk, or why the program is refused.
///
/// What is accepted may be run in place on stacks of as many operands: no run lacks an operand, an iterator or a handler,
/// or leaves the starts of the chunk's instructions. The promise and the numbers are those of *kept* runs, in which a
/// fault that a handler catches finds at least what was there when the handler was armed. So a machine has to step as
/// docs/FORMAT.md says ("Verification"), and at the eight quiet instructions (`Unit`, `Bool`, `Pop`, `Rotate`,
/// `PopHandler`, `IterDrop`, `UnwindTo`, `Return`) it has to fault never, or only with at least that much left; at all
/// others accepted code sees to it.
///
/// The constants are tested first, then every instruction of the code and its indices, then whether functions are
/// allowed, and then the chunks in order (docs/FORMAT.md, "Verification"). The first three take no memory. `consts` are
/// the constants themselves, while `pools.consts` bounds the indices that name one. What it costs is in docs/COSTS.md.
///
/// # Errors
/// The first test that fails, by its name; within a chunk one of its flaws. `OutOfMemory` if an allocation failed, which
/// comes only if the tests before the chunks pass.
pub fn verify(
    alloc: Global,
    caps: Caps,
    consts: &[Dynamic],
    code: &[u8],
    functions: &[Function],
    chunks: &[Chunk],
    pools: &Pools<'_>,
) -> Result<Vec<u16>, VerifyError>
    // The headline.
    ensures verdict { IsVerdict
        (input caps consts.now code.now functions.now chunks.now pools.now) result }

    // Memory is taken only if the tests before the chunks pass.
    ensures memory { IfErr result (λ e. e ≡ VerifyError.OutOfMemory → ReachesChunks
        (input caps consts.now code.now functions.now chunks.now pools.now)) }
{
    let mut meter = Meter::new();
    verify_metered(
        alloc, caps, consts, code, functions, chunks, pools, &mut meter,
    )
}

/// Verifies as [`verify`] does, with the same promise of kept runs, which requires the same of a machine, and counts the
/// instructions that the walks visit: if the program is accepted those that each chunk reaches, else no more than
/// those that each chunk has.
///
/// # Errors
/// Those of [`verify`].
pub fn verify_metered(
    alloc: Global,
    caps: Caps,
    consts: &[Dynamic],
    code: &[u8],
    functions: &[Function],
    chunks: &[Chunk],
    pools: &Pools<'_>,
    meter: &mut Meter,
) -> Result<Vec<u16>, VerifyError>
    ensures verdict { IsVerdict
        (input caps consts.now code.now functions.now chunks.now pools.now) result }
    ensures memory { IfErr result (λ e. e ≡ VerifyError.OutOfMemory → ReachesChunks
        (input caps consts.now code.now functions.now chunks.now pools.now)) }
    ensures metered { IsMetered
        (input caps consts.now code.now functions.now chunks.now pools.now)
        meter.old meter.new result }
{
    match verify_located(alloc, caps, consts, code, functions, chunks, pools, meter) {
        Ok(deepest) => Ok(deepest),
        Err(refusal) => Err(refusal.error),
    }
}

/// Verifies as [`verify_metered`] does, and says of a refusal which chunk is refused. One walk finds both.
///
/// # Errors
/// Those of [`verify`], each with the index of the chunk that is refused, if it is one: those before it pass.
pub fn verify_located<'a>(
    alloc: Global,
    caps: Caps,
    consts: &'a [Dynamic],
    code: &'a [u8],
    functions: &'a [Function],
    chunks: &'a [Chunk],
    pools: &'a Pools<'a>,
    meter: &mut Meter,
) -> Result<Vec<u16>, Refusal>
    ensures verdict { IsVerdict
        (input caps consts.now code.now functions.now chunks.now pools.now)
        (without_chunk result) }
    ensures located { IfErr result (IsLocatedRefusal
        (input caps consts.now code.now functions.now chunks.now pools.now)) }
    ensures memory { IfErr result (λ r. r.error ≡ VerifyError.OutOfMemory → ReachesChunks
        (input caps consts.now code.now functions.now chunks.now pools.now)) }
    ensures metered { IsMetered
        (input caps consts.now code.now functions.now chunks.now pools.now)
        meter.old meter.new (without_chunk result) }
{
    let candidate = Candidate::new(caps, consts, code, functions, chunks, pools);
    verify_read(alloc, &candidate, meter)
}

/// Verifies as [`verify_located`] does, with pools in any form that can be read. It makes no pools, and reads
/// only what it needs of them.
///
/// # Errors
/// Those of [`verify_located`].
pub fn verify_read<P: Read>(
    alloc: Global,
    candidate: &Candidate<'_, P>,
    meter: &mut Meter,
) -> Result<Vec<u16>, Refusal>
    ensures verdict { IsVerdict candidate.now (without_chunk result) }
    ensures located { IfErr result (IsLocatedRefusal candidate.now) }
    ensures memory { IfErr result (λ r. r.error ≡ VerifyError.OutOfMemory
        → ReachesChunks candidate.now) }
    ensures metered { IsMetered candidate.now meter.old meter.new (without_chunk result) }
{
    let mut scratch = Scratch::new(alloc);
    scratch.verify(alloc, candidate, meter)
}

impl Scratch {
    /// Verifies as [`verify_read`] does, in the memory that is here, whatever was verified before. The numbers leave it;
    /// [`Scratch::keep`] takes them back.
    ///
    /// # Errors
    /// Those of [`verify_located`].
    pub fn verify<P: Read>(
        &mut self,
        alloc: Global,
        candidate: &Candidate<'_, P>,
        meter: &mut Meter,
    ) -> Result<Vec<u16>, Refusal>
        ensures verdict { IsVerdict candidate.now (without_chunk result) }
        ensures located { IfErr result (IsLocatedRefusal candidate.now) }
        ensures memory { IfErr result (λ r. r.error ≡ VerifyError.OutOfMemory
            → ReachesChunks candidate.now) }
        ensures metered { IsMetered candidate.now meter.old meter.new (without_chunk result) }
    {
        match check_before_chunks(alloc, &mut self.starts, candidate) {
            Ok(is_known) => verify_chunks(alloc, self, is_known, candidate, meter),
            Err(error) => Err(Refusal::of_whole(error)),
        }
    }
}
