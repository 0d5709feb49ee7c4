//! Why a chunk is accepted or refused.
ghost use Rattle.std.specs.Prelude.{◌≡◌, ◌≢◌, ◌<◌, ◌≤◌, ◌↔◌, IfNone, IfSome, Some, None, length, slice_get};
ghost use Rattle.grain_explain.specs.declared.refusal.ExplainedChunk.{ExplainedChunk};
ghost use Rattle.grain_explain.specs.declared.refusal.Refusal.{Refusal};
ghost use Rattle.grain_c.specs.Explained.{ExplainsAt};
ghost use Rattle.grain_flat.specs.Answers.{refusal_record};
ghost use Rattle.grain_flat.specs.Explaining.{Beside, IsIndexedBeside, IsWrittenIn};
ghost use Rattle.grain_flat.specs.Flat.{Pooled};

use crate::status::{
    ACCEPTED, BAD_CODE, NO_CHUNK, NOT_FLAT, OUT_OF_MEMORY, REFUSED, SHORT, TOO_MUCH_WORK,
};
use grain_base::{Caps, Flags};
use grain_explain::{ExplainError, ExplainedChunk};
use grain_flat::{
    CBase, CChunk, CExplanation, CProgram, CRow, ExplanationRows, explain_chunk, fill, is_flat,
    refusal_record, rows_of,
};
use std::alloc::Global;

/// The chunk with an index, if there is one.
fn chunk_at(chunks: &[CChunk], index: usize) -> Option<&CChunk>
    ensures some { IfSome result (λ chunk. slice_get chunks.now index ≡ Some chunk.now) }
    ensures none { IfNone result (length chunks.now ≤ index) }
    ensures inside { IfSome result (λ _. index < length chunks.now) }
{
    chunks.get(index)
}

/// What is said of an explained chunk, whose rows are these.
fn counts_of(found: &ExplainedChunk, made: &ExplanationRows, before: &CExplanation) -> CExplanation
    ensures visited { result.rows ≡ made.now.visited }
    ensures path { result.path ≡ made.now.path }
    ensures other { result.other ≡ made.now.other }
    ensures bases { result.bases ≡ length made.now.bases.items }
    ensures kept { found.now.refusal ≡ None → result.refusal ≡ before.now.refusal }
    ensures refusal { (r : Refusal) → found.now.refusal ≡ Some r
        → result.refusal ≡ refusal_record None r.error }
{
    let refusal = match &found.refusal {
        None => before.refusal,
        Some(refusal) => refusal_record(None, &refusal.error),
    };
    CExplanation {
        rows: made.visited,
        path: made.path,
        other: made.other,
        bases: made.bases.len(),
        refusal,
    }
}

/// Explains the chunk of a program with this index: what stands at each instruction that is visited, and where the chunk is
/// refused a path to its flaw, for a conflict another path too.
///
/// If it passes the rows are a stack typing of it, and just what is reached. If it is refused, why is written. In both
/// cases as many rows and bases are written as there is room for, and how many there are. That the pools are flat is tested
/// first, and then the index. Constants and functions aren't looked at.
#[unsafe(no_mangle)]
pub extern "C" fn grain_proved_explain(
    alloc: Global,
    caps: u16,
    program: &CProgram<'_>,
    chunk: usize,
    rows: &mut [CRow],
    bases: &mut [CBase],
    explanation: &mut CExplanation,
) -> u32
    // With pools of this flat form beside the code.
    ensures accepted { result ≡ ACCEPTED → (x : ExplainedChunk)
        × ExplainsAt caps program.now chunk x × (x.refusal ≡ None)
        × IsWrittenIn x rows.old rows.new bases.old bases.new explanation.new
        × (explanation.new.refusal ≡ explanation.old.refusal) }
    ensures refused { result ≡ REFUSED → (x : ExplainedChunk) × (r : Refusal)
        × ExplainsAt caps program.now chunk x × (x.refusal ≡ Some r)
        × IsWrittenIn x rows.old rows.new bases.old bases.new explanation.new
        × (explanation.new.refusal ≡ refusal_record None r.error) }

    // When each other status is answered.
    ensures not_flat { (result ≡ NOT_FLAT) ↔ (Pooled program.now.pools → ⊥) }
    ensures no_chunk { (result ≡ NO_CHUNK)
        ↔ (Pooled program.now.pools × (length program.now.chunks.now ≤ chunk)) }
    ensures bad_code { result ≡ BAD_CODE → (beside : Beside program.now.pools)
        × (IsIndexedBeside caps program.now.code.now program.now.pools beside → ⊥) }
    ensures answers { (result ≤ BAD_CODE) × (result ≢ SHORT) × (result ≢ TOO_MUCH_WORK) }

    // What stays as it was.
    ensures kept { result ≢ ACCEPTED → result ≢ REFUSED → (rows.new ≡ rows.old)
        × (bases.new ≡ bases.old) × (explanation.new ≡ explanation.old) }
{
    if !is_flat(&program.pools) {
        return NOT_FLAT;
    }
    let Some(span) = chunk_at(program.chunks, chunk) else {
        return NO_CHUNK;
    };
    let caps = Caps::from_bits_retain(caps);
    let found = match explain_chunk(alloc, caps, program.code, span, &program.pools) {
        Ok(found) => found,
        Err(ExplainError::OutOfMemory) => return OUT_OF_MEMORY,
        Err(ExplainError::BadCode) => return BAD_CODE,
    };
    let Ok(made) = rows_of(alloc, &found) else {
        return OUT_OF_MEMORY;
    };
    fill(rows, &made.rows);
    fill(bases, &made.bases);
    *explanation = counts_of(&found, &made, explanation);
    match &found.refusal {
        None => ACCEPTED,
        Some(_) => REFUSED,
    }
}
