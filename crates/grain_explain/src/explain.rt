//! Why a program is accepted or refused, chunk by chunk.
ghost use Rattle.std.specs.Prelude.{IfErr, IfOk};
ghost use Rattle.std.specs.List.{AllZip};
ghost use Rattle.grain_rules.specs.Code.{bytecode_beside};
ghost use Rattle.grain_explain.specs.Explaining.{IsCause, IsExact, IsExplained};

use crate::refusal::{ExplainError, ExplainedChunk};
use crate::scene::Scene;
use grain_base::Caps;
use grain_code::{Chunk, Starts};
use grain_rules::{Read, check_code};
use std::alloc::Global;

/// Why each chunk of code that is whole instructions with their indices in bounds is accepted or refused.
///
/// Each chunk has rows, in ascending order of addresses and one for each address at most; each says with which counts its
/// instruction is reached, and from which address an edge leads there with these counts. The entry alone has no such address.
/// If the chunk isn't refused the rows are a stack typing of it within its declared stack, and exactly what is reached, so
/// that [`crate::check_typing`] accepts them. Otherwise the refusal names a flaw of the chunk, with a path along edges to a
/// state that shows it (two for a conflict; to the greatest count if the stack is too deep), and each state of the path has its row.
/// So a chunk isn't refused here if and only if it passes, but which of its flaws is named is left open, and so are which of
/// several predecessors a row names and which other rows a refused chunk has: the first by which the walk visited the
/// instruction, and all that it visited.
///
/// All chunks are explained, those after a refused one too. Time and memory grow with the length of each chunk, with the
/// number of its instructions that are visited, and with the arms of their switches. Rows share their lists of bases.
///
/// # Errors
/// `BadCode` if and only if the code isn't such code; `OutOfMemory` if an allocation failed.
pub fn explain_chunks<P: Read>(
    alloc: Global,
    caps: Caps,
    code: &[u8],
    chunks: &[Chunk],
    pools: &P,
) -> Result<Vec<ExplainedChunk>, ExplainError>
    ensures explained { IfOk result
        (λ v. AllZip (IsExplained (bytecode_beside
        caps.0 (P.facts pools.now) (P.leads pools.now) code.now)) chunks.now v.items) }
    ensures exact { IfOk result
        (λ v. AllZip (IsExact (bytecode_beside
        caps.0 (P.facts pools.now) (P.leads pools.now) code.now)) chunks.now v.items) }
    ensures cause { IfErr result (IsCause (bytecode_beside
        caps.0 (P.facts pools.now) (P.leads pools.now) code.now)) }
{
    if check_code(pools, code).is_err() {
        return Err(ExplainError::BadCode);
    }
    let starts = Starts::of(alloc, code)?;
    let mut explained = Vec::new(alloc);
    for chunk in chunks {
        let scene = Scene {
            alloc,
            caps,
            code,
            chunk,
            pools,
            starts: &starts,
        };
        explained.push(scene.explain()?)?;
    }
    Ok(explained)
}
