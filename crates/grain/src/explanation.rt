//! The verdict on a program, with each chunk explained.
ghost use Rattle.std.specs.Prelude.{◌≡◌, IfErr, IfOk};
ghost use Rattle.grain_rules.specs.Accepted.{input_beside};
ghost use Rattle.grain_rules.specs.Verdict.{ReachesChunks};
ghost use Rattle.grain.specs.Explanations.{IsExplanation};

use grain_base::{Caps, Dynamic};
use grain_code::{Chunk, Function};
use grain_explain::{ExplainError, ExplainedChunk, explain_chunks};
use grain_rules::{Candidate, Read, VerifyError};
use grain_verify::{Meter, Refusal, verify_read};
use std::alloc::Global;

/// The verdict on a program, and why it is so.
#[derive(Debug, PartialEq, Eq, Drop)]
pub struct Explained {
    /// The greatest operand count that any run of each chunk reaches, or why the program is refused and for which chunk.
    pub verdict: Result<Vec<u16>, Refusal>,
    /// Each chunk in order, those behind a refused one too. There are none if a test before the chunks fails.
    pub chunks: Vec<ExplainedChunk>,
}

/// Verifies as [`crate::verify_read`] does, with the same promise of kept runs, and explains each chunk as
/// [`explain_chunks`] does.
///
/// If the tests before the chunks pass, each chunk is explained: if it passes by rows that are a stack typing of it and
/// just what is reached, else by a flaw of it with the way to it. The first chunk that has a flaw is the one that the verdict
/// names; that its flaw is the very one of the verdict is by the order of both walks, which no contract says. It takes the time of
/// both, and memory as [`explain_chunks`] does.
///
/// # Errors
/// `OutOfMemory` if an allocation failed, and no other: code that is bad is refused by the verdict, without an explained chunk.
#[tactic(auto, using(crate::proofs::RefusalCauses::located_explained, crate::proofs::RefusalCauses::accepted_explained, crate::proofs::RefusalCauses::located_reaches))]
pub fn explain<'a, P: Read>(
    alloc: Global,
    caps: Caps,
    consts: &'a [Dynamic],
    code: &'a [u8],
    functions: &'a [Function],
    chunks: &'a [Chunk],
    pools: &'a P,
) -> Result<Explained, ExplainError>
    ensures explained { IfOk result (IsExplanation (input_beside caps.0 consts.now code.now
        functions.now chunks.now (P.facts pools.now) (P.leads pools.now))) }
    ensures memory { IfErr result (λ e. (e ≡ ExplainError.OutOfMemory)
        × ReachesChunks (input_beside caps.0 consts.now code.now functions.now chunks.now
        (P.facts pools.now) (P.leads pools.now))) }
{
    let mut meter = Meter::new();
    let candidate = Candidate::new(caps, consts, code, functions, chunks, pools);
    match verify_read(alloc, &candidate, &mut meter) {
        Ok(deepest) => {
            let chunks = explain_chunks(alloc, caps, code, chunks, pools)?;
            Ok(Explained {
                verdict: Ok(deepest),
                chunks,
            })
        }
        Err(refusal) => match refusal.chunk {
            None => match refusal.error {
                VerifyError::OutOfMemory => Err(ExplainError::OutOfMemory),
                _ => Ok(Explained {
                    verdict: Err(refusal),
                    chunks: Vec::new(alloc),
                }),
            },
            Some(_) => {
                let chunks = explain_chunks(alloc, caps, code, chunks, pools)?;
                Ok(Explained {
                    verdict: Err(refusal),
                    chunks,
                })
            }
        },
    }
}
