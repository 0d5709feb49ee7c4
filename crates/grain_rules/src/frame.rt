//! How a chunk lies in the code.
//!
//! It is tested before a walk begins, since a walk takes each address that it reaches for the start of an instruction.
ghost use Rattle.std.specs.Prelude.{◌≡◌, ◌<◌, IfErr, IfOk, OnOk, Some, slice_get};
ghost use Rattle.grain_code.specs.Split.{Split};
ghost use Rattle.grain_rules.specs.Accepted.{IsFramed};
ghost use Rattle.grain_rules.specs.Code.{Bytecode};
ghost use Rattle.grain_rules.specs.Flaw.{ChunkFlaw, IsFrameFlaw};

use crate::error::VerifyError;
use grain_code::{Chunk, Starts};

/// How many instructions are before the chunk's entry, where the chunk lies in the code and begins and ends where
/// instructions do. The starts are those of the code.
///
/// A walk that began within an instruction would read bytes that no test of the code has read as one, with indices that
/// lead nowhere; an end within an instruction would have its last one reach beyond the chunk.
///
/// # Errors
/// `ChunkOutOfRange`; `FallsOffTheEnd` if it is empty; `JumpIntoAnInstruction` to its entry or its end.
// It runs once for each chunk: inlined, it would take registers from the walk after it.
#[inline(never)]
pub fn check_frame(code: &[u8], starts: &Starts, chunk: &Chunk) -> Result<usize, VerifyError>
    requires { Split code.now starts.now.starts }
    ensures framed { (bytecode : Bytecode) → bytecode.bytes ≡ code.now
        → OnOk result (IsFramed bytecode chunk.now) }
    ensures holds { OnOk result (chunk.now.entry < chunk.now.end) }
    ensures place { IfOk result (λ k. slice_get starts.now.starts k ≡ Some chunk.now.entry) }
    ensures err { (bytecode : Bytecode) → bytecode.bytes ≡ code.now → IfErr result
        (λ e. ChunkFlaw bytecode chunk.now e × IsFrameFlaw bytecode chunk.now e) }
{
    let entry = chunk.entry() as usize;
    let end = chunk.end() as usize;
    let len = code.len();
    if end > len || entry > end {
        return Err(VerifyError::ChunkOutOfRange {
            entry: chunk.entry(),
            end: chunk.end(),
            len,
        });
    }
    if entry == end {
        return Err(VerifyError::FallsOffTheEnd);
    }
    let Some(ordinal) = starts.ordinal(entry) else {
        return Err(VerifyError::JumpIntoAnInstruction {
            at: entry,
            target: chunk.entry(),
        });
    };
    if end < len && !starts.contains(end) {
        return Err(VerifyError::JumpIntoAnInstruction {
            at: entry,
            target: chunk.end(),
        });
    }
    Ok(ordinal)
}
