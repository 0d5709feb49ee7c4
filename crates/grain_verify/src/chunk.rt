//! What is tested of one chunk: its frame, what its walk meets, and the operand count that it declares.
ghost use Rattle.std.specs.Prelude.{◌≡◌, ◌<◌, IfErr, IfOk, OnOk};
ghost use Rattle.grain_rules.specs.Accepted.{ChunkPasses};
ghost use Rattle.grain_rules.specs.Code.{coded};
ghost use Rattle.grain_rules.specs.Typing.{HasTyping, IsDeepest};
ghost use Rattle.grain_verify.specs.Asked.{Knows};
ghost use Rattle.grain_verify.specs.Progress.{Fits, IsMeteredChunk};
ghost use Rattle.grain_verify.specs.Visits.{RefusesChunk};
ghost use Rattle.grain_verify.specs.Walk.{IsReady};

use crate::asked::Asked;
use crate::lists::Lists;
use crate::meter::Meter;
use crate::walk::{Prepared, Traversal};
use grain_code::Chunk;
use grain_rules::{Read, VerifyError};

/// The greatest operand count that any run of the chunk reaches. The meter takes what the walk visits, if it is refused
/// too.
///
/// # Errors
/// One of the chunk's flaws: of its frame, of its walk, or `StackExceedsDeclared`, since a host makes stacks as deep as
/// chunks declare. `OutOfMemory` if it was refused.
pub(crate) fn verify_chunk<P: Read>(
    prepared: &Prepared<'_, P>,
    chunk: &Chunk,
    lists: &mut Lists,
    traversal: &mut Traversal,
    asked: &mut Asked,
    meter: &mut Meter,
) -> Result<u16, VerifyError>
    requires ready { IsReady prepared.now }
    requires fits { Fits prepared.now traversal.old }
    requires knows { Knows prepared.now.code.setting.facts asked.old }
    ensures passes { OnOk result (ChunkPasses prepared.now.code chunk.now) }
    ensures typed { IfOk result (λ n. HasTyping (coded prepared.now.code) chunk.now n) }
    ensures deepest { IfOk result (λ n. IsDeepest (coded prepared.now.code) chunk.now n) }
    ensures accepts { ChunkPasses prepared.now.code chunk.now
        → IfErr result (λ e. e ≡ VerifyError.OutOfMemory) }
    ensures flaws { IfErr result (RefusesChunk prepared.now.code chunk.now) }
    ensures metered { IsMeteredChunk prepared.now.code
        prepared.now.starts chunk.now meter.old meter.new result }
    ensures fits { OnOk result (Fits prepared.now traversal.new) }
    ensures knows { OnOk result (Knows prepared.now.code.setting.facts asked.new) }
{
    let ordinal = prepared.entry_ordinal(chunk)?;
    let mut visits = 0;
    let walked = prepared.walk(chunk, ordinal, lists, traversal, asked, &mut visits);
    meter.add(visits);
    let needed = walked?;
    let declared = chunk.max_stack();
    if needed > u32::from(declared) {
        return Err(VerifyError::StackExceedsDeclared {
            needed: needed as usize,
            declared,
        });
    }
    Ok(needed as u16)
}
