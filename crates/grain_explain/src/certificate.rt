//! Whether rows are a stack typing of a chunk.
ghost use Rattle.std.specs.Prelude.{IfErr, OnOk};
ghost use Rattle.grain_rules.specs.Accepted.{ChunkPasses};
ghost use Rattle.grain_rules.specs.Code.{bytecode_beside};
ghost use Rattle.grain_explain.specs.Certificate.{IsCertificate, RowsFlaw};

use crate::claim::Claim;
use crate::error::TypingError;
use crate::row::{LinkedBase, Row};
use grain_base::Caps;
use grain_code::Chunk;
use grain_rules::Read;

/// Whether rows are a stack typing of a chunk within the operands that it declares.
///
/// The rows are those of the addresses that the typing covers, in ascending order, and name lists of `bases`. The answer is yes
/// if and only if
///
/// - the chunk lies in the code and ends at a boundary of instructions;
/// - each base names a list before it, and each row a list that is there;
/// - the entry has a row with nothing on the stacks;
/// - each row is at an instruction of the chunk, which finds what it needs there and leaves what was on the stacks when the
///   last handler was armed;
/// - each edge leads to a row with the very counts of the edge.
///
/// Whether constants, indices and functions pass is for other tests.
///
/// It reads the code once and the rows once, finds the row of each edge by binary search, and takes no memory. Lists with equal
/// numbers are equal at once; others are compared base by base. An instruction that names a name or a chain costs by its
/// length, and one with a switch by the number of its arms.
///
/// # Errors
/// What is wrong with the rows, and of which of them.
pub fn check_typing<P: Read>(
    caps: Caps,
    code: &[u8],
    chunk: &Chunk,
    pools: &P,
    bases: &[LinkedBase],
    rows: &[Row],
) -> Result<(), TypingError>
    ensures yes { OnOk result
        (IsCertificate (bytecode_beside
        caps.0 (P.facts pools.now) (P.leads pools.now) code.now)
        chunk.now bases.now rows.now) }
    ensures passes { OnOk result (ChunkPasses (bytecode_beside
        caps.0 (P.facts pools.now) (P.leads pools.now) code.now) chunk.now) }
    ensures no { IsCertificate (bytecode_beside
        caps.0 (P.facts pools.now) (P.leads pools.now) code.now)
        chunk.now bases.now rows.now → IfErr result (λ _. ⊥) }
    ensures flaw { IfErr result
        (RowsFlaw (bytecode_beside
        caps.0 (P.facts pools.now) (P.leads pools.now) code.now)
        chunk.now bases.now rows.now) }
{
    let claim = Claim {
        caps,
        code,
        chunk,
        pools,
        bases,
        rows,
        most: u32::from(chunk.max_stack()),
    };
    claim.check()
}
