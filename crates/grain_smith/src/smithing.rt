//! Accepted programs.
ghost use Rattle.std.specs.Prelude.{◌≡◌, IfOk};
ghost use Rattle.grain.specs.Program.{declared_by};
ghost use Rattle.grain.specs.Verified.{IsVerified};

use crate::draft::{Draft, drafted};
use crate::error::SmithError;
use crate::options::SmithOptions;
use grain::{Caps, Flags, Verified, build};
use std::alloc::Global;

/// A random program, which is accepted. Each chunk declares its depth. The seed and
/// the options alone decide which program it is. It takes time by the size, and by what one verification takes.
///
/// # Errors
/// `Refused` if what was written isn't accepted after all, and `OutOfMemory` if an allocation failed.
pub fn smith(alloc: Global, seed: u64, options: &SmithOptions) -> Result<Verified, SmithError>
    ensures verified { IfOk result IsVerified }
    ensures declared { IfOk result (λ smithed. declared_by smithed.program ≡ smithed.depths) }
{
    let Draft {
        ops,
        cuts,
        heads,
        parts,
    } = drafted(alloc, seed, options)?;
    if cuts.len() != heads.len() + 1 {
        return Err(SmithError::Uneven);
    }
    let mut verified = build(alloc, Caps::all(), &ops, &cuts, heads, parts)?;
    verified.tighten();
    // The prover learns that what is verified stays so.
    let _depths = verified.depths();
    Ok(verified)
}
