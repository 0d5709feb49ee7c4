//! From the bytes of a file to a verified program.
ghost use Rattle.std.specs.Prelude.{◌≡◌, ◌⊎◌, IfOk, IfErr};
ghost use Rattle.grain.specs.Program.{Program};
ghost use Rattle.grain.specs.Verified.{IsVerified};
ghost use Rattle.grain_rules.specs.Capabilities.{Allows};
ghost use Rattle.grain_file.specs.ProgramFile.{IsFileWithin, kept};
ghost use Rattle.grain_file.specs.Loading.{IsFileOf, IsLoadCause, IsMemory, IsLoadable};

use crate::file::{Limits, ReadError, read};
use grain::{Rejected, Verified};
use grain_base::{Caps, Flags};
use std::alloc::Global;
use thiserror::Error;

/// Why a file isn't loaded.
#[derive(Debug, Drop, Error)]
pub enum LoadError {
    /// The bytes are no file within the limits.
    #[error("{0}")]
    Read(ReadError),
    /// The program declares capabilities that the host lacks: these.
    #[error("the host lacks capabilities {0:?}")]
    Capabilities(Caps),
    /// The program is refused: it and why.
    #[error("{0}")]
    Refused(Rejected),
}

/// The program that the bytes are a file of, verified.
///
/// It costs one [`read`] and one [`Program::into_verified`](grain::Program::into_verified).
///
/// # Errors
/// Tested in this order: `Read` as [`read`]; `Capabilities` if the host lacks some that the program declares; `Refused` as
/// [`Program::into_verified`](grain::Program::into_verified).
#[tactic(auto, using(crate::proofs::KeptAccepted::loadable_alike))]
pub fn load(alloc: Global, bytes: &[u8], host: Caps, limits: &Limits) -> Result<Verified, LoadError>
    // What is loaded is what the bytes are a file of, its capabilities are the host's, and it is verified.
    ensures file { IfOk result (λ l. IsFileWithin limits.now bytes.now (kept l.program)) }
    ensures allowed { IfOk result (λ l. Allows host.0 l.program.caps.0) }
    ensures verified { IfOk result IsVerified }
    // A file of a program that passes is loaded, memory apart.
    ensures accepts { (p : Program) → IsFileOf limits.now bytes.now p → IsLoadable host.0 p
        → IfErr result IsMemory }
    // Which test failed, and of what.
    ensures causes { IfErr result (IsLoadCause limits.now bytes.now host.0) }
{
    let program = match read(alloc, bytes, limits) {
        Ok(program) => program,
        Err(error) => return Err(LoadError::Read(error)),
    };
    let missing = program.caps().difference(host);
    if !missing.is_empty() {
        return Err(LoadError::Capabilities(missing));
    }
    match program.into_verified() {
        Ok(verified) => Ok(verified),
        Err(rejected) => Err(LoadError::Refused(rejected)),
    }
}
