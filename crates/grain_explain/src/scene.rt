//! What the walk over one chunk reads.
//!
//! It is apart from what the walk writes, so that the walk borrows this and changes that.
ghost use Rattle.std.specs.Prelude.{◌<◌, ◌↔◌, IfErr, IsTrue, OnOk};
ghost use Rattle.grain_rules.specs.Accepted.{IsFramed};
ghost use Rattle.grain_rules.specs.Code.{coded};
ghost use Rattle.grain_rules.specs.Flaw.{ChunkFlaw, IsFrameFlaw};
ghost use Rattle.grain_rules.specs.Layout.{IsStart};
ghost use Rattle.grain_rules.specs.Typing.{IsInChunk};
ghost use Rattle.grain_explain.specs.Scenes.{IsStarted, MissesTarget, seen};

use grain_base::Caps;
use grain_code::{Chunk, Starts};
use grain_rules::{Read, VerifyError, check_frame};
use std::alloc::Global;

/// A chunk in its code and its setting, with the starts of the code.
#[derive(Drop)]
pub(crate) struct Scene<'a, P: Read> {
    pub(crate) alloc: Global,
    pub(crate) caps: Caps,
    pub(crate) code: &'a [u8],
    pub(crate) chunk: &'a Chunk,
    pub(crate) pools: &'a P,
    pub(crate) starts: &'a Starts,
}

impl<P: Read> Scene<'_, P> {
    /// Whether an instruction begins at an address.
    fn is_start(&self, at: usize) -> bool
        requires { IsStarted (seen P.facts P.leads self.now) }
        ensures { IsTrue result ↔ IsStart self.now.code.now at }
    {
        self.starts.contains(at)
    }

    /// How many instructions are before the chunk's entry, where the chunk lies in the code as it has to.
    ///
    /// # Errors
    /// Those of [`check_frame`].
    pub(crate) fn check_frame(&self) -> Result<usize, VerifyError>
        requires { IsStarted (seen P.facts P.leads self.now) }
        ensures framed { OnOk result (IsFramed (seen P.facts P.leads self.now).code
            self.now.chunk.now) }
        ensures holds { OnOk result (self.now.chunk.now.entry < self.now.chunk.now.end) }
        ensures err { IfErr result (λ e. ChunkFlaw (seen P.facts P.leads self.now).code
            self.now.chunk.now e
            × IsFrameFlaw (seen P.facts P.leads self.now).code self.now.chunk.now e) }
    {
        check_frame(self.code, self.starts, self.chunk)
    }

    /// Tests that a target of the instruction at an address is a start of the chunk.
    ///
    /// # Errors
    /// `JumpOutOfRange` or `JumpIntoAnInstruction`.
    pub(crate) fn check_target(&self, at: u32, target: u32) -> Result<(), VerifyError>
        requires { IsStarted (seen P.facts P.leads self.now) }
        ensures inside { OnOk result
            (IsInChunk (coded (seen P.facts P.leads self.now).code) self.now.chunk.now target) }
        ensures err { IfErr result (MissesTarget (seen P.facts P.leads self.now) at target) }
    {
        let at = at as usize;
        if target < self.chunk.entry() || target >= self.chunk.end() {
            return Err(VerifyError::JumpOutOfRange { at, target });
        }
        if !self.is_start(target as usize) {
            return Err(VerifyError::JumpIntoAnInstruction { at, target });
        }
        Ok(())
    }
}
