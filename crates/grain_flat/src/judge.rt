//! Verification of all but the constants.
//!
//! Constants are tested by their rows before, since the verifier would read their values, which don't cross.
ghost use Rattle.grain_flat.specs.Judging.{IsMeteredOf, IsVerdictOf, judged_input};

use crate::row_reads::Rows;
use grain_base::Caps;
use grain_code::{Chunk, Function};
use grain_rules::{Candidate, VerifyError};
use grain_verify::{Meter, Refusal, Scratch};
use std::alloc::{AllocError, Global};

/// What is verified, but its chunks.
#[derive(Drop)]
pub(crate) struct Judge<'a> {
    pub(crate) alloc: Global,
    pub(crate) caps: Caps,
    pub(crate) code: &'a [u8],
    pub(crate) functions: &'a [Function],
    pub(crate) rows: &'a Rows<'a>,
}

/// Why it isn't accepted.
#[derive(Drop)]
pub enum Rejection {
    /// Memory was wanted.
    OutOfMemory,
    /// It is refused.
    Refused(Refusal),
}

impl From<AllocError> for Rejection {
    ghost use Rattle.std.specs.Prelude.{◌≡◌};
    ghost use Rattle.grain_flat.specs.declared.judge.Rejection.{Rejection};

    ghost from_gives = { λ _ e. e ≡ Rejection.OutOfMemory };

    fn from(_: AllocError) -> Rejection {
        Rejection::OutOfMemory
    }
}

impl<'a> Judge<'a> {
    /// The numbers of the chunks, or why it isn't accepted with them. The meter counts what is looked at until then.
    pub(crate) fn verdict(
        &self,
        scratch: &mut Scratch,
        chunks: &'a [Chunk],
        meter: &mut Meter,
    ) -> Result<Vec<u16>, Rejection>
        ensures verdict { IsVerdictOf (judged_input self.now chunks.now) result }
        ensures metered { IsMeteredOf (judged_input self.now chunks.now) meter.old meter.new result }
    {
        let candidate = Candidate::new(
            self.caps,
            &[],
            self.code,
            self.functions,
            chunks,
            self.rows,
        );
        match scratch.verify(self.alloc, &candidate, meter) {
            Ok(numbers) => Ok(numbers),
            Err(refusal) => match refusal.error {
                VerifyError::OutOfMemory => Err(Rejection::OutOfMemory),
                _ => Err(Rejection::Refused(refusal)),
            },
        }
    }
}
