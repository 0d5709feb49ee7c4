//! How a run over lines ends: the count of its cases or why it stopped, and the status of the process.

ghost use Rattle.std.specs.Prelude.{◌≡◌, if◌then◌else◌};
ghost use Rattle.grain_lines.specs.Outcome.{CountsOn, exit_status};
ghost use Rattle.grain_lines.specs.declared.outcome.RunError.TheVariants.{OutOfMemory};

use std::alloc::AllocError;

/// How many cases were answered, and how many of these had no form of a case.
///
/// A number that reaches the greatest value stays there.
#[derive(Clone, Copy, Debug, PartialEq, Eq)]
pub struct Summary {
    /// The cases that were answered.
    pub cases: u64,
    /// Those of them that are answered by `bad case`.
    pub bad: u64,
}

impl Summary {
    /// Counts one more case.
    pub fn count(&mut self, is_bad: bool)
        ensures cases { CountsOn self.old.cases self.new.cases 1 }
        ensures bad { CountsOn self.old.bad self.new.bad (if is_bad then 1 else 0) }
    {
        self.cases = self.cases.saturating_add(1);
        self.bad = self.bad.saturating_add(u64::from(is_bad));
    }
}

/// Why a run stopped before the end.
#[derive(Clone, Copy, Debug, PartialEq, Eq)]
pub enum RunError {
    /// A read failed, or the source gave bytes in 18446744073709551615 reads.
    Read,
    /// A write failed or took none of some bytes.
    Write,
    /// Memory was refused.
    OutOfMemory,
}

impl From<AllocError> for RunError {
    ghost from_gives = { λ _ e. e ≡ OutOfMemory };

    fn from(_e: AllocError) -> RunError {
        RunError::OutOfMemory
    }
}

/// The status that the process ends with.
///
/// It is 0 if every case had a form and 2 if some case had none. If the run stopped before
/// the end, it is 3 for a failed read, 4 for a failed write and 5 if memory runs out
/// (docs/FORMAT.md, "Lines, cases and verdicts"). It takes constant time.
pub fn status(outcome: &Result<Summary, RunError>) -> u8
    ensures { result ≡ exit_status outcome.now }
{
    match outcome {
        Ok(summary) => if summary.bad == 0 { 0 } else { 2 },
        Err(RunError::Read) => 3,
        Err(RunError::Write) => 4,
        Err(RunError::OutOfMemory) => 5,
    }
}
