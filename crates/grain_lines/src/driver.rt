//! A whole run, from the bytes of a source to those of a sink.
//!
//! It is generic over both, since no contract can say what standard input holds: so the theorem is about whatever was read.

ghost use Rattle.std.specs.Prelude.{◌≡◌, ◌≢◌, ◌<◌, [], length, vec_len, IfOk};
ghost use Rattle.std.specs.Result.{IsErrOf};
ghost use Rattle.grain_lines.specs.Driver.{AnswersAll, AnswersComplete, AnswersFirst};
ghost use Rattle.grain_lines.specs.Driver.{AnswersFront, ReadFailed};
ghost use Rattle.grain_lines.specs.Report.{none_written};

use crate::outcome::{RunError, Summary};
use crate::report::Report;
use crate::stream::{Sink, Source};
use std::alloc::{AllocError, Global};

/// How many bytes a read requests at most.
const BUFFER_LEN: usize = 65536;

/// Room for a read.
fn room(alloc: Global) -> Result<Vec<u8>, AllocError>
    ensures { IfOk result (λ buffer. 0 < vec_len buffer) }
{
    vec![in alloc; 0u8; BUFFER_LEN]
}

/// [`run`] with a report that has nothing yet, into a buffer of some bytes. It owns nothing, so that nothing is dropped at its
/// returns.
fn answer_all<S: Source, K: Sink>(
    buffer: &mut [u8],
    report: &mut Report,
    reader: &mut S,
    writer: &mut K,
) -> Result<Summary, RunError>
    requires room { 0 < length buffer.old }
    requires carry { report.old.carry.items ≡ [] }
    requires verdicts { report.old.verdicts ≡ none_written }
    ensures ok { IfOk result (AnswersAll (S.remaining reader.old) (S.remaining reader.new)
        (K.taken writer.old) (K.taken writer.new)) }
    ensures read { IsErrOf result RunError.Read → AnswersComplete (S.remaining reader.old)
        (S.remaining reader.new) (K.taken writer.old) (K.taken writer.new) }
    ensures write { IsErrOf result RunError.Write → AnswersFront (S.remaining reader.old)
        (S.remaining reader.new) (K.taken writer.old) (K.taken writer.new) }
    ensures memory { IsErrOf result RunError.OutOfMemory → AnswersFirst (S.remaining reader.old)
        (S.remaining reader.new) (K.taken writer.old) (K.taken writer.new) }
    ensures read_failed { IsErrOf result RunError.Read → ReadFailed (S.remaining reader.old)
        (S.remaining reader.new) (S.mark reader.old) (S.mark reader.new) }
    ensures write_failed { IsErrOf result RunError.Write → K.mark writer.new ≢ K.mark writer.old }
    ensures all_read { ¬ IsErrOf result RunError.Read → S.mark reader.new ≡ S.mark reader.old }
    ensures all_written { ¬ IsErrOf result RunError.Write → K.mark writer.new ≡ K.mark writer.old }
{
    'reading: for _turn in 0..u64::MAX {
        let Ok(count) = reader.read(buffer) else {
            return Err(RunError::Read);
        };
        if count == 0 {
            report.finish()?;
            let Ok(()) = report.send_to(writer) else {
                return Err(RunError::Write);
            };
            return Ok(report.summary());
        }
        report.feed(&buffer[..count])?;
        let Ok(()) = report.send_to(writer) else {
            return Err(RunError::Write);
        };
    }
    Err(RunError::Read)
}

/// Reads all there is, and writes a verdict for each case as soon as its line is complete or the
/// input has ended.
///
/// Lines, cases and verdicts are those of docs/FORMAT.md, "Lines, cases and verdicts". It holds one
/// line at a time with the bytes that its digits spell, one buffer of the input and the verdicts on
/// the cases of that buffer. It goes over each line a few times, and makes the call that the case
/// asks for (docs/COSTS.md). Nothing is tried again after an error.
///
/// # Errors
/// - [`RunError::Read`] if a read failed, or 18446744073709551615 reads gave bytes. The complete
///   cases that were read are answered.
/// - [`RunError::Write`] if a write failed or took none of some bytes. A beginning of the
///   verdicts was written, but not all of them.
/// - [`RunError::OutOfMemory`] if memory was refused. The first of the cases are answered.
pub fn run<S: Source, K: Sink>(
    alloc: Global,
    reader: &mut S,
    writer: &mut K,
) -> Result<Summary, RunError>
    ensures ok { IfOk result (AnswersAll (S.remaining reader.old) (S.remaining reader.new)
        (K.taken writer.old) (K.taken writer.new)) }

    // What went out where the run stopped before the end.
    ensures read { IsErrOf result RunError.Read → AnswersComplete (S.remaining reader.old)
        (S.remaining reader.new) (K.taken writer.old) (K.taken writer.new) }
    ensures write { IsErrOf result RunError.Write → AnswersFront (S.remaining reader.old)
        (S.remaining reader.new) (K.taken writer.old) (K.taken writer.new) }
    ensures memory { IsErrOf result RunError.OutOfMemory → AnswersFirst (S.remaining reader.old)
        (S.remaining reader.new) (K.taken writer.old) (K.taken writer.new) }

    // It stops so only if the source or the sink failed in this call.
    ensures read_failed { IsErrOf result RunError.Read → ReadFailed (S.remaining reader.old)
        (S.remaining reader.new) (S.mark reader.old) (S.mark reader.new) }
    ensures write_failed { IsErrOf result RunError.Write → K.mark writer.new ≢ K.mark writer.old }

    // No failure is passed over.
    ensures all_read { ¬ IsErrOf result RunError.Read → S.mark reader.new ≡ S.mark reader.old }
    ensures all_written { ¬ IsErrOf result RunError.Write → K.mark writer.new ≡ K.mark writer.old }
{
    let mut memory = room(alloc)?;
    let mut report = Report::new(alloc);
    answer_all(memory.as_mut_slice(), &mut report, reader, writer)
}
