//! Verification, and chunks that declare their depths.
ghost use Rattle.std.specs.Prelude.{length};
ghost use Rattle.grain_c.specs.Answers.{IsAnswer, WritesTight};

use crate::handle::{CScratch, keep, take};
use crate::judge::judge;
use crate::status::ACCEPTED;
use grain_flat::{CChunk, CProgram, CReport, FlatScratch, tighten};
use std::alloc::Global;

/// Verifies a program and tightens its chunks, in the memory of a scratch, whatever that was used for before.
#[inline(always)]
fn tighten_in(
    alloc: Global,
    scratch: &mut FlatScratch,
    caps: u16,
    limit: u64,
    program: &CProgram<'_>,
    tightened: &mut [CChunk],
    report: &mut CReport,
) -> u32
    ensures tightened { WritesTight caps program.now tightened.old tightened.new result }
    ensures answer { IsAnswer
        caps limit program.now (length tightened.old) report.old report.new result }
{
    match judge(
        alloc,
        scratch,
        caps,
        limit,
        program,
        tightened.len(),
        report,
    ) {
        Ok(found) => {
            tighten(tightened, program.chunks, &found);
            scratch.keep(found);
            ACCEPTED
        }
        Err(status) => status,
    }
}

/// Verifies a program as `grain_proved_verify_with` does. If it is accepted, its chunks are written, each declaring its depth.
/// With these it is accepted again.
#[unsafe(no_mangle)]
pub extern "C" fn grain_proved_tighten(
    alloc: Global,
    scratch: &mut CScratch,
    caps: u16,
    limit: u64,
    program: &CProgram<'_>,
    tightened: &mut [CChunk],
    report: &mut CReport,
) -> u32
    // The headline, of all that has this flat form.
    ensures tightened { WritesTight caps program.now tightened.old tightened.new result }

    // Refusals, the other answers, and the report.
    ensures answer { IsAnswer
        caps limit program.now (length tightened.old) report.old report.new result }
{
    match take(alloc, scratch).or_else(|| Box::new(alloc, FlatScratch::new(alloc)).ok()) {
        Some(mut kept) => {
            let status = tighten_in(alloc, &mut kept, caps, limit, program, tightened, report);
            keep(alloc, scratch, kept);
            status
        }
        // Without memory for what is kept, nothing is.
        None => tighten_in(
            alloc,
            &mut FlatScratch::new(alloc),
            caps,
            limit,
            program,
            tightened,
            report,
        ),
    }
}
