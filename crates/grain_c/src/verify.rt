//! Verification, over pools in their flat form.
ghost use Rattle.std.specs.Prelude.{◌≡◌, ◌≤◌, ◌++◌, drop, length};
ghost use Rattle.grain_c.specs.Answers.{IsAnswer, WritesDepths};

use crate::handle::{CScratch, keep, take};
use crate::judge::judge;
use crate::status::ACCEPTED;
use grain_flat::{CProgram, CReport, FlatScratch};
use std::alloc::Global;

/// Writes the depths in front of the room, and leaves the rest of it.
fn put(room: &mut [u16], depths: &[u16])
    requires { length depths.now ≤ length room.old }
    ensures { room.new ≡ depths.now ++ drop (length depths.now) room.old }
{
    room[..depths.len()].copy_from_slice(depths);
}

/// Verifies a program in the memory of a scratch, whatever that was used for before.
#[inline(always)]
pub(crate) fn verify_in(
    alloc: Global,
    scratch: &mut FlatScratch,
    caps: u16,
    limit: u64,
    program: &CProgram<'_>,
    depths: &mut [u16],
    report: &mut CReport,
) -> u32
    ensures depths { WritesDepths caps program.now depths.old depths.new result }
    ensures answer { IsAnswer
        caps limit program.now (length depths.old) report.old report.new result }
{
    match judge(alloc, scratch, caps, limit, program, depths.len(), report) {
        Ok(found) => {
            put(depths, &found);
            scratch.keep(found);
            ACCEPTED
        }
        Err(status) => status,
    }
}

/// Verifies a program: its code, its chunks, and its pools.
///
/// 0 if it is accepted: then the depth of each chunk is written, which is the greatest operand count that any run of it reaches.
/// 1 if it is refused: then the refusal is written. In both cases it is written how many instructions were visited. Tested
/// first are, in this order: 4, no pools have this flat form; 2, there are fewer places than chunks; 5, the chunks span more
/// bytes of the code than the limit. 3 if the allocator refused.
#[unsafe(no_mangle)]
pub extern "C" fn grain_proved_verify(
    alloc: Global,
    caps: u16,
    limit: u64,
    program: &CProgram<'_>,
    depths: &mut [u16],
    report: &mut CReport,
) -> u32
    // The headline, of all that has this flat form.
    ensures depths { WritesDepths caps program.now depths.old depths.new result }

    // Refusals, the other answers, and the report.
    ensures answer { IsAnswer
        caps limit program.now (length depths.old) report.old report.new result }
{
    verify_in(
        alloc,
        &mut FlatScratch::new(alloc),
        caps,
        limit,
        program,
        depths,
        report,
    )
}

/// Verifies a program as `grain_proved_verify` does, in the memory that the scratch keeps, whatever it was used for before.
///
/// It takes memory only if the scratch keeps less than the program needs, and the scratch keeps as much as programs needed
/// most, until `grain_proved_scratch_free` is called.
#[unsafe(no_mangle)]
pub extern "C" fn grain_proved_verify_with(
    alloc: Global,
    scratch: &mut CScratch,
    caps: u16,
    limit: u64,
    program: &CProgram<'_>,
    depths: &mut [u16],
    report: &mut CReport,
) -> u32
    // The headline, of all that has this flat form.
    ensures depths { WritesDepths caps program.now depths.old depths.new result }

    // Refusals, the other answers, and the report.
    ensures answer { IsAnswer
        caps limit program.now (length depths.old) report.old report.new result }
{
    match take(alloc, scratch).or_else(|| Box::new(alloc, FlatScratch::new(alloc)).ok()) {
        Some(mut kept) => {
            let status = verify_in(alloc, &mut kept, caps, limit, program, depths, report);
            keep(alloc, scratch, kept);
            status
        }
        // Without memory for what is kept, nothing is.
        None => grain_proved_verify(alloc, caps, limit, program, depths, report),
    }
}

/// Frees what the scratch keeps. It may be used again.
#[unsafe(no_mangle)]
pub extern "C" fn grain_proved_scratch_free(alloc: Global, scratch: &mut CScratch) {
    drop(take(alloc, scratch));
}
