//! What all verifications do, whatever they write for an accepted program.
ghost use Rattle.std.specs.Prelude.{◌≡◌, ◌≢◌, ◌-◌, ◌^◌, ◌≤◌, IfErr, IfNone, IfOk, IfSome, OnOk, length, min};
ghost use Rattle.grain_c.specs.Answers.{IsAnswer};
ghost use Rattle.grain_c.specs.Judging.{IsBar, IsClear, status_of};
ghost use Rattle.grain_flat.specs.Answers.{Accepts};
ghost use Rattle.grain_flat.specs.Flat.{IsFlat};

use crate::status::{ACCEPTED, NOT_FLAT, OUT_OF_MEMORY, REFUSED, SHORT, TOO_MUCH_WORK};
use grain_base::{Caps, Flags};
use grain_flat::{
    CProgram, CReport, FlatScratch, Rejection, is_flat, is_within, refusal_record, verdict,
};
use grain_verify::Meter;
use std::alloc::Global;

/// What a meter shows in 64 bits.
pub(crate) fn shown(meter: &Meter) -> u64
    ensures { result ≡ min meter.now (2 ^ 64 - 1) }
{
    u64::try_from(meter.count()).unwrap_or(u64::MAX)
}

/// What is answered before any verification, if something bars one.
fn bar(program: &CProgram<'_>, room: usize, limit: u64) -> Option<u32>
    ensures bars { IfSome result (IsBar limit program.now room) }
    ensures clear { IfNone result (IsClear limit program.now room) }
    ensures flat { IfNone result (IsFlat program.now.pools) }
{
    if !is_flat(&program.pools) {
        return Some(NOT_FLAT);
    }
    if room < program.chunks.len() {
        return Some(SHORT);
    }
    if !is_within(limit, program.code, program.chunks) {
        return Some(TOO_MUCH_WORK);
    }
    None
}

/// The depths of an accepted program's chunks, or else what is answered, in the memory of a scratch, whatever that was used for
/// before. The report is written.
#[inline(always)]
pub(crate) fn judge(
    alloc: Global,
    scratch: &mut FlatScratch,
    caps: u16,
    limit: u64,
    program: &CProgram<'_>,
    room: usize,
    report: &mut CReport,
) -> Result<Vec<u16>, u32>
    ensures accepted { IfOk result (λ found. Accepts
        caps program.now.code.now program.now.chunks.now program.now.pools found.items) }
    ensures each { IfOk result (λ found. length found.items ≡ length program.now.chunks.now) }
    ensures fits { OnOk result (length program.now.chunks.now ≤ room) }
    ensures answer { IsAnswer caps limit program.now room report.old report.new (status_of result) }
    ensures refused { IfErr result (λ status. status ≢ ACCEPTED) }
{
    if let Some(status) = bar(program, room, limit) {
        return Err(status);
    }
    let caps = Caps::from_bits_retain(caps);
    let mut meter = Meter::new();
    let judged = verdict(
        alloc,
        scratch,
        caps,
        program.code,
        program.chunks,
        &program.pools,
        &mut meter,
    );
    match judged {
        Ok(found) => {
            report.visited = shown(&meter);
            Ok(found)
        }
        Err(Rejection::OutOfMemory) => Err(OUT_OF_MEMORY),
        Err(Rejection::Refused(refusal)) => {
            *report = CReport {
                refusal: refusal_record(refusal.chunk, &refusal.error),
                visited: shown(&meter),
            };
            Err(REFUSED)
        }
    }
}
