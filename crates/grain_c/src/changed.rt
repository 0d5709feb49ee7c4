//! Program files that are written again.
ghost use Rattle.std.specs.Prelude.{◌≤◌, ◌↔◌, IsTrue, length};
ghost use Rattle.grain_c.specs.Changed.{IsPut, IsStripAnswer, IsTightenAnswer};
ghost use Rattle.grain_c.specs.Files.{limits_of};

use crate::files::{limits_of, stopped};
use crate::judge::shown;
use crate::status::{ACCEPTED, NOT_RESTORABLE, REFUSED, SHORT, TOO_LONG, TOO_MUCH_WORK};
use grain_flat::{CReport, refusal_record};
use grain_flat_file::{
    CLimits, CReadError, FileStop, StripStop, Stripped, TightenStop, strip, tighten,
};
use grain_verify::Meter;
use std::alloc::Global;

/// Writes a file in front of the room, and leaves the rest of it.
fn put(room: &mut [u8], file: &[u8])
    requires { length file.now ≤ length room.old }
    ensures { IsPut file.now room.old room.new }
{
    room[..file.len()].copy_from_slice(file);
}

/// Reads a program file within the limits, verifies its program, and writes the file of the same program whose chunks declare
/// their depths. Of as many bytes as were read the room is never too short.
///
/// 0 if it is written, with its size and how many instructions were visited. 2 if the room is too short: then only its size
/// is written. 1 if the program is refused: then the report is written. 9 if the bytes are no file within the limits: then
/// why is written. 5 if the chunks span more bytes of the code than the limit. 3 if the allocator refused.
#[unsafe(no_mangle)]
pub extern "C" fn grain_proved_file_tighten(
    alloc: Global,
    bytes: &[u8],
    limits: &CLimits,
    limit: u64,
    tightened: &mut [u8],
    size: &mut usize,
    error: &mut CReadError,
    report: &mut CReport,
) -> u32
    ensures { IsTightenAnswer (limits_of limits.now) bytes.now limit
        (record { room = tightened.old; size = size.old; error = error.old; report = report.old })
        (record { room = tightened.new; size = size.new; error = error.new; report = report.new })
        result }
{
    let mut meter = Meter::new();
    match tighten(alloc, bytes, &limits_of(limits), limit, &mut meter) {
        Ok(file) => {
            *size = file.len();
            if tightened.len() < file.len() {
                return SHORT;
            }
            put(tightened, &file);
            report.visited = shown(&meter);
            ACCEPTED
        }
        Err(TightenStop::Read(why)) => stopped(&FileStop::Read(why), error),
        Err(TightenStop::TooMuchWork) => TOO_MUCH_WORK,
        Err(TightenStop::Refused(refusal)) => {
            *report = CReport {
                refusal: refusal_record(refusal.chunk, &refusal.error),
                visited: shown(&meter),
            };
            REFUSED
        }
    }
}

/// Whether both files fit.
fn fit(program: &[u8], sidecar: &[u8], files: &Stripped) -> bool
    ensures { IsTrue result ↔ ((length files.now.program.items ≤ length program.now)
        × (length files.now.sidecar.items ≤ length sidecar.now)) }
{
    files.program.len() <= program.len() && files.sidecar.len() <= sidecar.len()
}

/// Reads a program file within the limits, and writes the file of the same program without positions, and their sidecar file. Of
/// as many bytes as were read the room for the program is never too short.
///
/// - 0: both are written, with their sizes.
/// - 2: the room for one of them is too short. Only the sizes are written.
/// - 3: the allocator refused.
/// - 9: the bytes are no file within the limits. The cause is written.
/// - 10: an address above 4294967295 has a position.
/// - 11: the limit on nesting is above 256. This is tested first.
/// - 12: attaching the sidecar wouldn't give the file back.
#[unsafe(no_mangle)]
pub extern "C" fn grain_proved_file_strip(
    alloc: Global,
    bytes: &[u8],
    limits: &CLimits,
    stripped: &mut [u8],
    size: &mut usize,
    sidecar: &mut [u8],
    sidecar_size: &mut usize,
    error: &mut CReadError,
) -> u32
    ensures { IsStripAnswer (limits_of limits.now) bytes.now
        (record {
          room = stripped.old;
          size = size.old;
          sidecar_room = sidecar.old;
          sidecar_size = sidecar_size.old;
          error = error.old;
        })
        (record {
          room = stripped.new;
          size = size.new;
          sidecar_room = sidecar.new;
          sidecar_size = sidecar_size.new;
          error = error.new;
        })
        result }
{
    match strip(alloc, bytes, &limits_of(limits)) {
        Ok(files) => {
            *size = files.program.len();
            *sidecar_size = files.sidecar.len();
            if !fit(stripped, sidecar, &files) {
                return SHORT;
            }
            put(stripped, &files.program);
            put(sidecar, &files.sidecar);
            ACCEPTED
        }
        Err(StripStop::Read(why)) => stopped(&FileStop::Read(why), error),
        Err(StripStop::TooLong) => TOO_LONG,
        Err(StripStop::NotRestorable) => NOT_RESTORABLE,
    }
}
