//! Program files.
ghost use Rattle.std.specs.Prelude.{◌≡◌, ◌≢◌, ◌≤◌, true, false};
ghost use Rattle.grain.specs.Program.{Program, input_of};
ghost use Rattle.grain_c.specs.Files.{IsFileAnswer, IsReadAnswer, IsStopAnswer, limits_of};
ghost use Rattle.grain_file.specs.Loading.{IsFileOf, IsLoadable};
ghost use Rattle.grain_flat_file.specs.Contents.{AreContents};
ghost use Rattle.grain_rules.specs.Accepted.{IsAccepted};
ghost use Rattle.grain_rules.specs.Capabilities.{Allows};

use crate::handle::{CScratch, keep, take};
use crate::held::CHeldFile;
use crate::status::{ACCEPTED, BAD_LIMIT, MALFORMED, OUT_OF_MEMORY, REFUSED, TOO_LONG};
use crate::text::print;
use crate::verify::verify_in;
use arrayvec::ArrayString;
use grain_base::{Caps, Flags};
use grain_file::{Limits, ReadError};
use grain_flat::{CReport, FlatScratch, lack_record};
use grain_flat_file::{
    CContents, CLimits, CReadError, FileStop, read_error_of, read_error_record, read_flat,
};
use std::alloc::Global;
use std::fmt::Write;

/// The limits on files.
pub(crate) fn limits_of(limits: &CLimits) -> Limits
    ensures { result ≡ limits_of limits.now }
{
    Limits {
        size: limits.size,
        depth: limits.depth,
        cases: limits.cases,
    }
}

/// What is answered if a file isn't read. Why it is none is written.
pub(crate) fn stopped(stop: &FileStop, error: &mut CReadError) -> u32
    ensures { IsStopAnswer stop.now error.old error.new result }
{
    match stop {
        FileStop::TooLong => TOO_LONG,
        FileStop::Read(ReadError::DepthLimit { .. }) => BAD_LIMIT,
        FileStop::Read(why) => match read_error_record(why) {
            Some(said) => {
                *error = said;
                MALFORMED
            }
            None => OUT_OF_MEMORY,
        },
    }
}

/// Reads a file into the handle.
fn read_into(
    alloc: Global,
    file: &mut CHeldFile,
    bytes: &[u8],
    limits: &CLimits,
    error: &mut CReadError,
) -> u32
    ensures read { result ≡ ACCEPTED → (file.new.made ≡ true)
        × IsFileOf (limits_of limits.now) bytes.now file.new.content }
    ensures answer { IsReadAnswer
        (limits_of limits.now) bytes.now error.old error.new result }
{
    let limits = limits_of(limits);
    let read = match read_flat(alloc, bytes, &limits) {
        Ok(read) => read,
        Err(stop) => return stopped(&stop, error),
    };
    match Box::new(alloc, read) {
        Ok(read) => {
            file.keep(alloc, read);
            ACCEPTED
        }
        Err(_) => OUT_OF_MEMORY,
    }
}

/// Reads a program file within the limits.
///
/// - 0: the handle keeps the file, and its contents are written. They stay until the handle is freed or used again. What the
///   handle kept before is freed.
/// - 3: the allocator refused.
/// - 9: the bytes are no file within the limits. The cause is written.
/// - 10: a list of the file has 4294967296 entries or more, or a text or a blob has as many bytes.
/// - 11: the limit on nesting is above 256. This is tested first.
#[unsafe(no_mangle)]
pub extern "C" fn grain_proved_file_read<'a>(
    alloc: Global,
    file: &'a mut CHeldFile,
    bytes: &[u8],
    limits: &CLimits,
    contents: &mut CContents<'a>,
    error: &mut CReadError,
) -> u32
    // What is written is what the program has that the bytes are a file of.
    ensures read { result ≡ ACCEPTED → (p : Program)
        × IsFileOf (limits_of limits.now) bytes.now p × AreContents p contents.new }

    // When each other status is answered, and what is written then.
    ensures answer { IsReadAnswer
        (limits_of limits.now) bytes.now error.old error.new result }

    // What stays as it was.
    ensures kept { result ≢ ACCEPTED → contents.new ≡ contents.old }
{
    let status = read_into(alloc, file, bytes, limits, error);
    if status != ACCEPTED {
        return status;
    }
    match file.kept() {
        Some(read) => {
            *contents = read.contents();
            ACCEPTED
        }
        None => unreachable!(),
    }
}

/// Frees what the handle keeps. It may be used again.
#[unsafe(no_mangle)]
pub extern "C" fn grain_proved_file_free(alloc: Global, file: &mut CHeldFile)
    ensures { file.new.made ≡ false }
{
    file.clear(alloc);
}

/// Verifies what a file has, in the memory of a scratch.
fn verify_file_in(
    alloc: Global,
    scratch: &mut FlatScratch,
    contents: &CContents<'_>,
    host: u16,
    limit: u64,
    depths: &mut [u16],
    report: &mut CReport,
) -> u32
    ensures { IsFileAnswer
        contents.now host limit depths.old depths.new report.old report.new result }
{
    let host = Caps::from_bits_retain(host);
    let missing = Caps::from_bits_retain(contents.caps).difference(host);
    if !missing.is_empty() {
        *report = CReport {
            refusal: lack_record(missing, host),
            visited: 0,
        };
        return REFUSED;
    }
    verify_in(
        alloc,
        scratch,
        contents.caps,
        limit,
        &contents.program,
        depths,
        report,
    )
}

/// Verifies the program of a file for a host with these capabilities, in the memory of a scratch.
///
/// First is tested that the host has the capabilities that the program declares: otherwise 1, with those that are missing. Then
/// it is verified under those that it declares, as `grain_proved_verify_with` does.
#[unsafe(no_mangle)]
pub extern "C" fn grain_proved_file_verify(
    alloc: Global,
    scratch: &mut CScratch,
    contents: &CContents<'_>,
    host: u16,
    limit: u64,
    depths: &mut [u16],
    report: &mut CReport,
) -> u32
    // The headline, of the program that has these contents.
    ensures accepted { result ≡ ACCEPTED → (p : Program) → AreContents p contents.now
        → Allows host p.caps.0 × IsAccepted (input_of p) }
    ensures accepts { result ≡ REFUSED → (p : Program) → AreContents p contents.now
        → IsLoadable host p → ⊥ }

    // Which depths and refusals are written, and the other answers.
    ensures answer { IsFileAnswer
        contents.now host limit depths.old depths.new report.old report.new result }
{
    match take(alloc, scratch).or_else(|| Box::new(alloc, FlatScratch::new(alloc)).ok()) {
        Some(mut kept) => {
            let status = verify_file_in(alloc, &mut kept, contents, host, limit, depths, report);
            keep(alloc, scratch, kept);
            status
        }
        // Without memory for what is kept, nothing is.
        None => verify_file_in(
            alloc,
            &mut FlatScratch::new(alloc),
            contents,
            host,
            limit,
            depths,
            report,
        ),
    }
}

/// Writes why bytes are no file, as a line, as `grain_proved_refusal_text` does. 0: the record says nothing of files.
#[unsafe(no_mangle)]
pub extern "C" fn grain_proved_read_error_text(error: &CReadError, text: &mut [u8]) -> usize
    ensures kept { result ≡ 0 → text.new ≡ text.old }
    ensures short { result ≤ 128 }
{
    let Some(error) = read_error_of(error) else {
        return 0;
    };
    let mut line = ArrayString::<128>::new();
    if write!(line, "{error}").is_err() || line.is_empty() {
        return 0;
    }
    print(text, line.as_bytes())
}
