//! Sessions that are made and freed.
ghost use Rattle.std.specs.Prelude.{◌≡◌, ◌≢◌, ◌<◌, ◌↔◌, ◌++◌, None, [], true, false, drop, length};
ghost use Rattle.grain.specs.Program.{input_of};
ghost use Rattle.grain_rules.specs.Accepted.{IsAccepted};
ghost use Rattle.rhai_engine.specs.Session.{idle};
ghost use Rattle.rhai_session.specs.Shown.{shown_of};
ghost use Rattle.grain_engine_c.specs.Files.{IsWrittenFile};

use crate::handle::CSession;
use crate::records::{CBounds, bounds_of};
use crate::shown::copy_text;
use crate::status::{
    ACCEPTED, BAD_LIMIT, FOREIGN_CONSTANT, MALFORMED, NO_SCRIPT, NOT_NOW, OUT_OF_MEMORY, REFUSED,
    SHORT, TOO_MUCH_WORK,
};
use grain_base::{Caps, Flags};
use grain_file::{Limits, MAX_DEPTH, ReadError, WriteError};
use grain_flat::{CReport, lack_record, refusal_record};
use grain_flat_file::{CLimits, CReadError, read_error_record};
use rhai_session::{CModuleText, CompileStop, LoadStop, Session};
use rhai_values::Cause;
use std::alloc::Global;

/// Has the handle keep a session. What it kept before is freed.
fn kept(alloc: Global, session: &mut CSession, made: Session) -> u32
    ensures accepted { result ≡ ACCEPTED
        → (session.new.made ≡ true) × (session.new.content ≡ made) }
    ensures refused { result ≢ ACCEPTED → (result ≡ OUT_OF_MEMORY) × (session.new ≡ session.old) }
{
    match Box::new(alloc, made) {
        Ok(made) => {
            session.keep(alloc, made);
            ACCEPTED
        }
        Err(_) => OUT_OF_MEMORY,
    }
}

/// What is returned if a text isn't compiled. A report is written.
fn not_compiled(stop: CompileStop, text: &mut [u8], size: &mut usize) -> u32
    ensures { (result ≢ ACCEPTED) × (result ≢ BAD_LIMIT) }
{
    match stop {
        CompileStop::NoScript(report) => {
            *size = copy_text(report.as_str(), text);
            NO_SCRIPT
        }
        CompileStop::OutOfMemory => OUT_OF_MEMORY,
    }
}

/// Compiles a source text, and has the handle keep a session of it. What the handle kept before is freed.
///
/// - 0: the handle keeps it.
/// - 3: the allocator refused.
/// - 11: the bound on nesting is above 256. This is tested first.
/// - 13: the text has an error. A report of `size` bytes is written to `text`, as far as there is room, and ended by 0.
#[unsafe(no_mangle)]
pub extern "C" fn grain_proved_session_compile(
    alloc: Global,
    session: &mut CSession,
    source: &[u8],
    bounds: &CBounds,
    text: &mut [u8],
    size: &mut usize,
) -> u32
    ensures bound { (result ≡ BAD_LIMIT) ↔ (MAX_DEPTH < bounds.now.value_depth) }
    ensures accepted { result ≡ ACCEPTED → (session.new.made ≡ true)
        × IsAccepted (input_of session.new.content.state.program) }
    ensures new { result ≡ ACCEPTED → session.new.content ≡ shown_of
        (idle session.new.content.state.program bounds.now.calls bounds.now.runs) None [] [] 0 [] None }
    ensures refused { result ≢ ACCEPTED → session.new ≡ session.old }
{
    if bounds.value_depth > MAX_DEPTH as usize {
        return BAD_LIMIT;
    }
    match Session::compile(alloc, source, bounds_of(bounds)) {
        Ok(made) => kept(alloc, session, made),
        Err(stop) => not_compiled(stop, text, size),
    }
}

/// Compiles a source text and the modules of a table that it imports, and has the handle keep a session of it. What the handle kept
/// before is freed.
///
/// - 0: the handle keeps it.
/// - 3: the allocator refused.
/// - 11: the bound on nesting is above 256. This is tested first.
/// - 13: the text, a module that it imports or the table has an error. A report of `size` bytes is written to `text`, as far as there
///   is room, and ended by 0.
#[unsafe(no_mangle)]
pub extern "C" fn grain_proved_session_compile_modules(
    alloc: Global,
    session: &mut CSession,
    source: &[u8],
    modules: &[CModuleText<'_>],
    bounds: &CBounds,
    text: &mut [u8],
    size: &mut usize,
) -> u32
    ensures bound { (result ≡ BAD_LIMIT) ↔ (MAX_DEPTH < bounds.now.value_depth) }
    ensures accepted { result ≡ ACCEPTED → (session.new.made ≡ true)
        × IsAccepted (input_of session.new.content.state.program) }
    ensures new { result ≡ ACCEPTED → session.new.content ≡ shown_of
        (idle session.new.content.state.program bounds.now.calls bounds.now.runs) None [] [] 0 [] None }
    ensures refused { result ≢ ACCEPTED → session.new ≡ session.old }
{
    if bounds.value_depth > MAX_DEPTH as usize {
        return BAD_LIMIT;
    }
    match Session::compile_modules(alloc, source, modules, bounds_of(bounds)) {
        Ok(made) => kept(alloc, session, made),
        Err(stop) => not_compiled(stop, text, size),
    }
}

/// What is returned if a file isn't loaded. Why is written.
fn stopped(stop: LoadStop, host: Caps, error: &mut CReadError, report: &mut CReport) -> u32
    ensures { result ≢ ACCEPTED }
{
    match stop {
        LoadStop::Read(ReadError::DepthLimit { .. }) => BAD_LIMIT,
        LoadStop::Read(why) => match read_error_record(&why) {
            Some(record) => {
                *error = record;
                MALFORMED
            }
            None => OUT_OF_MEMORY,
        },
        LoadStop::Lacks(missing) => {
            *report = CReport {
                refusal: lack_record(missing, host),
                visited: 0,
            };
            REFUSED
        }
        LoadStop::Work => TOO_MUCH_WORK,
        LoadStop::Refused(refusal) => {
            *report = CReport {
                refusal: refusal_record(refusal.chunk, &refusal.error),
                visited: 0,
            };
            REFUSED
        }
        LoadStop::Constant => FOREIGN_CONSTANT,
        LoadStop::OutOfMemory => OUT_OF_MEMORY,
    }
}

/// Reads and verifies a program file, and has the handle keep a session of it. What the handle kept before is freed.
///
/// - 0: the handle keeps it.
/// - 1: the program is refused. The refusal is written.
/// - 3: the allocator refused.
/// - 5: the chunks span more of the code than the limit allows.
/// - 9: the bytes are no file within the limits. The cause is written.
/// - 11: the limit or the bound on nesting is above 256. This is tested first.
/// - 17: a constant is a value of another host.
#[unsafe(no_mangle)]
pub extern "C" fn grain_proved_session_load(
    alloc: Global,
    session: &mut CSession,
    bytes: &[u8],
    host: u16,
    work: u64,
    limits: &CLimits,
    bounds: &CBounds,
    error: &mut CReadError,
    report: &mut CReport,
) -> u32
    ensures bound { MAX_DEPTH < bounds.now.value_depth → result ≡ BAD_LIMIT }
    ensures accepted { result ≡ ACCEPTED → (session.new.made ≡ true)
        × IsAccepted (input_of session.new.content.state.program) }
    ensures new { result ≡ ACCEPTED → session.new.content ≡ shown_of
        (idle session.new.content.state.program bounds.now.calls bounds.now.runs) None [] [] 0 [] None }
    ensures refused { result ≢ ACCEPTED → session.new ≡ session.old }
{
    if bounds.value_depth > MAX_DEPTH as usize {
        return BAD_LIMIT;
    }
    let host = Caps::from_bits_retain(host);
    let limits = Limits {
        size: limits.size,
        depth: limits.depth,
        cases: limits.cases,
    };
    match Session::load(alloc, bytes, host, work, &limits, bounds_of(bounds)) {
        Ok(made) => kept(alloc, session, made),
        Err(stop) => stopped(stop, host, error, report),
    }
}

/// Has the handle keep another session of the program that `from` keeps one of. Both share the program.
///
/// - 0: the handle keeps it. What it kept before is freed.
/// - 3: the allocator refused.
/// - 11: the bound on nesting is above 256. This is tested first.
/// - 15: `from` keeps nothing.
#[unsafe(no_mangle)]
pub extern "C" fn grain_proved_session_another(
    alloc: Global,
    session: &mut CSession,
    from: &mut CSession,
    bounds: &CBounds,
) -> u32
    ensures from { (from.new.made ≡ from.old.made)
        × (from.old.made ≡ true → from.new.content ≡ from.old.content) }
    ensures bound { (result ≡ BAD_LIMIT) ↔ (MAX_DEPTH < bounds.now.value_depth) }
    ensures empty { from.old.made ≡ false → result ≢ ACCEPTED }
    ensures accepted { result ≡ ACCEPTED → (session.new.made ≡ true)
        × (session.new.content.state.program ≡ from.old.content.state.program) }
    ensures new { result ≡ ACCEPTED → session.new.content ≡ shown_of
        (idle session.new.content.state.program bounds.now.calls bounds.now.runs) None [] [] 0 [] None }
    ensures refused { result ≢ ACCEPTED → session.new ≡ session.old }
{
    if bounds.value_depth > MAX_DEPTH as usize {
        return BAD_LIMIT;
    }
    let Some(first) = from.take(alloc) else {
        return NOT_NOW;
    };
    let made = first.another(bounds_of(bounds));
    from.keep(alloc, first);
    match made {
        Ok(made) => kept(alloc, session, made),
        Err(Cause::OutOfMemory) => OUT_OF_MEMORY,
        Err(_) => FOREIGN_CONSTANT,
    }
}

/// Copies all bytes to a list, if it has room for them.
fn copied_whole(from: &[u8], to: &mut [u8]) -> u32
    ensures copied { result ≡ ACCEPTED → to.new ≡ from.now ++ drop (length from.now) to.old }
    ensures short { result ≢ ACCEPTED
        → (result ≡ SHORT) × ((to.new ≡ to.old) × (length to.old < length from.now)) }
{
    if to.len() < from.len() {
        return SHORT;
    }
    to[..from.len()].copy_from_slice(from);
    ACCEPTED
}

/// Writes the program file of what the handle keeps, and its size.
///
/// - 0: it is written.
/// - 2: only the size is written, and there is less room.
/// - 3: the allocator refused.
/// - 15: the handle keeps nothing.
/// - 17: no file keeps the program.
#[unsafe(no_mangle)]
pub extern "C" fn grain_proved_session_file(
    alloc: Global,
    session: &mut CSession,
    file: &mut [u8],
    size: &mut usize,
) -> u32
    ensures made { session.new.made ≡ session.old.made }
    ensures empty { session.old.made ≡ false → result ≡ NOT_NOW }
    ensures kept { session.old.made ≡ true → session.new.content ≡ session.old.content }
    ensures written { result ≡ ACCEPTED
        → IsWrittenFile session.old.content.state.program file.old file.new size.new }
    ensures short { result ≡ SHORT → (file.new ≡ file.old) × (length file.old < size.new) }
{
    let Some(kept) = session.take(alloc) else {
        return NOT_NOW;
    };
    let written = kept.file();
    session.keep(alloc, kept);
    match written {
        Ok(bytes) => {
            *size = bytes.len();
            copied_whole(&bytes, file)
        }
        Err(WriteError::OutOfMemory) => OUT_OF_MEMORY,
        Err(WriteError::Unkept(_)) => FOREIGN_CONSTANT,
    }
}

/// Frees what the handle keeps. It may be used again.
#[unsafe(no_mangle)]
pub extern "C" fn grain_proved_session_free(alloc: Global, session: &mut CSession)
    ensures { session.new.made ≡ false }
{
    session.clear(alloc);
}
