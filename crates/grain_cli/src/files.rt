//! Files and standard input.

use crate::failure::Failure;
use crate::output::STANDARD;
use grain::{Program, Sidecar};
use grain_file::{FileKind, Limits, ReadError};
use std::alloc::Global;
use std::fs::File;
use std::io;
use std::io::Read;

/// How many bytes an assembly text has at most. It is longer than the file of its program.
const LONGEST_TEXT: usize = 1024 * 1024 * 1024;

/// What a file is called in messages.
pub fn shown(path: &str) -> &str {
    if path == STANDARD {
        "standard input"
    } else {
        path
    }
}

/// Why a file isn't read whole.
fn too_large(alloc: Global, path: &str, limit: usize) -> Failure {
    Failure::of(alloc, shown(path), format_args!("more than {limit} bytes"))
}

/// The bytes of a reader: one more than the limit at most.
fn read_up_to<R: Read + Drop>(alloc: Global, reader: R, limit: usize) -> io::Result<Vec<u8>> {
    let mut bytes = Vec::new(alloc);
    let most = limit.saturating_add(1) as u64;
    reader.take(most).read_to_end(&mut bytes)?;
    Ok(bytes)
}

/// The bytes of a file, or of standard input: one more than the limit at most.
fn front_of(rt: &HostRuntime, path: &str, limit: usize) -> io::Result<Vec<u8>> {
    if path == STANDARD {
        read_up_to(rt.alloc(), rt.stdin(), limit)
    } else {
        read_up_to(rt.alloc(), File::open(rt, path)?, limit)
    }
}

/// The bytes of a file, or of standard input for `-`. No more is read than one byte past the limit.
///
/// # Errors
/// It could not be read, or has more bytes than the limit.
fn read_within(rt: &HostRuntime, path: &str, limit: usize) -> Result<Vec<u8>, Failure> {
    match front_of(rt, path, limit) {
        Ok(bytes) if bytes.len() > limit => Err(too_large(rt.alloc(), path, limit)),
        Ok(bytes) => Ok(bytes),
        Err(error) => Err(Failure::of_input(rt.alloc(), shown(path), error)),
    }
}

/// The bytes of a program file, a sidecar or a script, or of standard input for `-`.
///
/// # Errors
/// It could not be read, or has more than 64 MiB.
pub fn read_bytes(rt: &HostRuntime, path: &str) -> Result<Vec<u8>, Failure> {
    read_within(rt, path, Limits::default().size)
}

/// The text of a file, or of standard input for `-`.
///
/// # Errors
/// It could not be read, has more than 1 GiB, or is not UTF-8.
pub fn read_text(rt: &HostRuntime, path: &str) -> Result<String, Failure> {
    let bytes = read_within(rt, path, LONGEST_TEXT)?;
    match String::from_utf8(bytes) {
        Ok(text) => Ok(text),
        Err(_) => Err(Failure::of(rt.alloc(), shown(path), "the text is not UTF-8")),
    }
}

/// Why bytes are no file: what is wrong, and where.
pub fn unread(alloc: Global, path: &str, error: ReadError) -> Failure {
    match error {
        ReadError::Malformed { at, part, fault } => Failure::of(
            alloc,
            shown(path),
            format_args!("{fault} ({part}, byte {at})"),
        ),
        ReadError::OutOfMemory => Failure::OutOfMemory,
        ReadError::TooLarge { .. } | ReadError::DepthLimit { .. } => Failure::of(
            alloc,
            shown(path),
            error,
        ),
    }
}

/// The program of these bytes.
pub fn program_of(alloc: Global, path: &str, bytes: &[u8]) -> Result<Program, Failure> {
    match grain_file::read(alloc, bytes, &Limits::default()) {
        Ok(program) => Ok(program),
        Err(error) => Err(unread(alloc, path, error)),
    }
}

/// The sidecar of these bytes.
pub fn sidecar_of(alloc: Global, path: &str, bytes: &[u8]) -> Result<Sidecar, Failure> {
    match grain_file::read_sidecar(alloc, bytes, &Limits::default()) {
        Ok(sidecar) => Ok(sidecar),
        Err(error) => Err(unread(alloc, path, error)),
    }
}

/// The program of a file. Nothing says that it is accepted.
pub fn read_program(rt: &HostRuntime, path: &str) -> Result<Program, Failure> {
    let bytes = read_bytes(rt, path)?;
    program_of(rt.alloc(), path, &bytes)
}

fn written(alloc: Global, path: &str, program: &Program) -> Result<Vec<u8>, Failure> {
    match grain_file::write(alloc, program) {
        Ok(bytes) => Ok(bytes),
        Err(grain_file::WriteError::OutOfMemory) => Err(Failure::OutOfMemory),
        Err(error) => Err(Failure::of(alloc, shown(path), error)),
    }
}

/// The file of a program, read once: no subcommand writes a file that the limits of the others refuse.
pub fn file_of(alloc: Global, path: &str, program: &Program) -> Result<Vec<u8>, Failure> {
    let bytes = written(alloc, path, program)?;
    match grain_file::read(alloc, &bytes, &Limits::default()) {
        Ok(_) => Ok(bytes),
        Err(ReadError::OutOfMemory) => Err(Failure::OutOfMemory),
        Err(error) => Err(Failure::of(
            alloc,
            shown(path),
            format_args!("the program file would be refused: {error}"),
        )),
    }
}

/// Whether bytes begin as a sidecar file does.
pub fn is_sidecar(bytes: &[u8]) -> bool {
    grain_file::kind_of(bytes) == Some(FileKind::Sidecar)
}
