//! Files of one call that must not be the same.

use crate::failure::Failure;
use crate::output::{STANDARD, is_standard};
use std::fs::Metadata;
use std::os::unix::fs::MetadataExt;
use std::{fs, io};

/// The whole path of a file, whether or not it is there.
fn whole_path(rt: &HostRuntime, path: &str) -> io::Result<String> {
    if let Ok(whole) = fs::canonicalize(rt, path) {
        return Ok(String::from_str(rt.alloc(), whole.to_string_lossy())?);
    }
    let (folder, name) = match path.rsplit_once('/') {
        Some(("", name)) => ("/", name),
        Some(parts) => parts,
        None => (".", path),
    };
    let folder = fs::canonicalize(rt, folder)?;
    let folder = folder.to_string_lossy();
    Ok(format!(in rt.alloc(); "{folder}/{name}")?)
}

/// Whether two files that are there are one. Devices and pipes may be written twice.
fn are_one(one: &Metadata, other: &Metadata) -> bool {
    one.is_file() && one.dev() == other.dev() && one.ino() == other.ino()
}

/// Whether what is written at two paths is one file.
fn is_same(rt: &HostRuntime, one: &str, other: &str) -> bool {
    if let (Ok(one), Ok(other)) = (fs::metadata(rt, one), fs::metadata(rt, other)) {
        return are_one(&one, &other);
    }
    match (whole_path(rt, one), whole_path(rt, other)) {
        (Ok(one), Ok(other)) => one.as_str() == other.as_str(),
        _ => one == other,
    }
}

/// Refuses an output that is an input of another kind.
///
/// # Errors
/// It is one, so that it would be overwritten.
pub fn refuse_input(rt: &HostRuntime, output: Option<&str>, input: &str) -> Result<(), Failure> {
    match output {
        Some(path) if path != STANDARD && input != STANDARD && is_same(rt, path, input) => {
            Err(Failure::of_argument(rt.alloc(), path, "this input would be overwritten"))
        }
        _ => Ok(()),
    }
}

/// Refuses two outputs that are one.
///
/// # Errors
/// They are, so that one of them would be lost.
pub fn refuse_twice(
    rt: &HostRuntime,
    output: Option<&str>,
    other: Option<&str>,
) -> Result<(), Failure> {
    let is_one = match (output, other) {
        (Some(output), Some(other)) if output != STANDARD && other != STANDARD => {
            is_same(rt, output, other)
        }
        _ => is_standard(output) && is_standard(other),
    };
    if is_one {
        let path = match output {
            Some(path) if path != STANDARD => path,
            _ => "standard output",
        };
        Err(Failure::of_argument(rt.alloc(), path, "two results would be written to it"))
    } else {
        Ok(())
    }
}
