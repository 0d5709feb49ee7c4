//! Modules that are files.

use crate::sources::text_of;
use grain_cli::arguments::Argument;
use grain_cli::failure::Failure;
use grain_cli::files::read_bytes;
use grain_cli::output::folder_of;
use rhai_compile::Modules;
use std::alloc::{AllocError, Global};
use std::fs;
use std::io::ErrorKind;

/// The argument that names a further folder of modules.
pub const INCLUDE: Argument = Argument::Texts {
    name: "include",
    value: "DIR",
    help: "Look for modules in this folder too, after that of the script (may be repeated)",
};

/// A module that was read.
#[derive(Drop)]
struct Found {
    /// Its name.
    name: String,
    /// Its file.
    path: String,
}

/// Reads the module `name` from the file `name.rhai` of the first folder that has one.
#[derive(Drop)]
pub struct FileModules<'a> {
    rt: &'a HostRuntime,
    /// The folders. The empty text is the current one.
    folders: Vec<&'a str>,
    found: Vec<Found>,
}

/// Why a folder isn't taken.
fn missing(alloc: Global, folder: &str) -> Failure {
    if folder == "" {
        Failure::of_argument(alloc, "--include", "the name of a folder is empty")
    } else {
        Failure::of_argument(alloc, folder, "no such folder (--include)")
    }
}

/// Refuses a folder of modules that isn't there.
///
/// # Errors
/// It isn't a folder, or can't be looked at.
pub fn refuse_missing(rt: &HostRuntime, folder: &str) -> Result<(), Failure> {
    match fs::metadata(rt, folder) {
        Ok(found) if found.is_dir() => Ok(()),
        Err(error) if error.kind() == ErrorKind::OutOfMemory => Err(Failure::OutOfMemory),
        _ => Err(missing(rt.alloc(), folder)),
    }
}

/// The file of a module in a folder.
fn file_in(alloc: Global, folder: &str, name: &str) -> Result<String, AllocError> {
    let slash = if folder == "" || folder.ends_with('/') {
        ""
    } else {
        "/"
    };
    format!(in alloc; "{folder}{slash}{name}.rhai")
}

/// The text of a module.
///
/// # Errors
/// The file can't be read, or is no text.
fn text_at(rt: &HostRuntime, path: &str) -> Result<String, Failure> {
    text_of(rt.alloc(), path, read_bytes(rt, path)?)
}

/// Whether there is a file at a path.
///
/// # Errors
/// The allocator refused.
fn has_file(rt: &HostRuntime, path: &str) -> Result<bool, AllocError> {
    match fs::metadata(rt, path) {
        Ok(found) => Ok(!found.is_dir()),
        Err(error) if error.kind() == ErrorKind::OutOfMemory => Err(AllocError),
        Err(_) => Ok(false),
    }
}

impl<'a> FileModules<'a> {
    /// The modules beside a script, and those of other folders. Those of standard input are in the current folder.
    ///
    /// # Errors
    /// The allocator refused.
    pub fn of(
        rt: &'a HostRuntime,
        script: &'a str,
        others: &[&'a str],
    ) -> Result<FileModules<'a>, AllocError> {
        let alloc = rt.alloc();
        let mut folders = Vec::new(alloc);
        folders.push(folder_of(script))?;
        folders.extend_from_slice(others)?;
        Ok(FileModules {
            rt,
            folders,
            found: Vec::new(alloc),
        })
    }

    /// The file of a module that was read, or its name.
    pub fn path_of<'b>(&'b self, name: &'b str) -> &'b str {
        for found in &self.found {
            if found.name.as_str() == name {
                return found.path.as_str();
            }
        }
        name
    }

    /// The file of a module in the first folder that has one.
    fn sought(&self, name: &str) -> Result<Option<String>, AllocError> {
        for folder in &self.folders {
            let path = file_in(self.rt.alloc(), folder, name)?;
            if has_file(self.rt, path.as_str())? {
                return Ok(Some(path));
            }
        }
        Ok(None)
    }

    /// Notes the file of a module.
    fn note(&mut self, name: &str, path: String) -> Result<(), AllocError> {
        let name = String::from_str(self.rt.alloc(), name)?;
        self.found.push(Found { name, path })?;
        Ok(())
    }
}

/// Whether a name stays in its folder, or in one below: an untrusted script reads no other.
fn is_inside(name: &str) -> bool {
    name.split('/').all(|part| part != "" && part != "..")
}

impl<'a> Modules for FileModules<'a> {
    fn source(&mut self, name: &str) -> Result<Option<String>, AllocError> {
        if !is_inside(name) {
            return Ok(None);
        }
        let Some(path) = self.sought(name)? else {
            return Ok(None);
        };
        let text = text_at(self.rt, path.as_str());
        self.note(name, path)?;
        match text {
            Ok(text) => Ok(Some(text)),
            Err(Failure::OutOfMemory) => Err(AllocError),
            Err(_) => Ok(None),
        }
    }
}
