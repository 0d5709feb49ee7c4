//! Scripts and program files alike.

use crate::modules::{FileModules, refuse_missing};
use crate::sources::{refused, text_of};
use crate::variables::HostVariables;
use clap::ArgMatches;
use grain::{Program, Verified};
use grain_cli::failure::Failure;
use grain_cli::files::{program_of, read_bytes};
use grain_cli::loading::{Allowed, admit, verified_of};
use grain_file::kind_of;
use md5::{Digest, Md5};
use rhai_compile::{LinkError, Options, compile_with};
use std::alloc::{AllocError, Global};

/// What scripts are compiled with, besides their texts and what lies beside them.
#[derive(Drop)]
pub struct Surroundings<'a> {
    /// Further folders of modules.
    folders: Vec<&'a str>,
    /// The variables of the host. If the arguments don't say which it has, it has none.
    variables: Option<HostVariables<'a>>,
}

impl<'a> Surroundings<'a> {
    /// What the arguments of a subcommand say.
    ///
    /// # Errors
    /// A folder isn't there, or a name is none that a variable can have.
    pub fn of(rt: &HostRuntime, matches: &ArgMatches<'a>) -> Result<Surroundings<'a>, Failure> {
        let folders = folders_of(rt, matches)?;
        let variables = match matches.get_str("vars") {
            Some(list) => Some(HostVariables::of(rt.alloc(), list)?),
            None => None,
        };
        Ok(Surroundings { folders, variables })
    }
}

/// The further folders of modules, each of which is there.
fn folders_of<'a>(rt: &HostRuntime, matches: &ArgMatches<'a>) -> Result<Vec<&'a str>, Failure> {
    let mut folders = Vec::new(rt.alloc());
    for folder in matches.get_raw("include").unwrap_or_default() {
        refuse_missing(rt, folder)?;
        folders.push(*folder).map_err(AllocError::from)?;
    }
    Ok(folders)
}

/// The program of a file: of a script, compiled, or of a program file, read. Nothing says that the latter is accepted.
///
/// # Errors
/// The file can't be read, or is neither.
pub fn program_in(
    rt: &HostRuntime,
    surroundings: &Surroundings<'_>,
    path: &str,
) -> Result<Program, Failure> {
    let bytes = read_bytes(rt, path)?;
    if kind_of(&bytes).is_some() {
        program_of(rt.alloc(), path, &bytes)
    } else {
        let script = text_of(rt.alloc(), path, bytes)?;
        Ok(compiled(rt, surroundings, path, script.as_str())?.into_program())
    }
}

/// A program that was verified, and the text of the script that it was compiled from, if it wasn't read from a program file.
#[derive(Drop)]
pub struct Input {
    /// The program.
    pub verified: Verified,
    /// The script.
    pub script: Option<String>,
}

/// The program of a file as [`program_in`], verified once, if a host takes it.
///
/// # Errors
/// As [`program_in`] and [`verified_of`].
pub fn input_in(
    rt: &HostRuntime,
    surroundings: &Surroundings<'_>,
    path: &str,
    allowed: Allowed,
) -> Result<Input, Failure> {
    let bytes = read_bytes(rt, path)?;
    if kind_of(&bytes).is_some() {
        let program = program_of(rt.alloc(), path, &bytes)?;
        let verified = verified_of(rt.alloc(), path, allowed, program)?;
        return Ok(Input {
            verified,
            script: None,
        });
    }
    let script = text_of(rt.alloc(), path, bytes)?;
    let verified = compiled(rt, surroundings, path, script.as_str())?;
    admit(rt.alloc(), path, allowed, verified.program())?;
    Ok(Input {
        verified,
        script: Some(script),
    })
}

/// The program of a script, and of its modules.
///
/// # Errors
/// It or a module can't be compiled, or uses a variable that the host doesn't have.
pub fn compiled(
    rt: &HostRuntime,
    surroundings: &Surroundings<'_>,
    path: &str,
    script: &str,
) -> Result<Verified, Failure> {
    let verified = linked(rt, surroundings, path, script)?;
    if let Some(variables) = &surroundings.variables {
        variables.admit(rt.alloc(), path, script, verified.program())?;
    }
    Ok(verified)
}

/// The program of a script, and of its modules. If the host has variables, any others are taken for such.
fn linked(
    rt: &HostRuntime,
    surroundings: &Surroundings<'_>,
    path: &str,
    script: &str,
) -> Result<Verified, Failure> {
    let options = Options {
        strict_variables: surroundings.variables.is_none(),
        debug_id: u128::from_le_bytes(digest_of(script.as_bytes())),
    };
    let mut modules = FileModules::of(rt, path, &surroundings.folders)?;
    match compile_with(rt.alloc(), script, &options, &mut modules) {
        Ok(verified) => Ok(verified),
        Err(stopped) => Err(refused_text(rt.alloc(), path, script, &modules, stopped)),
    }
}

/// Why a script or a module can't be compiled, with the file in which the error is.
fn refused_text(
    alloc: Global,
    path: &str,
    script: &str,
    modules: &FileModules<'_>,
    stopped: LinkError,
) -> Failure {
    let error = stopped.error;
    match &stopped.module {
        Some(module) => {
            let path = modules.path_of(module.name.as_str());
            refused(alloc, path, module.source.as_str(), error)
        }
        None => refused(alloc, path, script, error),
    }
}

/// The number of a script, by which a sidecar knows its program again.
fn digest_of(source: &[u8]) -> [u8; 16] {
    let mut hasher = Md5::new();
    hasher.update(source);
    hasher.finalize()
}
