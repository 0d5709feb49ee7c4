//! `grain compile`: the program file of a script.

use clap::ArgMatches;
use grain::Program;
use grain_cli::arguments::{Argument, FILE, Subcommand};
use grain_cli::failure::Failure;
use grain_cli::files::{file_of, read_bytes, shown};
use grain_cli::output::{STANDARD, write_binary, write_both};
use grain_cli::overlaps::{refuse_input, refuse_twice};
use grain_scripts::modules::INCLUDE;
use grain_scripts::scripts::{Surroundings, compiled};
use grain_scripts::sources::text_of;
use grain_scripts::variables::VARS;
use std::alloc::Global;

/// `grain compile`
pub const SUBCOMMAND: Subcommand = Subcommand {
    name: "compile",
    about: "Compiles a script into a program file",
    example: "Example:\n  grain compile script.rhai -o script.grain",
    arguments: &[
        FILE,
        Argument::Output,
        Argument::Flag {
            name: "strip",
            letter: None,
            help: "Leave the positions out of the program",
        },
        Argument::Text {
            name: "sidecar",
            value: "FILE",
            is_required: false,
            help: "Write the positions to this file, and leave them out of the program",
        },
        Argument::Flag {
            name: "no-source",
            letter: None,
            help: "Leave the name of the script out of the program",
        },
        INCLUDE,
        VARS,
    ],
};

/// What is made of a script, besides its program.
#[derive(Clone, Copy)]
struct Wanted {
    /// The positions in a file of their own.
    sidecar: bool,
    /// No positions in the program.
    stripped: bool,
    /// The name of the script in the program.
    source: bool,
}

/// Takes the positions off a program: the sidecar file of them.
fn strip(alloc: Global, path: &str, program: &mut Program) -> Result<Vec<u8>, Failure> {
    match program.strip_positions() {
        Ok(positions) => Ok(grain_file::write_sidecar(alloc, &positions)?),
        Err(error) => Err(Failure::of(alloc, shown(path), error)),
    }
}

/// The program of a script, with the name of the script if the arguments say so and it has one.
fn program_of(
    rt: &HostRuntime,
    surroundings: &Surroundings<'_>,
    path: &str,
    wanted: Wanted,
) -> Result<Program, Failure> {
    let script = text_of(rt.alloc(), path, read_bytes(rt, path)?)?;
    let mut program = compiled(rt, surroundings, path, script.as_str())?.into_program();
    if wanted.source && path != STANDARD {
        let name = String::from_str(rt.alloc(), path)?;
        let _named = program.set_source(name);
    }
    Ok(program)
}

/// The program file of a script, and the sidecar file, empty if the positions stay.
fn made(
    rt: &HostRuntime,
    surroundings: &Surroundings<'_>,
    path: &str,
    wanted: Wanted,
) -> Result<(Vec<u8>, Vec<u8>), Failure> {
    let alloc = rt.alloc();
    let mut program = program_of(rt, surroundings, path, wanted)?;
    let table = if wanted.stripped || wanted.sidecar {
        strip(alloc, path, &mut program)?
    } else {
        Vec::new(alloc)
    };
    Ok((file_of(alloc, path, &program)?, table))
}

/// Compiles a script.
pub fn run(rt: &HostRuntime, matches: &ArgMatches<'_>) -> Result<u8, Failure> {
    let path = matches.get_str("FILE").unwrap_or("-");
    let to = matches.get_str("output");
    let sidecar = matches.get_str("sidecar");
    let surroundings = Surroundings::of(rt, matches)?;
    let wanted = Wanted {
        sidecar: sidecar.is_some(),
        stripped: matches.get_flag("strip"),
        source: !matches.get_flag("no-source"),
    };
    refuse_input(rt, to, path)?;
    refuse_input(rt, sidecar, path)?;
    if sidecar.is_some() {
        refuse_twice(rt, sidecar, to)?;
    }
    let (bytes, table) = made(rt, &surroundings, path, wanted)?;
    match sidecar {
        Some(sidecar) => write_both(rt, (sidecar, &table), (to, &bytes))?,
        None => write_binary(rt, to, &bytes)?,
    }
    Ok(0)
}
