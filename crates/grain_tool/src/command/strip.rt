//! `grain strip` and `grain attach`: positions apart from their program, and back.

use clap::ArgMatches;
use grain::{Program, Sidecar, TableError};
use grain_cli::arguments::{Argument, FILE, Subcommand};
use grain_cli::failure::Failure;
use grain_cli::files::{file_of, read_bytes, read_program, shown, sidecar_of};
use grain_cli::output::{STANDARD, write_binary, write_both};
use grain_cli::overlaps::{refuse_input, refuse_twice};
use std::alloc::Global;

/// `grain strip`
pub const STRIP: Subcommand = Subcommand {
    name: "strip",
    about: "Takes the positions of a program into a file of their own",
    example: "Example:\n  grain strip program.grain --sidecar program.pos -o small.grain",
    arguments: &[
        FILE,
        Argument::Text {
            name: "sidecar",
            value: "SIDECAR",
            is_required: true,
            help: "Write the positions to this file",
        },
        Argument::Output,
    ],
};

/// `grain attach`
pub const ATTACH: Subcommand = Subcommand {
    name: "attach",
    about: "Gives a program the positions of a sidecar file",
    example: "Example:\n  grain attach small.grain program.pos -o program.grain",
    arguments: &[
        FILE,
        Argument::Word {
            name: "SIDECAR",
            help: "The file with the positions",
        },
        Argument::Output,
    ],
};

/// The sidecar of a program. Positions that it would not give back are refused.
fn restorable(alloc: Global, path: &str, program: &Program) -> Result<Sidecar, Failure> {
    let sidecar = match program.sidecar() {
        Ok(sidecar) => sidecar,
        Err(error) => return Err(Failure::of(alloc, shown(path), error)),
    };
    if program.is_restored_by(&sidecar)? {
        Ok(sidecar)
    } else {
        Err(Failure::of(
            alloc,
            shown(path),
            "a sidecar cannot restore these positions: there is one where no instruction begins, or none at all",
        ))
    }
}

/// Takes the positions off a program: its file without them, and theirs.
fn apart(alloc: Global, path: &str, program: &mut Program) -> Result<(Vec<u8>, Vec<u8>), Failure> {
    let sidecar = restorable(alloc, path, program)?;
    // The sidecar fitted once already, so this cannot fail for another reason than memory.
    if program.strip_positions().is_err() {
        return Err(Failure::OutOfMemory);
    }
    let table = grain_file::write_sidecar(alloc, &sidecar)?;
    Ok((file_of(alloc, path, program)?, table))
}

/// The file of a program without its positions, and theirs.
fn both_of(rt: &HostRuntime, path: &str) -> Result<(Vec<u8>, Vec<u8>), Failure> {
    let mut program = read_program(rt, path)?;
    apart(rt.alloc(), path, &mut program)
}

/// Takes positions off a program.
pub fn strip(rt: &HostRuntime, matches: &ArgMatches<'_>) -> Result<u8, Failure> {
    let path = matches.get_str("FILE").unwrap_or("-");
    let to = matches.get_str("output");
    let sidecar = matches.get_str("sidecar").unwrap_or(STANDARD);
    // The program may replace its own file, but its positions may not.
    refuse_input(rt, Some(sidecar), path)?;
    refuse_twice(rt, Some(sidecar), to)?;
    let (bytes, table) = both_of(rt, path)?;
    write_both(rt, (sidecar, &table), (to, &bytes))?;
    Ok(0)
}

/// The sidecar of a file.
fn read_sidecar(rt: &HostRuntime, path: &str) -> Result<Sidecar, Failure> {
    let bytes = read_bytes(rt, path)?;
    sidecar_of(rt.alloc(), path, &bytes)
}

/// Why the positions aren't those of a program. Its number is shown as everywhere else, in decimal.
fn unattached(alloc: Global, from: &str, error: TableError) -> Failure {
    match error {
        TableError::OutOfMemory => Failure::OutOfMemory,
        TableError::WrongProgram { expected, found } => Failure::of(
            alloc,
            shown(from),
            format_args!("the positions are of program {expected}, and this is program {found}"),
        ),
        error => Failure::of(alloc, shown(from), error),
    }
}

/// The file of a program with the positions of a sidecar file.
fn attached(rt: &HostRuntime, path: &str, from: &str) -> Result<Vec<u8>, Failure> {
    let mut program = read_program(rt, path)?;
    let sidecar = read_sidecar(rt, from)?;
    match program.attach_positions(&sidecar) {
        Ok(()) => file_of(rt.alloc(), path, &program),
        Err(error) => Err(unattached(rt.alloc(), from, error)),
    }
}

/// Gives a program its positions.
pub fn attach(rt: &HostRuntime, matches: &ArgMatches<'_>) -> Result<u8, Failure> {
    let path = matches.get_str("FILE").unwrap_or("-");
    let from = matches.get_str("SIDECAR").unwrap_or("-");
    let to = matches.get_str("output");
    if path == STANDARD && from == STANDARD {
        return Err(Failure::of_argument(
            rt.alloc(),
            "standard input",
            "two files would be read from it",
        ));
    }
    refuse_input(rt, to, from)?;
    let bytes = attached(rt, path, from)?;
    write_binary(rt, to, &bytes)?;
    Ok(0)
}
