//! `grain dump`: the sections of a program file or a sidecar file, with their offsets and sizes.

use clap::ArgMatches;
use grain_cli::arguments::{Argument, FILE, Subcommand};
use grain_cli::failure::Failure;
use grain_cli::files::{is_sidecar, program_of, read_bytes, shown, sidecar_of};
use grain_cli::json_lines::Escaping;
use grain_cli::output::Output;
use grain_cli::overlaps::refuse_input;
use grain_dump::{Dump, JsonDump, TextDump, program_dump, sidecar_dump};
use grain_file::WriteError;

/// `grain dump`
pub const SUBCOMMAND: Subcommand = Subcommand {
    name: "dump",
    about: "Lists the sections of a program file or a sidecar file, with offsets and sizes",
    example: "Example:\n  grain dump -x program.grain",
    arguments: &[
        FILE,
        Argument::Flag {
            name: "hex",
            letter: Some('x'),
            help: "Show the items of each section too, with their bytes and what these spell",
        },
        Argument::Flag {
            name: "json",
            letter: None,
            help: "Write a JSON object, on a line of its own",
        },
        Argument::Output,
    ],
};

/// Writes a dump as text or as JSON.
fn write_dump(
    rt: &HostRuntime,
    to: Option<&str>,
    path: &str,
    bytes: &[u8],
    dump: &Dump<'_>,
    is_json: bool,
) -> Result<(), Failure> {
    let alloc = rt.alloc();
    let output = Output::open(rt, to)?;
    if is_json {
        let mut json = JsonDump::new(alloc, Escaping::new(alloc, output));
        let done = dump.write(alloc, path, bytes, &mut json);
        json.into_inner().into_inner().end(rt, done)
    } else {
        let mut text = TextDump::new(alloc, output);
        let done = dump.write(alloc, path, bytes, &mut text);
        text.into_inner().end(rt, done)
    }
}

/// What is dumped, and how.
#[derive(Clone, Copy)]
struct Request<'a> {
    path: &'a str,
    to: Option<&'a str>,
    has_items: bool,
    is_json: bool,
}

/// Dumps a sidecar.
fn dump_sidecar(rt: &HostRuntime, request: Request<'_>, bytes: &[u8]) -> Result<(), Failure> {
    let sidecar = sidecar_of(rt.alloc(), request.path, bytes)?;
    let dump = sidecar_dump(rt.alloc(), &sidecar, request.has_items)?;
    write_dump(rt, request.to, request.path, bytes, &dump, request.is_json)
}

/// Dumps a program.
fn dump_program(rt: &HostRuntime, request: Request<'_>, bytes: &[u8]) -> Result<(), Failure> {
    let alloc = rt.alloc();
    let Request { path, .. } = request;
    let program = program_of(alloc, path, bytes)?;
    match program_dump(alloc, &program, request.has_items) {
        Ok(dump) => write_dump(rt, request.to, path, bytes, &dump, request.is_json),
        Err(WriteError::OutOfMemory) => Err(Failure::OutOfMemory),
        Err(error) => Err(Failure::of(alloc, shown(path), error)),
    }
}

/// Lists the sections of a file.
pub fn run(rt: &HostRuntime, matches: &ArgMatches<'_>) -> Result<u8, Failure> {
    let request = Request {
        path: matches.get_str("FILE").unwrap_or("-"),
        to: matches.get_str("output"),
        has_items: matches.get_flag("hex"),
        is_json: matches.get_flag("json"),
    };
    refuse_input(rt, request.to, request.path)?;
    let bytes = read_bytes(rt, request.path)?;
    if is_sidecar(&bytes) {
        dump_sidecar(rt, request, &bytes)?;
    } else {
        dump_program(rt, request, &bytes)?;
    }
    Ok(0)
}
