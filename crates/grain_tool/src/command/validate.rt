//! `grain validate`: whether program files are accepted.

use crate::command::list::explained;
use clap::ArgMatches;
use grain::{Caps, Flags, Program, Refusal, Rejected, Verified, VerifyError};
use grain_cli::arguments::{Argument, Subcommand};
use grain_cli::failure::Failure;
use grain_cli::files::{read_bytes, shown, unread};
use grain_cli::json_lines::{line_of, writer};
use grain_cli::loading::{Allowed, Obstacle, WORK, allowed_of, obstacle_before, sentence_of};
use grain_cli::output::write_standard;
use grain_cli::places::{push_spot, spot_of};
use grain_cli::refusal_object::{write_malformed, write_obstacle};
use grain_file::{Limits, ReadError, read};
use grain_listing::{
    Colours, Kind, Naming, Paint, Style, name_of, push_name, push_shown, write_chunk,
};
use json::Writer;
use std::alloc::{AllocError, Global};

/// What is reported, and how.
#[derive(Clone, Copy)]
struct Report {
    allowed: Allowed,
    paint: Paint,
    depths: bool,
    explain: bool,
    json: bool,
}

/// `grain validate`
pub const SUBCOMMAND: Subcommand = Subcommand {
    name: "validate",
    about: "Says whether program files are accepted, and why not",
    example: "Example:\n  grain validate --caps \"FUNCTION | ARRAY\" -v program.grain",
    arguments: &[
        Argument::Words {
            name: "FILE",
            help: "The files, or - for standard input",
        },
        Argument::Text {
            name: "caps",
            value: "CAPS",
            is_required: false,
            help: "Capabilities of the host, as in \"ARRAY | MAP\"; all where this is left out",
        },
        Argument::Flag {
            name: "numbers",
            letter: Some('v'),
            help: "Print the operands that each function needs",
        },
        Argument::Flag {
            name: "explain",
            letter: None,
            help: "List the refused chunk of a program, with the path to its flaw",
        },
        Argument::Flag {
            name: "json",
            letter: None,
            help: "Write a JSON object for each file, on a line of its own",
        },
        WORK,
        Argument::Colour {
            help: "Colour what is printed",
        },
    ],
};

/// What is known of a file.
#[derive(Drop)]
enum Found {
    /// It is accepted.
    Accepted(Verified),
    /// The host doesn't take it.
    Refused(Program, Obstacle),
    /// It is no program file.
    Malformed(ReadError),
    /// It could not be read.
    Unread(Failure),
}

/// What is known of a program.
fn judged(allowed: Allowed, program: Program) -> Result<Found, Failure> {
    if let Some(obstacle) = obstacle_before(allowed, &program) {
        return Ok(Found::Refused(program, obstacle));
    }
    match program.into_verified() {
        Ok(verified) => Ok(Found::Accepted(verified)),
        Err(Rejected { program, refusal }) => match refusal.error {
            VerifyError::OutOfMemory => Err(Failure::OutOfMemory),
            _ => Ok(Found::Refused(program, Obstacle::Refused(refusal))),
        },
    }
}

/// What is known of the program of these bytes.
fn judged_bytes(alloc: Global, allowed: Allowed, bytes: &[u8]) -> Result<Found, Failure> {
    match read(alloc, bytes, &Limits::default()) {
        Ok(program) => judged(allowed, program),
        Err(ReadError::OutOfMemory) => Err(Failure::OutOfMemory),
        Err(error) => Ok(Found::Malformed(error)),
    }
}

/// What is known of a file.
fn found_of(rt: &HostRuntime, allowed: Allowed, path: &str) -> Result<Found, Failure> {
    match read_bytes(rt, path) {
        Ok(bytes) => judged_bytes(rt.alloc(), allowed, &bytes),
        Err(Failure::OutOfMemory) => Err(Failure::OutOfMemory),
        Err(failure) => Ok(Found::Unread(failure)),
    }
}

/// The listing of a refused chunk.
fn explanation_of(
    alloc: Global,
    paint: Paint,
    program: &Program,
    chunk: usize,
) -> Result<String, AllocError> {
    let listing = explained(alloc, program)?;
    let naming = Naming::Program(program);
    let mut text = String::new(alloc);
    write_chunk(Style { paint, naming }, &listing, chunk, &mut text)?;
    Ok(text)
}

/// Lists the refused chunk, if the arguments say so.
fn explain(
    rt: &HostRuntime,
    report: Report,
    program: &Program,
    obstacle: &Obstacle,
) -> Result<(), Failure> {
    match obstacle {
        Obstacle::Refused(
            Refusal {
                chunk: Some(chunk),
                ..
            },
        ) if report.explain => {
            let text = explanation_of(rt.alloc(), report.paint, program, *chunk)?;
            write_standard(rt, text.as_bytes())
        }
        _ => Ok(()),
    }
}

/// Why a program isn't accepted: the sentence, and the place.
fn sentence(alloc: Global, program: &Program, obstacle: &Obstacle) -> Result<String, AllocError> {
    let mut text = sentence_of(alloc, *obstacle)?;
    if let Obstacle::Refused(refusal) = obstacle {
        push_spot(program, spot_of(program, refusal), &mut text)?;
    }
    Ok(text)
}

/// Says why a program isn't taken.
fn say_refused(
    rt: &HostRuntime,
    report: Report,
    path: &str,
    program: &Program,
    obstacle: &Obstacle,
) -> Result<(), Failure> {
    explain(rt, report, program, obstacle)?;
    let what = sentence(rt.alloc(), program, obstacle)?;
    // What the program brings is escaped already.
    Failure::of_lines(rt.alloc(), shown(path), what).say(rt);
    Ok(())
}

/// Appends the report of an accepted program.
fn write_accepted(
    out: &mut String,
    report: Report,
    path: &str,
    verified: &Verified,
) -> Result<(), AllocError> {
    push_shown(path, out)?;
    out.push_str(": ")?;
    report.paint.write(Kind::Good, "accepted", out)?;
    out.push('\n')?;
    if !report.depths {
        return Ok(());
    }
    for (chunk, depth) in verified.depths().iter().enumerate() {
        write!(out, "{depth:>9} operands  ")?;
        push_name(name_of(verified.program(), chunk), out)?;
        out.push('\n')?;
    }
    Ok(())
}

/// Says that a file is accepted.
fn say_accepted(
    rt: &HostRuntime,
    report: Report,
    path: &str,
    verified: &Verified,
) -> Result<(), Failure> {
    let mut out = String::new(rt.alloc());
    write_accepted(&mut out, report, shown(path), verified)?;
    write_standard(rt, out.as_bytes())
}

/// Prints the outcome of a file.
fn say(rt: &HostRuntime, report: Report, path: &str, found: &Found) -> Result<(), Failure> {
    match found {
        Found::Accepted(verified) => say_accepted(rt, report, path, verified),
        Found::Refused(program, obstacle) => say_refused(rt, report, path, program, obstacle),
        Found::Malformed(error) => {
            unread(rt.alloc(), path, *error).say(rt);
            Ok(())
        }
        Found::Unread(failure) => {
            failure.say(rt);
            Ok(())
        }
    }
}

/// Appends the operands that each function of an accepted program needs.
fn write_operands(json: &mut Writer, depths: &[u16]) -> Result<(), AllocError> {
    json.key("accepted")?;
    json.boolean(true)?;
    json.key("operands")?;
    json.begin_array()?;
    for depth in depths {
        json.u64(u64::from(*depth))?;
    }
    json.end_array()
}

/// Appends whether a file is accepted, null if it could not be read, and why it isn't, in words.
fn write_why(json: &mut Writer, is_read: bool, what: &str) -> Result<(), AllocError> {
    json.key("accepted")?;
    if is_read {
        json.boolean(false)?;
    } else {
        json.null()?;
    }
    json.key("error")?;
    json.string(what)
}

/// Appends why a program isn't taken.
fn write_refused(
    alloc: Global,
    json: &mut Writer,
    program: &Program,
    obstacle: &Obstacle,
) -> Result<(), AllocError> {
    write_why(json, true, &sentence_of(alloc, *obstacle)?)?;
    json.key("refusal")?;
    write_obstacle(json, program, obstacle)
}

/// Appends why bytes are no program file.
fn write_unread(
    alloc: Global,
    json: &mut Writer,
    path: &str,
    error: &ReadError,
) -> Result<(), AllocError> {
    let failure = unread(alloc, path, *error);
    write_why(json, true, &format!(in alloc; "{failure}")?)?;
    json.key("refusal")?;
    write_malformed(alloc, json, error)
}

/// Appends the members that say what is known of a file.
fn write_found(
    alloc: Global,
    json: &mut Writer,
    path: &str,
    found: &Found,
) -> Result<(), AllocError> {
    match found {
        Found::Accepted(verified) => write_operands(json, verified.depths()),
        Found::Refused(program, obstacle) => write_refused(alloc, json, program, obstacle),
        Found::Malformed(error) => write_unread(alloc, json, path, error),
        Found::Unread(failure) => write_why(json, false, &format!(in alloc; "{failure}")?),
    }
}

/// A line of JSON that says what is known of a file.
fn object_of(alloc: Global, path: &str, found: &Found) -> Result<Vec<u8>, AllocError> {
    let mut json = writer(alloc);
    json.begin_object()?;
    json.key("file")?;
    json.string(path)?;
    write_found(alloc, &mut json, path, found)?;
    json.end_object()?;
    line_of(json)
}

/// Reads and verifies a file, says what it is, and returns whether it is accepted.
fn visit(rt: &HostRuntime, report: Report, path: &str) -> Result<bool, Failure> {
    let found = found_of(rt, report.allowed, path)?;
    show(rt, report, path, &found)
}

/// Says what a file is, and returns whether it is accepted.
fn show(rt: &HostRuntime, report: Report, path: &str, found: &Found) -> Result<bool, Failure> {
    if report.json {
        write_standard(rt, &object_of(rt.alloc(), path, found)?)?;
    } else {
        say(rt, report, path, found)?;
    }
    Ok(matches!(found, Found::Accepted(..)))
}

/// The capabilities of the host.
fn host_of(alloc: Global, names: Option<&str>) -> Result<Caps, Failure> {
    match names {
        None => Ok(Caps::all()),
        Some(names) => match bitflags::parser::from_str::<Caps>(names) {
            Ok(caps) => Ok(caps),
            Err(_) => Err(Failure::of_argument(alloc, names, "no such capability (--caps)")),
        },
    }
}

/// Says of each file whether it is accepted.
pub fn run(rt: &HostRuntime, matches: &ArgMatches<'_>) -> Result<u8, Failure> {
    let host = host_of(rt.alloc(), matches.get_str("caps"))?;
    let report = Report {
        allowed: Allowed {
            host,
            ..allowed_of(matches)
        },
        paint: Colours::of(matches).paint(rt),
        depths: matches.get_flag("numbers"),
        explain: matches.get_flag("explain"),
        json: matches.get_flag("json"),
    };
    let mut status = 0u8;
    for path in matches.get_raw("FILE").unwrap_or_default() {
        if !visit(rt, report, path)? {
            status = 1;
        }
    }
    Ok(status)
}
