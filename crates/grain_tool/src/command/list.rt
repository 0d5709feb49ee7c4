//! `grain list`: the instructions of all chunks with the states there, and why a program is refused.

use clap::ArgMatches;
use grain::{Caps, Flags, Program, VerifyError};
use grain_cli::arguments::{Argument, FILE, Subcommand};
use grain_cli::failure::Failure;
use grain_cli::files::{read_program, shown};
use grain_cli::json_lines::Escaping;
use grain_cli::loading::{
    Allowed, Obstacle, WORK, allowed_of, obstacle_before, push_lacking, refused,
};
use grain_cli::output::Output;
use grain_cli::overlaps::refuse_input;
use grain_listing::{
    Colours, Kind, Listed, Naming, Paint, ProgramListing, Style, count_parts, push_shown,
    write_listed, write_part,
};
use grain_stream::JsonStream;
use json::Writer;
use std::alloc::{AllocError, Global};
use std::io;
use std::io::Write;

/// `grain list`
pub const SUBCOMMAND: Subcommand = Subcommand {
    name: "list",
    about: "Lists the instructions of a program, the state at each, and why it is refused",
    example: "Example:\n  grain list program.grain",
    arguments: &[
        FILE,
        Argument::Output,
        Argument::Flag {
            name: "json",
            letter: None,
            help: "Write a JSON object on a line of its own",
        },
        WORK,
        Argument::Colour {
            help: "Colour the listing",
        },
    ],
};

/// Why a program is refused: what keeps a host from it, or else its verdict.
fn refusal_of(
    alloc: Global,
    listing: &ProgramListing,
    missing: Caps,
) -> Result<Option<String>, AllocError> {
    let mut text = String::new(alloc);
    if !missing.is_empty() {
        push_lacking(missing, &mut text)?;
        return Ok(Some(text));
    }
    match &listing.explained.verdict {
        Ok(_) => Ok(None),
        Err(refusal) => {
            write!(text, "{}", refusal.error)?;
            Ok(Some(text))
        }
    }
}

/// Appends what a file is called, and whether its program is accepted.
fn write_heading(
    paint: Paint,
    path: &str,
    refusal: Option<&str>,
    out: &mut String,
) -> Result<(), AllocError> {
    paint.begin(Kind::Heading, out)?;
    push_shown(path, out)?;
    paint.end(Kind::Heading, out)?;
    out.push_str(": ")?;
    match refusal {
        None => paint.write(Kind::Good, "accepted", out)?,
        Some(error) => {
            paint.begin(Kind::Flaw, out)?;
            out.push_str("refused ")?;
            out.push_str(error)?;
            paint.end(Kind::Flaw, out)?;
        }
    }
    out.push('\n')
}

/// The heading of a listing.
fn heading_of(
    alloc: Global,
    paint: Paint,
    path: &str,
    refusal: Option<&str>,
) -> Result<String, AllocError> {
    let mut text = String::new(alloc);
    write_heading(paint, path, refusal, &mut text)?;
    Ok(text)
}

/// A part of a listing.
fn part_of(
    alloc: Global,
    style: Style<'_>,
    listing: &ProgramListing,
    place: usize,
) -> Result<String, AllocError> {
    let mut text = String::new(alloc);
    write_part(style, listing, place, &mut text)?;
    Ok(text)
}

/// Writes the parts of a listing, one after another.
fn write_parts<W: Write>(
    alloc: Global,
    output: &mut W,
    style: Style<'_>,
    listing: &ProgramListing,
) -> io::Result<()> {
    for place in 0..count_parts(listing) {
        let text = part_of(alloc, style, listing, place)?;
        output.write_all(text.as_bytes())?;
    }
    Ok(())
}

/// Writes a listing as text.
fn write_as_text<W: Write>(
    alloc: Global,
    output: &mut W,
    style: Style<'_>,
    path: &str,
    listing: &ProgramListing,
    refusal: Option<&str>,
) -> io::Result<()> {
    let heading = heading_of(alloc, style.paint, shown(path), refusal)?;
    output.write_all(heading.as_bytes())?;
    write_parts(alloc, output, style, listing)
}

/// Writes what a file is called, and whether its program is accepted.
fn write_front(path: &str, refusal: Option<&str>, json: &mut Writer) -> Result<(), AllocError> {
    json.key("file")?;
    json.string(path)?;
    json.key("accepted")?;
    json.boolean(refusal.is_none())?;
    json.key("error")?;
    match refusal {
        None => json.null(),
        Some(error) => json.string(error),
    }
}

/// Adds what a file is called, and whether its program is accepted.
fn add_front<W: Write>(
    path: &str,
    refusal: Option<&str>,
    json: &mut JsonStream<W>,
) -> io::Result<()> {
    let mut piece = json.piece()?;
    write_front(path, refusal, &mut piece)?;
    json.add(piece)
}

/// Writes a listing as a line of JSON.
fn write_as_json<W: Write>(
    alloc: Global,
    json: &mut JsonStream<W>,
    path: &str,
    naming: Naming<'_>,
    listing: &ProgramListing,
    refusal: Option<&str>,
) -> io::Result<()> {
    json.begin_object()?;
    add_front(path, refusal, json)?;
    write_listed(alloc, naming, Listed::Program(listing), json)?;
    json.end_object()?;
    json.end_line()
}

/// The explanation of a program. A verdict that memory ran out is none.
pub fn explained(alloc: Global, program: &Program) -> Result<ProgramListing, AllocError> {
    let listing = ProgramListing::of(alloc, program)?;
    match &listing.explained.verdict {
        Err(refusal) if refusal.error == VerifyError::OutOfMemory => Err(AllocError),
        _ => Ok(listing),
    }
}

/// Writes the listing of a program as text with these colours.
fn write_text(
    rt: &HostRuntime,
    output: Output,
    style: Style<'_>,
    path: &str,
    listing: &ProgramListing,
    refusal: Option<&str>,
) -> Result<(), Failure> {
    let mut output = output;
    let done = write_as_text(rt.alloc(), &mut output, style, path, listing, refusal);
    output.end(rt, done)
}

/// Writes the listing of a program as JSON.
fn write_json(
    rt: &HostRuntime,
    output: Output,
    path: &str,
    naming: Naming<'_>,
    listing: &ProgramListing,
    refusal: Option<&str>,
) -> Result<(), Failure> {
    let mut json = JsonStream::new(rt.alloc(), Escaping::new(rt.alloc(), output));
    let done = write_as_json(rt.alloc(), &mut json, path, naming, listing, refusal);
    json.into_inner().into_inner().end(rt, done)
}

/// Writes the listing of a program: as text with these colours, or as JSON if there are none.
fn write_listing(
    rt: &HostRuntime,
    to: Option<&str>,
    path: &str,
    program: &Program,
    missing: Caps,
    paint: Option<Paint>,
) -> Result<(), Failure> {
    let listing = explained(rt.alloc(), program)?;
    let naming = Naming::Program(program);
    let refusal = refusal_of(rt.alloc(), &listing, missing)?;
    let refusal = refusal.as_deref();
    let output = Output::open(rt, to)?;
    match paint {
        None => write_json(rt, output, path, naming, &listing, refusal),
        Some(paint) => {
            let style = Style { paint, naming };
            write_text(rt, output, style, path, &listing, refusal)
        }
    }
}

/// The declared capabilities that no host has. The program is listed nevertheless, unless its chunks span too much.
fn missing_of(
    alloc: Global,
    path: &str,
    allowed: Allowed,
    program: &Program,
) -> Result<Caps, Failure> {
    match obstacle_before(allowed, program) {
        None => Ok(Caps::empty()),
        Some(Obstacle::Capabilities(missing)) => Ok(missing),
        Some(obstacle) => Err(refused(alloc, path, obstacle)),
    }
}

/// The colours of text, or none if the arguments request JSON.
pub fn paint_of(rt: &HostRuntime, matches: &ArgMatches<'_>) -> Option<Paint> {
    if matches.get_flag("json") {
        None
    } else {
        Some(Colours::of(matches).paint(rt))
    }
}

/// Lists a program.
pub fn run(rt: &HostRuntime, matches: &ArgMatches<'_>) -> Result<u8, Failure> {
    let path = matches.get_str("FILE").unwrap_or("-");
    let to = matches.get_str("output");
    refuse_input(rt, to, path)?;
    let program = read_program(rt, path)?;
    let missing = missing_of(rt.alloc(), path, allowed_of(matches), &program)?;
    write_listing(rt, to, path, &program, missing, paint_of(rt, matches))?;
    Ok(0)
}
