//! `grain parse`: the program file of an assembly text.

use clap::ArgMatches;
use grain::Program;
use grain_cli::arguments::{Argument, FILE, Subcommand};
use grain_cli::excerpt::push_excerpt;
use grain_cli::failure::Failure;
use grain_cli::files::{file_of, read_text, shown};
use grain_cli::loading;
use grain_cli::loading::{Allowed, WORK, allowed_of, obstacle_of_work};
use grain_cli::output::write_binary;
use grain_cli::overlaps::refuse_input;
use grain_parse::{ParseError, Parsed, SyntaxError};
use std::alloc::{AllocError, Global};

/// `grain parse`
pub const SUBCOMMAND: Subcommand = Subcommand {
    name: "parse",
    about: "Assembles a text into a program file",
    example: "Example:\n  grain parse program.gasm -o program.grain",
    arguments: &[FILE, Argument::Output, WORK],
};

/// The problem of a line, with its position and the line itself.
fn lines_of(alloc: Global, error: &SyntaxError) -> Result<String, AllocError> {
    let SyntaxError {
        line,
        column,
        text: found,
        problem,
    } = error;
    let mut text = format!(in alloc; "{problem} (line {line}, column {column})\n  {line} | ")?;
    push_excerpt(found, column.saturating_sub(1), &mut text)?;
    Ok(text)
}

/// Why a text is refused: what is wrong, where, and the line itself.
fn refused(alloc: Global, path: &str, error: &ParseError) -> Failure {
    match error {
        ParseError::Syntax(error) => match lines_of(alloc, error) {
            Ok(lines) => Failure::of_lines(alloc, shown(path), lines),
            Err(AllocError) => Failure::OutOfMemory,
        },
        ParseError::OutOfMemory => Failure::OutOfMemory,
        ParseError::Refused(refusal) => Failure::of(
            alloc,
            shown(path),
            format_args!("the program is refused: {refusal}"),
        ),
        ParseError::NamesTooLong => Failure::of(alloc, shown(path), "the names are too long"),
    }
}

/// Refuses a text that is verified, for its open chunks, if its chunks span more code than is allowed.
fn bound_work(alloc: Global, path: &str, allowed: Allowed, parsed: &Parsed) -> Result<(), Failure> {
    if parsed.automatic.is_empty() {
        return Ok(());
    }
    match obstacle_of_work(allowed, &parsed.program) {
        None => Ok(()),
        Some(obstacle) => Err(loading::refused(alloc, path, obstacle)),
    }
}

/// The program of a text.
fn parsed(rt: &HostRuntime, path: &str, allowed: Allowed) -> Result<Program, Failure> {
    let alloc = rt.alloc();
    let text = read_text(rt, path)?;
    let parsed = match grain_parse::read(alloc, &text) {
        Ok(parsed) => parsed,
        Err(error) => return Err(refused(alloc, path, &error)),
    };
    bound_work(alloc, path, allowed, &parsed)?;
    match parsed.finish(alloc) {
        Ok(program) => Ok(program),
        Err(error) => Err(refused(alloc, path, &error)),
    }
}

/// Assembles a text.
pub fn run(rt: &HostRuntime, matches: &ArgMatches<'_>) -> Result<u8, Failure> {
    let path = matches.get_str("FILE").unwrap_or("-");
    let to = matches.get_str("output");
    refuse_input(rt, to, path)?;
    let program = parsed(rt, path, allowed_of(matches))?;
    let bytes = file_of(rt.alloc(), path, &program)?;
    write_binary(rt, to, &bytes)?;
    Ok(0)
}
