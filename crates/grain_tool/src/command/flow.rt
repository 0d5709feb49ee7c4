//! `grain flow`: the control flow of a function, as a picture.

use crate::command::list::explained;
use clap::ArgMatches;
use grain::Program;
use grain_cli::arguments::{Argument, FILE, Subcommand};
use grain_cli::failure::Failure;
use grain_cli::files::shown;
use grain_cli::loading::{WORK, admit, allowed_of};
use grain_cli::output::Output;
use grain_cli::overlaps::refuse_input;
use grain_flow::{Graph, write_dot, write_svg};
use grain_listing::{ProgramListing, name_of};
use grain_scripts::modules::INCLUDE;
use grain_scripts::scripts::{Surroundings, program_in};
use std::alloc::{AllocError, Global};
use std::io;
use std::io::Write;

/// `grain flow`
pub const SUBCOMMAND: Subcommand = Subcommand {
    name: "flow",
    about: "Draws the control flow of a function, with the path to its flaw",
    example: "Example:\n  grain flow program.grain -o program.svg",
    arguments: &[
        FILE,
        Argument::Text {
            name: "function",
            value: "NAME",
            is_required: false,
            help: "Draw the first function of this name (default: the refused one, else main)",
        },
        Argument::Flag {
            name: "dot",
            letter: None,
            help: "Write text for Graphviz in place of SVG",
        },
        WORK,
        INCLUDE,
        Argument::Output,
    ],
};

/// The index of the chunk with a name, or of the one that is refused, else of the top level.
fn place_of(program: &Program, listing: &ProgramListing, name: Option<&str>) -> Option<usize> {
    let Some(name) = name else {
        return match &listing.explained.verdict {
            Ok(_) => Some(0),
            Err(refusal) => Some(refusal.chunk.unwrap_or(0)),
        };
    };
    (0..listing.chunks.len()).find(|place| name_of(program, *place) == name)
}

/// Why there is no picture: no function has the name, or the program is refused before its chunks.
fn undrawn(alloc: Global, path: &str, listing: &ProgramListing) -> Failure {
    match &listing.explained.verdict {
        Err(refusal) if refusal.chunk.is_none() => {
            let error = refusal.error;
            Failure::of(
                alloc,
                shown(path),
                format_args!("no function is explained: {error}"),
            )
        }
        _ => Failure::of(alloc, shown(path), "no function has this name"),
    }
}

/// Writes a picture, for Graphviz or as SVG.
fn write_picture<W: Write>(
    alloc: Global,
    graph: &Graph<'_>,
    is_dot: bool,
    output: &mut W,
) -> io::Result<()> {
    if is_dot {
        write_dot(alloc, graph, output)
    } else {
        write_svg(alloc, graph, output)
    }
}

/// The control flow of the function with a name, if one has it and is explained.
fn graph_of<'a>(
    alloc: Global,
    program: &'a Program,
    listing: &'a ProgramListing,
    name: Option<&str>,
) -> Result<Option<Graph<'a>>, AllocError> {
    match place_of(program, listing, name) {
        Some(place) => Graph::of(alloc, program, listing, place),
        None => Ok(None),
    }
}

/// Writes the picture of a graph.
fn draw(
    rt: &HostRuntime,
    to: Option<&str>,
    graph: &Graph<'_>,
    is_dot: bool,
) -> Result<(), Failure> {
    let mut output = Output::open(rt, to)?;
    let done = write_picture(rt.alloc(), graph, is_dot, &mut output);
    output.end(rt, done)
}

/// Writes the picture of a function of a program.
fn draw_function(
    rt: &HostRuntime,
    path: &str,
    to: Option<&str>,
    program: &Program,
    name: Option<&str>,
    is_dot: bool,
) -> Result<(), Failure> {
    let alloc = rt.alloc();
    let listing = explained(alloc, program)?;
    match graph_of(alloc, program, &listing, name)? {
        Some(graph) => draw(rt, to, &graph, is_dot),
        None => Err(undrawn(alloc, path, &listing)),
    }
}

/// Draws a function of a program file, or of a script.
pub fn run(rt: &HostRuntime, matches: &ArgMatches<'_>) -> Result<u8, Failure> {
    let path = matches.get_str("FILE").unwrap_or("-");
    let (name, is_dot) = (matches.get_str("function"), matches.get_flag("dot"));
    let to = matches.get_str("output");
    refuse_input(rt, to, path)?;
    let program = program_in(rt, &Surroundings::of(rt, matches)?, path)?;
    admit(rt.alloc(), path, allowed_of(matches), &program)?;
    draw_function(rt, path, to, &program, name, is_dot)?;
    Ok(0)
}
