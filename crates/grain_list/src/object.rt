//! A listing as a line of JSON, for programs.

use crate::listing::{Body, Listing};
use grain_listing::{Listed, Naming, write_listed};
use grain_stream::JsonStream;
use json::Writer;
use std::alloc::{AllocError, Global};
use std::io;
use std::io::Write;

/// Writes what is wrong with a line that is no case.
fn write_problem(alloc: Global, body: &Body, json: &mut Writer) -> Result<(), AllocError> {
    json.key("problem")?;
    match body {
        Body::Bad(problem) => {
            let said = format!(in alloc; "{problem}")?;
            json.string(said.as_str())
        }
        Body::Site | Body::Code(_) | Body::Program(_) => json.null(),
    }
}

/// What is listed after the verdict.
fn listed_of(body: &Body) -> Listed<'_> {
    match body {
        Body::Bad(_) | Body::Site => Listed::Nothing,
        Body::Code(code) => Listed::Code(code),
        Body::Program(program) => Listed::Program(program),
    }
}

/// Writes the members of a listing before those of what is listed.
fn write_front(alloc: Global, listing: &Listing, json: &mut Writer) -> Result<(), AllocError> {
    json.key("line")?;
    json.string(listing.line.as_str())?;
    json.key("verdict")?;
    json.string(listing.verdict.as_str())?;
    write_problem(alloc, &listing.body, json)
}

/// Adds the members of a listing before those of what is listed.
fn add_front<W: Write>(
    alloc: Global,
    listing: &Listing,
    json: &mut JsonStream<W>,
) -> io::Result<()> {
    let mut piece = json.piece()?;
    write_front(alloc, listing, &mut piece)?;
    json.add(piece)
}

/// Writes a listing as an object of JSON on a line of its own. Besides the listing it takes memory for the text of one instruction, or
/// of the case.
///
/// # Errors
/// The output can't be written, or memory was refused.
pub fn write_json<W: Write>(
    alloc: Global,
    listing: &Listing,
    json: &mut JsonStream<W>,
) -> io::Result<()> {
    json.begin_object()?;
    add_front(alloc, listing, json)?;
    write_listed(alloc, Naming::Indices, listed_of(&listing.body), json)?;
    json.end_object()?;
    json.end_line()
}
