//! A whole run over lines.

use crate::listing::Listing;
use crate::object::write_json;
use crate::text::write_text;
use grain_cli::failure::Failure;
use grain_cli::files::shown;
use grain_cli::output::STANDARD;
use grain_lines::{Summary, is_case, without_return};
use grain_listing::Paint;
use grain_stream::JsonStream;
use std::alloc::{AllocError, Global};
use std::io;
use std::io::{BufRead, Error, ErrorKind, Write};

/// What listings are written to.
#[derive(Drop)]
pub enum Listings<W> {
    /// Text for people, in these colours.
    Text(Paint, W),
    /// JSON for programs, an object for each case.
    Json(JsonStream<W>),
}

/// The line without the line feed that ends it, and the carriage return before that.
fn content(line: &[u8]) -> &[u8] {
    match line {
        [front @ .., b'\n'] => without_return(front),
        _ => line,
    }
}

/// A listing as text.
fn text_of(alloc: Global, paint: Paint, listing: &Listing) -> Result<String, AllocError> {
    let mut text = String::new(alloc);
    write_text(paint, listing, &mut text)?;
    Ok(text)
}

/// Writes a listing as text.
fn put_text<W: Write>(
    alloc: Global,
    paint: Paint,
    listing: &Listing,
    writer: &mut W,
) -> io::Result<()> {
    let text = text_of(alloc, paint, listing)?;
    writer.write_all(text.as_bytes())
}

impl<W: Write> Listings<W> {
    /// Listings of which none is written: as text with these colours, or as JSON if there are none.
    pub fn new(alloc: Global, paint: Option<Paint>, writer: W) -> Listings<W> {
        match paint {
            Some(paint) => Listings::Text(paint, writer),
            None => Listings::Json(JsonStream::new(alloc, writer)),
        }
    }

    /// Writes a listing, so that it is there at once.
    fn put(&mut self, alloc: Global, listing: &Listing) -> io::Result<()> {
        match self {
            Listings::Text(paint, writer) => {
                put_text(alloc, *paint, listing, writer)?;
                writer.flush()
            }
            Listings::Json(json) => {
                write_json(alloc, listing, json)?;
                json.flush()
            }
        }
    }
}

/// Why standard input could not be read.
fn unread(alloc: Global, error: Error) -> Failure {
    Failure::of_input(alloc, shown(STANDARD), error)
}

/// Reads the next line, and says whether there is one.
///
/// # Errors
/// The read failed, or memory for the line was refused.
fn read_line<R: BufRead>(
    alloc: Global,
    reader: &mut R,
    line: &mut Vec<u8>,
) -> Result<bool, Failure> {
    line.clear();
    match reader.read_until(b'\n', line) {
        Ok(count) => Ok(count > 0),
        Err(error) => Err(unread(alloc, error)),
    }
}

/// Writes the listing of a case, and says whether the case is bad.
///
/// # Errors
/// The listing could not be written, or memory was refused.
fn answer<W: Write>(
    alloc: Global,
    case: &[u8],
    listings: &mut Listings<W>,
) -> Result<bool, Failure> {
    let listing = Listing::of(alloc, case)?;
    listings.put(alloc, &listing).map_err(Failure::of_output)?;
    Ok(listing.is_bad())
}

/// Reads lines to the end, and writes a listing for each case once its line has been read. The failures are those of standard
/// input and of standard output.
///
/// # Errors
/// A read failed, a write failed, or memory was refused. What was read before a failed read is listed.
pub fn run<R: BufRead, W: Write>(
    alloc: Global,
    reader: &mut R,
    listings: &mut Listings<W>,
) -> Result<Summary, Failure> {
    let mut summary = Summary { cases: 0, bad: 0 };
    let mut line = Vec::new(alloc);
    for _turn in 0..u64::MAX {
        if !read_line(alloc, reader, &mut line)? {
            return Ok(summary);
        }
        let case = content(&line);
        if !is_case(case) {
            continue;
        }
        let is_bad = answer(alloc, case, listings)?;
        summary.count(is_bad);
    }
    Err(unread(alloc, Error::from(ErrorKind::FileTooLarge)))
}
