//! A listing as text, for people.

use crate::listing::{Body, Listing};
use grain_listing::{Kind, Naming, Paint, Style, write_code, write_program};
use std::alloc::AllocError;

/// Appends a listing to the text.
///
/// # Errors
/// [`AllocError`] if memory was refused.
pub fn write_text(paint: Paint, listing: &Listing, text: &mut String) -> Result<(), AllocError> {
    let style = Style {
        paint,
        naming: Naming::Indices,
    };
    paint.write(Kind::Heading, listing.line.as_str(), text)?;
    let verdict = listing.verdict.as_str();
    write!(text, "\n{verdict}\n")?;
    match &listing.body {
        Body::Bad(problem) => write!(text, "  {problem}\n")?,
        Body::Site => {}
        Body::Code(code) => write_code(style, code, text)?,
        Body::Program(program) => write_program(style, program, text)?,
    }
    text.push_str("\n")
}
