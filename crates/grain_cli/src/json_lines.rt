//! Lines of JSON. What writes an object borrows its writer: each call that may fail would have it dropped otherwise.

use json::Writer;
use std::alloc::{AllocError, Global};
use std::io;
use std::io::Write;

/// A writer that has written nothing.
pub fn writer(alloc: Global) -> Writer {
    Writer::new(Vec::new(alloc))
}

/// Whether a character would change how a terminal shows the text around it, though JSON has it as it is: a control character,
/// or a mark of direction. JSON escapes those below the blank itself.
fn is_hidden(c: char) -> bool {
    matches!(
        c,
        '\u{7f}'..='\u{9f}'
            | '\u{200e}'..='\u{200f}'
            | '\u{2028}'..='\u{202e}'
            | '\u{2066}'..='\u{2069}'
    )
}

/// JSON with escapes for the hidden characters of its strings, if it has any.
fn escaped(alloc: Global, json: &[u8]) -> Result<Option<Vec<u8>>, AllocError> {
    let text = str::from_utf8(json).unwrap_or_default();
    if !text.chars().any(|c| is_hidden(c)) {
        return Ok(None);
    }
    let mut line = String::new(alloc);
    for c in text.chars() {
        if is_hidden(c) {
            let code = c as u32;
            write!(line, "\\u{code:04x}")?;
        } else {
            line.push(c)?;
        }
    }
    Ok(Some(line.into_bytes()))
}

/// What was written, as a line. Control characters and marks of direction in it are escaped.
pub fn line_of(json: Writer) -> Result<Vec<u8>, AllocError> {
    let plain = json.into_inner();
    let mut line = match escaped(*plain.allocator(), &plain)? {
        Some(line) => line,
        None => plain,
    };
    line.push(b'\n')?;
    Ok(line)
}

/// A writer of JSON that escapes as [`line_of`] does. Each write has whole characters.
#[derive(Drop)]
pub struct Escaping<W> {
    alloc: Global,
    out: W,
}

impl<W> Escaping<W> {
    /// A writer that passes on what it is given, with escapes.
    pub fn new(alloc: Global, out: W) -> Escaping<W> {
        Escaping { alloc, out }
    }

    /// The writer to which all is written.
    pub fn into_inner(self) -> W {
        let Escaping { out, .. } = self;
        out
    }
}

impl<W: Write> Write for Escaping<W> {
    fn write(&mut self, bytes: &[u8]) -> io::Result<usize> {
        let written = match escaped(self.alloc, bytes)? {
            Some(text) => self.out.write_all(&text),
            None => self.out.write_all(bytes),
        };
        written?;
        Ok(bytes.len())
    }

    fn flush(&mut self) -> io::Result<()> {
        self.out.flush()
    }
}
