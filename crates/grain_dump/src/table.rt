//! Sections as a table.

use crate::model::{Kind, Layout, Piece, Section};
use std::alloc::{AllocError, Global};
use std::io;
use std::io::Write;

/// How many bytes a line has.
const BYTES_IN_LINE: usize = 16;

/// Writes a line for each section: its offset, its size, its name and its summary. Below it are its pieces, each with its offset, its bytes in
/// hexadecimal and what they spell.
#[derive(Drop)]
pub struct TextDump<W> {
    out: W,
    /// A line.
    line: String,
}

/// Ends a line with bytes in hexadecimal, and with a text in its column, if there is any.
fn end_line(out: &mut String, bytes: &[u8], text: &str) -> Result<(), AllocError> {
    for byte in bytes {
        write!(out, " {byte:02x}")?;
    }
    if !text.is_empty() {
        for _ in bytes.len()..BYTES_IN_LINE {
            out.push_str("   ")?;
        }
        out.push_str("  ")?;
        out.push_str(text)?;
    }
    out.push('\n')
}

/// Appends the line of a section.
fn write_section(out: &mut String, section: &Section) -> Result<(), AllocError> {
    let start = section.start;
    let size = section.end.saturating_sub(section.start);
    let name = section.part.name();
    let summary = &section.summary;
    write!(out, "{start:>10} {size:>10}  {name:<14}  {summary}\n")
}

/// Appends a line of a piece: an offset, bytes and a text.
fn write_row(out: &mut String, at: usize, row: &[u8], text: &str) -> Result<(), AllocError> {
    write!(out, "{at:>10} ")?;
    end_line(out, row, text.trim())
}

/// Appends a line of a piece that has no bytes.
fn write_more(out: &mut String, text: &str) -> Result<(), AllocError> {
    write!(out, "{:>10} ", "")?;
    end_line(out, &[], text.trim())
}

/// The text of a piece, unless it is the whole section, whose summary says the same.
fn text_of<'a>(section: &Section, piece: &'a Piece) -> &'a str {
    if piece.start == section.start && piece.end == section.end {
        ""
    } else {
        &piece.text
    }
}

impl<W> TextDump<W> {
    /// A dump that is written to an output.
    pub fn new(alloc: Global, out: W) -> TextDump<W> {
        TextDump {
            out,
            line: String::new(alloc),
        }
    }

    /// The output.
    pub fn into_inner(self) -> W {
        let TextDump { out, .. } = self;
        out
    }
}

impl<W: Write> TextDump<W> {
    /// Writes the line, and begins another.
    fn send(&mut self) -> io::Result<()> {
        self.out.write_all(self.line.as_bytes())?;
        self.line.clear();
        Ok(())
    }
}

impl<W: Write> Layout for TextDump<W> {
    fn begin(&mut self, _file: &str, _kind: Kind, _size: usize) -> io::Result<()> {
        self.line.push_str("    offset       size  section\n")?;
        self.send()
    }

    fn begin_section(&mut self, section: &Section) -> io::Result<()> {
        write_section(&mut self.line, section)?;
        self.send()
    }

    fn piece(&mut self, section: &Section, piece: &Piece, bytes: &[u8]) -> io::Result<()> {
        let mut lines = text_of(section, piece).lines();
        let mut at = piece.start;
        for row in bytes.chunks(BYTES_IN_LINE) {
            write_row(&mut self.line, at, row, lines.next().unwrap_or_default())?;
            self.send()?;
            at = at.saturating_add(BYTES_IN_LINE);
        }
        for line in lines {
            write_more(&mut self.line, line)?;
            self.send()?;
        }
        Ok(())
    }

    fn end_section(&mut self) -> io::Result<()> {
        Ok(())
    }

    fn end(&mut self) -> io::Result<()> {
        Ok(())
    }
}
