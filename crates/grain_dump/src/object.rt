//! Sections as a JSON object.

use crate::model::{Kind, Layout, Piece, Section};
use grain_stream::JsonStream;
use json::Writer;
use std::alloc::{AllocError, Global};
use std::io;
use std::io::Write;

/// Writes what a [`TextDump`](crate::TextDump) does as a JSON object on a line of its own, with the name of the file.
#[derive(Drop)]
pub struct JsonDump<W> {
    alloc: Global,
    json: JsonStream<W>,
}

/// Writes the members of a file before its sections.
fn write_front(json: &mut Writer, file: &str, kind: Kind, size: usize) -> Result<(), AllocError> {
    json.key("file")?;
    json.string(file)?;
    json.key("kind")?;
    json.string(kind.name())?;
    json.key("size")?;
    json.u64(size as u64)
}

/// Writes the members of what has a place in the file.
fn write_place(json: &mut Writer, start: usize, end: usize) -> Result<(), AllocError> {
    json.key("offset")?;
    json.u64(start as u64)?;
    json.key("size")?;
    json.u64(end.saturating_sub(start) as u64)
}

/// Writes the members of a section before its pieces.
fn write_section(json: &mut Writer, section: &Section) -> Result<(), AllocError> {
    json.key("section")?;
    json.string(section.part.name())?;
    write_place(json, section.start, section.end)?;
    json.key("text")?;
    json.string(&section.summary)
}

fn write_piece(
    alloc: Global,
    json: &mut Writer,
    piece: &Piece,
    bytes: &[u8],
) -> Result<(), AllocError> {
    let digits = hex::encode(alloc, bytes)?;
    json.begin_object()?;
    write_place(json, piece.start, piece.end)?;
    json.key("bytes")?;
    json.string(&digits)?;
    json.key("text")?;
    json.string(&piece.text)?;
    json.end_object()
}

impl<W> JsonDump<W> {
    /// A dump that is written to an output.
    pub fn new(alloc: Global, out: W) -> JsonDump<W> {
        JsonDump {
            alloc,
            json: JsonStream::new(alloc, out),
        }
    }

    /// The output.
    pub fn into_inner(self) -> W {
        let JsonDump { json, .. } = self;
        json.into_inner()
    }
}

impl<W: Write> JsonDump<W> {
    /// Begins an array of the object that is open.
    fn begin_array(&mut self, name: &str) -> io::Result<()> {
        self.json.key(name)?;
        self.json.begin_array()
    }

    /// Adds the members of a file before its sections.
    fn add_front(&mut self, file: &str, kind: Kind, size: usize) -> io::Result<()> {
        let mut members = self.json.piece()?;
        write_front(&mut members, file, kind, size)?;
        self.json.add(members)
    }

    /// Adds the members of a section before its pieces.
    fn add_section(&mut self, section: &Section) -> io::Result<()> {
        let mut members = self.json.piece()?;
        write_section(&mut members, section)?;
        self.json.add(members)
    }
}

impl<W: Write> Layout for JsonDump<W> {
    fn begin(&mut self, file: &str, kind: Kind, size: usize) -> io::Result<()> {
        self.json.begin_object()?;
        self.add_front(file, kind, size)?;
        self.begin_array("sections")
    }

    fn begin_section(&mut self, section: &Section) -> io::Result<()> {
        self.json.begin_object()?;
        self.add_section(section)?;
        self.begin_array("items")
    }

    fn piece(&mut self, _section: &Section, piece: &Piece, bytes: &[u8]) -> io::Result<()> {
        let mut json = self.json.piece()?;
        write_piece(self.alloc, &mut json, piece, bytes)?;
        self.json.add(json)
    }

    fn end_section(&mut self) -> io::Result<()> {
        self.json.end_array()?;
        self.json.end_object()
    }

    fn end(&mut self) -> io::Result<()> {
        self.json.end_array()?;
        self.json.end_object()?;
        self.json.end_line()
    }
}
