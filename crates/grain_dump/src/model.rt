//! What is shown of a file, and by what it is written.

use grain_file::Part;
use std::io;

/// What a file is of.
#[derive(Clone, Copy, Debug, PartialEq, Eq)]
pub enum Kind {
    /// A program.
    Program,
    /// The positions of a program.
    Sidecar,
}

impl Kind {
    /// What the kind is called.
    #[must_use]
    pub fn name(self) -> &'static str {
        match self {
            Kind::Program => "program",
            Kind::Sidecar => "sidecar",
        }
    }
}

/// A part of a file with all of its items.
#[derive(Debug, Drop)]
pub struct Section {
    /// Which part it is.
    pub part: Part,
    /// The place of its first byte in the file.
    pub start: usize,
    /// The place behind its last byte.
    pub end: usize,
    /// What it has, in a few words: for a list how many items.
    pub summary: String,
}

/// A piece of a section: an item of a list, or an instruction.
#[derive(Debug, Drop)]
pub struct Piece {
    /// The place of its first byte in the file.
    pub start: usize,
    /// The place behind its last byte.
    pub end: usize,
    /// What its bytes spell.
    pub text: String,
}

/// How a dump is written. Each method fails if the output can't be written, or memory was refused.
pub trait Layout {
    /// Begins the dump of a file with this name and this number of bytes.
    fn begin(&mut self, file: &str, kind: Kind, size: usize) -> io::Result<()>;

    /// Begins a section.
    fn begin_section(&mut self, section: &Section) -> io::Result<()>;

    /// Writes a piece of the section, with its bytes.
    fn piece(&mut self, section: &Section, piece: &Piece, bytes: &[u8]) -> io::Result<()>;

    /// Ends the section.
    fn end_section(&mut self) -> io::Result<()>;

    /// Ends the dump.
    fn end(&mut self) -> io::Result<()>;
}

/// Writes a piece of a section of the file with these bytes.
pub fn put<L: Layout>(
    layout: &mut L,
    section: &Section,
    piece: &Piece,
    bytes: &[u8],
) -> io::Result<()> {
    let bytes = bytes.get(piece.start..piece.end).unwrap_or_default();
    layout.piece(section, piece, bytes)
}
