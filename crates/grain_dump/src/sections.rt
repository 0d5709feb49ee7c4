//! The sections of a file, by its outline.

use crate::instructions::put_code;
use crate::meaning::{write_part, write_sidecar_part};
use crate::model::{Kind, Layout, Piece, Section, put};
use grain::{Program, Sidecar};
use grain_file::{Item, Part, WriteError, outline, outline_sidecar};
use std::alloc::{AllocError, Global};
use std::io;

/// What a file is of.
#[derive(Clone, Copy)]
enum Contents<'a> {
    Program(&'a Program),
    Sidecar(&'a Sidecar),
}

/// The sections of a file.
#[derive(Drop)]
pub struct Dump<'a> {
    contents: Contents<'a>,
    /// The parts of the file, in their order. A section begins with a part that isn't an item of a list.
    outline: Vec<Item>,
    has_pieces: bool,
}

impl Contents<'_> {
    fn kind(self) -> Kind {
        match self {
            Contents::Program(_) => Kind::Program,
            Contents::Sidecar(_) => Kind::Sidecar,
        }
    }

    /// The text of a part.
    fn text(self, alloc: Global, part: Part) -> Result<String, AllocError> {
        let mut text = String::new(alloc);
        match self {
            Contents::Program(program) => write_part(alloc, &mut text, program, part)?,
            Contents::Sidecar(sidecar) => write_sidecar_part(&mut text, sidecar, part)?,
        }
        Ok(text)
    }

    /// Writes an item as a piece.
    fn put_item<L: Layout>(
        self,
        alloc: Global,
        section: &Section,
        item: &Item,
        bytes: &[u8],
        layout: &mut L,
    ) -> io::Result<()> {
        let piece = Piece {
            start: item.start,
            end: item.end,
            text: self.text(alloc, item.part)?,
        };
        put(layout, section, &piece, bytes)
    }

    /// Writes the pieces of an item: the instructions of the code, or the item itself.
    fn put_pieces<L: Layout>(
        self,
        alloc: Global,
        section: &Section,
        item: &Item,
        bytes: &[u8],
        layout: &mut L,
    ) -> io::Result<()> {
        match self {
            Contents::Program(program) if item.part == Part::Code => {
                put_code(alloc, section, program.code(), item, bytes, layout)
            }
            _ => self.put_item(alloc, section, item, bytes, layout),
        }
    }

    /// The section of these items.
    fn section(self, alloc: Global, first: &Item, last: &Item) -> Result<Section, AllocError> {
        Ok(Section {
            part: first.part,
            start: first.start,
            end: last.end,
            summary: self.text(alloc, first.part)?,
        })
    }
}

impl Dump<'_> {
    /// The items of the section that begins with the one at a place.
    fn items_of(&self, place: usize) -> &[Item] {
        let rest = self.outline.get(place..).unwrap_or_default();
        let next = rest
            .iter()
            .skip(1)
            .position(|item| item.part.index().is_none());
        match next {
            Some(next) => rest.get(..next.saturating_add(1)).unwrap_or_default(),
            None => rest,
        }
    }

    /// Writes the section of these items.
    fn write_section<L: Layout>(
        &self,
        alloc: Global,
        items: &[Item],
        bytes: &[u8],
        layout: &mut L,
    ) -> io::Result<()> {
        let (Some(first), Some(last)) = (items.first(), items.last()) else {
            return Ok(());
        };
        let section = self.contents.section(alloc, first, last)?;
        layout.begin_section(&section)?;
        if self.has_pieces {
            for item in items {
                self.contents
                    .put_pieces(alloc, &section, item, bytes, layout)?;
            }
        }
        layout.end_section()
    }

    /// Writes the sections of the file with this name and these bytes. It takes memory for the text of one item at a time.
    ///
    /// # Errors
    /// The output can't be written, or memory was refused.
    pub fn write<L: Layout>(
        &self,
        alloc: Global,
        file: &str,
        bytes: &[u8],
        layout: &mut L,
    ) -> io::Result<()> {
        layout.begin(file, self.contents.kind(), bytes.len())?;
        for (place, item) in self.outline.iter().enumerate() {
            if item.part.index().is_none() {
                self.write_section(alloc, self.items_of(place), bytes, layout)?;
            }
        }
        layout.end()
    }
}

/// The sections of the file of a program, with their pieces if they were requested. It takes memory for an item of each part.
///
/// # Errors
/// As [`write`](grain_file::write): `Unkept` if the program has no file.
pub fn program_dump(
    alloc: Global,
    program: &Program,
    has_pieces: bool,
) -> Result<Dump<'_>, WriteError> {
    Ok(Dump {
        contents: Contents::Program(program),
        outline: outline(alloc, program)?,
        has_pieces,
    })
}

/// The sections of the file of a sidecar, each of one piece.
///
/// # Errors
/// An allocation failed.
pub fn sidecar_dump(
    alloc: Global,
    sidecar: &Sidecar,
    has_pieces: bool,
) -> Result<Dump<'_>, AllocError> {
    Ok(Dump {
        contents: Contents::Sidecar(sidecar),
        outline: outline_sidecar(alloc, sidecar)?,
        has_pieces,
    })
}
