//! Splitting a source text into lexemes.

use crate::lexeme::{Kind, Lexeme, Mark, Operator, SIGNS, keyword};
use crate::names::Names;
use crate::scan::{Scan, begins_name, continues_name};
use grain_base::pos::Site;
use rhai_errors::{CompileError, Problem};
use std::alloc::{AllocError, Global};

/// Lexemes, with the names and the texts that they have by their indices.
#[derive(Drop)]
pub struct Lexemes {
    /// The lexemes, of which the last is the end of the text.
    pub list: Vec<Lexeme>,
    /// The names.
    pub names: Names,
    /// The texts of string literals.
    pub texts: Names,
}

#[derive(Drop)]
struct Lexer<'s> {
    alloc: Global,
    scan: Scan<'s>,
    found: Lexemes,
    /// How many braces are open.
    braces: usize,
    /// How many braces were open when each open interpolation began.
    interpolations: Vec<usize>,
}

/// The lexemes of a source text, in time linear in its length.
///
/// # Errors
/// The first part of the text that is no lexeme, or the allocator refused.
pub fn split_into_lexemes(alloc: Global, source: &str) -> Result<Lexemes, CompileError> {
    split_more(alloc, source, (Names::new(alloc), Names::new(alloc)), 0)
}

/// The lexemes of one of several source texts, which have their names and the texts of their string literals together: those
/// of this text are added to the given ones. Its lines are counted on after this many others.
///
/// # Errors
/// As [`split_into_lexemes`].
pub fn split_more(
    alloc: Global,
    source: &str,
    known: (Names, Names),
    lines: u32,
) -> Result<Lexemes, CompileError> {
    let (names, texts) = known;
    let text = characters(alloc, source)?;
    let found = Lexemes {
        list: Vec::new(alloc),
        names,
        texts,
    };
    let mut lexer = Lexer {
        alloc,
        scan: Scan::new(&text, lines),
        found,
        braces: 0,
        interpolations: Vec::new(alloc),
    };
    lexer.scan.skip_shebang();
    lexer.split()?;
    Ok(lexer.found)
}

/// The characters of a source text. A byte order mark at its start is none of them, nor is a carriage return before a line feed,
/// so that no literal has either.
fn characters(alloc: Global, source: &str) -> Result<Vec<char>, AllocError> {
    let mut text = Vec::new(alloc);
    for c in source.strip_prefix('\u{feff}').unwrap_or(source).chars() {
        if c == '\n' && text.last() == Some(&'\r') {
            let _ = text.pop();
        }
        text.push(c)?;
    }
    Ok(text)
}

impl<'s> Lexer<'s> {
    fn split(&mut self) -> Result<(), CompileError> {
        for _turn in 0..self.scan.len() {
            self.scan.skip_blanks()?;
            if self.scan.peek(0).is_none() {
                break;
            }
            self.next()?;
        }
        self.scan.skip_blanks()?;
        let place = self.scan.place;
        self.found.list.push(Lexeme {
            kind: Kind::Mark(Mark::End),
            place,
        })?;
        Ok(())
    }

    /// Takes the next lexeme.
    fn next(&mut self) -> Result<(), CompileError> {
        let place = self.scan.place;
        let kind = match self.scan.peek(0) {
            Some('"') => self.text(place)?,
            Some('\'') => Kind::Char(self.scan.character(place)?),
            Some('`') => self.first_piece(place)?,
            Some('#') => self.hashed(place)?,
            Some('}') if self.ends_interpolation() => self.next_piece(place)?,
            Some(c) if c.is_ascii_digit() => self.scan.number(self.alloc, place)?,
            Some(c) if begins_name(c) => self.name()?,
            Some(c) => self.sign(place, c)?,
            None => return Ok(()),
        };
        self.found.list.push(Lexeme { kind, place })?;
        Ok(())
    }

    fn ends_interpolation(&self) -> bool {
        match self.interpolations.last() {
            Some(braces) => *braces == self.braces,
            None => false,
        }
    }

    fn name(&mut self) -> Result<Kind, CompileError> {
        let mut name = String::new(self.alloc);
        for _turn in 0..self.scan.len() {
            match self.scan.peek(0) {
                Some(c) if continues_name(c) => {
                    name.push(c)?;
                    self.scan.skip(1);
                }
                _ => break,
            }
        }
        match keyword(name.as_str()) {
            Some(kind) => Ok(kind),
            None => Ok(Kind::Name(self.found.names.index(name)?)),
        }
    }

    /// A raw string, or a sign that begins with `#`.
    fn hashed(&mut self, place: Site) -> Result<Kind, CompileError> {
        match self.scan.hashes() {
            Some(hashes) => {
                let text = self.scan.raw_string(self.alloc, place, hashes)?;
                Ok(Kind::Text(self.found.texts.index(text)?))
            }
            None => self.sign(place, '#'),
        }
    }

    fn sign(&mut self, place: Site, c: char) -> Result<Kind, CompileError> {
        if self.scan.has_ahead(0, "!in") && !self.scan.peek(3).is_some_and(continues_name) {
            self.scan.skip(3);
            return Ok(Kind::Operator(Operator::NotIn));
        }
        for (first, rest, kind) in &SIGNS {
            if *first == c && self.scan.has_ahead(1, rest) {
                self.scan.skip(rest.len());
                self.scan.skip(1);
                self.count_brace(*kind);
                return Ok(*kind);
            }
        }
        Err(CompileError::new(place, Problem::StrangeCharacter(c)))
    }

    fn count_brace(&mut self, kind: Kind) {
        match kind {
            Kind::Mark(Mark::LeftBrace | Mark::MapBrace) => {
                self.braces = self.braces.saturating_add(1);
            }
            Kind::Mark(Mark::RightBrace) => self.braces = self.braces.saturating_sub(1),
            _ => {}
        }
    }

    fn text(&mut self, place: Site) -> Result<Kind, CompileError> {
        let text = self.scan.string(self.alloc, place)?;
        Ok(Kind::Text(self.found.texts.index(text)?))
    }

    /// A string in back ticks, up to its end or to its first interpolation. A line end after the back tick isn't part of it.
    fn first_piece(&mut self, place: Site) -> Result<Kind, CompileError> {
        self.scan.skip(1);
        if self.scan.peek(0) == Some('\n') {
            self.scan.skip(1);
        }
        match self.piece(place)? {
            (text, true) => Ok(Kind::Text(text)),
            (text, false) => Ok(Kind::FirstPiece(text)),
        }
    }

    /// A string in back ticks continues after an interpolation.
    fn next_piece(&mut self, place: Site) -> Result<Kind, CompileError> {
        self.scan.skip(1);
        let _ = self.interpolations.pop();
        match self.piece(place)? {
            (text, true) => Ok(Kind::LastPiece(text)),
            (text, false) => Ok(Kind::NextPiece(text)),
        }
    }

    /// The index of a piece, and whether the string ends with it.
    fn piece(&mut self, place: Site) -> Result<(u32, bool), CompileError> {
        let (text, is_last) = self.scan.piece(self.alloc, place)?;
        if !is_last {
            self.interpolations.push(self.braces)?;
        }
        Ok((self.found.texts.index(text)?, is_last))
    }
}
