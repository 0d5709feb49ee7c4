//! The characters of a source text, one after another, with their places.

use grain_base::pos::Site;
use rhai_errors::{CompileError, Problem};

/// The characters that are left of a source text.
#[derive(Drop)]
pub(crate) struct Scan<'s> {
    text: &'s [char],
    at: usize,
    /// The place of the next character.
    pub(crate) place: Site,
}

/// Whether a name may begin with the character.
pub(crate) fn begins_name(c: char) -> bool {
    c.is_ascii_alphabetic() || c == '_'
}

/// Whether a name may go on with the character.
pub(crate) fn continues_name(c: char) -> bool {
    c.is_ascii_alphanumeric() || c == '_'
}

impl<'s> Scan<'s> {
    /// All characters of a text, before whose first line this many others are counted.
    pub(crate) fn new(text: &'s [char], lines: u32) -> Scan<'s> {
        let place = Site {
            line: lines.saturating_add(1),
            column: 1,
        };
        Scan { text, at: 0, place }
    }

    /// How many characters the whole text has.
    pub(crate) fn len(&self) -> usize {
        self.text.len()
    }

    /// The character this far after the next one.
    pub(crate) fn peek(&self, ahead: usize) -> Option<char> {
        self.text.get(self.at.saturating_add(ahead)).copied()
    }

    /// Takes the next character.
    pub(crate) fn step(&mut self) -> Option<char> {
        let c = self.peek(0)?;
        self.at = self.at.saturating_add(1);
        if c == '\n' {
            self.place.line = self.place.line.saturating_add(1);
            self.place.column = 1;
        } else {
            self.place.column = self.place.column.saturating_add(1);
        }
        Some(c)
    }

    /// Takes this many characters.
    pub(crate) fn skip(&mut self, count: usize) {
        for _turn in 0..count {
            let _ = self.step();
        }
    }

    /// Whether the text has this from that far after the next character on.
    pub(crate) fn has_ahead(&self, ahead: usize, sign: &str) -> bool {
        for (place, c) in sign.chars().enumerate() {
            if self.peek(ahead.saturating_add(place)) != Some(c) {
                return false;
            }
        }
        true
    }

    /// Takes the line `#!..` with which a script may begin, so that a shell can start it.
    pub(crate) fn skip_shebang(&mut self) {
        if self.has_ahead(0, "#!") {
            self.skip_line();
        }
    }

    /// Takes blanks and comments.
    ///
    /// # Errors
    /// A comment has no end.
    pub(crate) fn skip_blanks(&mut self) -> Result<(), CompileError> {
        for _turn in 0..self.len() {
            match (self.peek(0), self.peek(1)) {
                (Some('/'), Some('/')) => self.skip_line(),
                (Some('/'), Some('*')) => self.skip_comment()?,
                (Some(c), _) if c.is_whitespace() => self.skip(1),
                _ => return Ok(()),
            }
        }
        Ok(())
    }

    fn skip_line(&mut self) {
        for _turn in 0..self.len() {
            if self.step() == Some('\n') {
                return;
            }
        }
    }

    /// Takes a comment, in which others may be.
    fn skip_comment(&mut self) -> Result<(), CompileError> {
        let place = self.place;
        let mut depth: usize = 0;
        for _turn in 0..self.len() {
            match (self.peek(0), self.peek(1)) {
                (Some('/'), Some('*')) => {
                    self.skip(2);
                    depth = depth.saturating_add(1);
                }
                (Some('*'), Some('/')) => {
                    self.skip(2);
                    depth = depth.saturating_sub(1);
                    if depth == 0 {
                        return Ok(());
                    }
                }
                (Some(_), _) => self.skip(1),
                (None, _) => return Err(CompileError::new(place, Problem::UnfinishedComment)),
            }
        }
        Err(CompileError::new(place, Problem::UnfinishedComment))
    }
}
