//! Places in the source text.
ghost use Rattle.std.specs.Prelude.{◌≡◌, ◌≤◌, ◌<◌, ◌^◌, Some, IfSome};

use std::fmt;

/// A line of the source text and a column in it, or no place at all.
///
/// Lines and columns are counted from 1; a column of 0 means the line as a whole. Each call takes constant time.
#[derive(Clone, Copy, PartialEq, Eq)]
pub struct Position {
    line: u16,
    column: u16,
    ghost line_fits: { line < 2 ^ 16 },
    ghost column_fits: { column < 2 ^ 16 },
    ghost no_place: { line ≡ 0 → column ≡ 0 },
}

impl Position {
    ghost use Rattle.grain_base.specs.Place.{place_of, line_of, column_of, is_none};

    /// No place in the source text.
    pub const NONE: Position = Position { line: 0, column: 0 };

    /// The place at this line and column; a column of 0 means the line as a whole.
    ///
    /// The line has to be 1 or more.
    #[must_use]
    pub fn new(line: u16, column: u16) -> Position
        requires { 1 ≤ line }
        ensures { place_of result ≡ Some (line, column) }
    {
        Position { line, column }
    }

    /// The line, or `None` if this is no place.
    #[must_use]
    pub fn line(&self) -> Option<usize>
        ensures value { result ≡ line_of self.now }
        ensures small { IfSome result (λ line. line < 2 ^ 16) }
    {
        if self.line == 0 {
            None
        } else {
            Some(usize::from(self.line))
        }
    }

    /// The column, or `None` if this is no place or a line as a whole.
    #[must_use]
    pub fn position(&self) -> Option<usize>
        ensures value { result ≡ column_of self.now }
        ensures small { IfSome result (λ column. column < 2 ^ 16) }
    {
        if self.column == 0 {
            None
        } else {
            Some(usize::from(self.column))
        }
    }

    /// Whether this is no place.
    #[must_use]
    pub fn is_none(&self) -> bool
        ensures { result ≡ is_none self.now }
    {
        self.line == 0
    }
}

/// `none`, or the line and the column with a colon between them.
impl fmt::Display for Position {
    ghost use Rattle.std.specs.Prelude.{Some};
    ghost use Rattle.grain_base.specs.Place.{position_text};

    ghost output = { λ p. Some (position_text p) };

    fn fmt<W: fmt::Write>(&self, f: &mut fmt::Formatter<W>) -> fmt::Result {
        let line = self.line;
        let column = self.column;
        if line == 0 {
            write!(f, "none")
        } else {
            write!(f, "{line}:{column}")
        }
    }
}

/// The text of `Display`.
impl fmt::Debug for Position {
    ghost use Rattle.std.specs.Prelude.{Some};
    ghost use Rattle.grain_base.specs.Place.{position_text};

    ghost debug_output = { λ p. Some (position_text p) };

    fn fmt<W: fmt::Write>(&self, f: &mut fmt::Formatter<W>) -> fmt::Result {
        fmt::Display::fmt(self, f)
    }
}
