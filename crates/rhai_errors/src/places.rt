//! Which places lie in a source text.
ghost use Rattle.std.specs.Prelude.{◌≡◌, ◌+◌, ◌↔◌, IsTrue};
ghost use Rattle.rhai_errors.specs.Places.{IsConfined, HasPlaces, LiesIn, naming, place_named};

use crate::error::{CompileError, Problem};
use grain_base::pos::Site;

/// Whether it is the place of a character of the text, or the one right behind the last. It goes over the text once.
fn is_in(place: Site, source: &str) -> bool
    ensures { IsTrue result ↔ LiesIn source.now place }
{
    // No count passes the length of the text.
    let _most = source.len();
    let mut lines: usize = 0;
    let mut columns: usize = 0;
    for c in source.chars() {
        if is_behind(place, lines, columns) {
            return true;
        }
        if c == '\n' {
            lines += 1;
            columns = 0;
        } else {
            columns += 1;
        }
    }
    is_behind(place, lines, columns)
}

/// The place if it lies in the text, and none otherwise. It goes over the text once.
fn confine(place: Site, source: &str) -> Site
    ensures { IsConfined source.now place result }
{
    if is_in(place, source) {
        place
    } else {
        Site::NONE
    }
}

/// Whether this many lines are before the line of the place, and this many characters of its line before it.
fn is_behind(place: Site, lines: usize, columns: usize) -> bool
    ensures { IsTrue result ↔ (place.line ≡ lines + 1) × (place.column ≡ columns + 1) }
{
    place.line > 0
        && place.column > 0
        && (place.line - 1) as usize == lines
        && (place.column - 1) as usize == columns
}

impl Problem {
    /// The problem, without a place that doesn't lie in the text.
    fn within(self, source: &str) -> Problem
        ensures confined { IsConfined source.now (place_named self) (place_named result) }
        ensures same { result ≡ naming (place_named result) self }
    {
        match self {
            Problem::Unclosed(thing, opened) => Problem::Unclosed(thing, confine(opened, source)),
            Problem::UnknownVariable(similar) => Problem::UnknownVariable(confine(similar, source)),
            problem => problem,
        }
    }
}

impl CompileError {
    /// The error, without places that don't lie in the text. It goes over the text twice at most.
    #[must_use]
    pub fn within(self, source: &str) -> CompileError
        ensures own { IsConfined source.now self.place result.place }
        ensures other { IsConfined source.now (place_named self.problem) (place_named result.problem) }
        ensures problem { result.problem ≡ naming (place_named result.problem) self.problem }
        ensures placed { HasPlaces source.now result }
    {
        CompileError::new(confine(self.place, source), self.problem.within(source))
    }
    /// The error in one of several texts whose lines are counted on: with the lines of that text, of which this many lines of
    /// other texts come first.
    #[must_use]
    pub fn counted_from(self, lines: u32) -> CompileError {
        let problem = match self.problem {
            Problem::Unclosed(thing, opened) => Problem::Unclosed(thing, above(opened, lines)),
            Problem::UnknownVariable(similar) => Problem::UnknownVariable(above(similar, lines)),
            problem => problem,
        };
        CompileError::new(above(self.place, lines), problem)
    }
}

/// The place this many lines above, or none if there aren't as many.
fn above(place: Site, lines: u32) -> Site {
    if place.line > lines {
        Site {
            line: place.line - lines,
            column: place.column,
        }
    } else {
        Site::NONE
    }
}
