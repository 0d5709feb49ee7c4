//! The colours of a terminal.

use std::alloc::AllocError;

/// Whether texts are coloured.
#[derive(Clone, Copy)]
pub enum Paint {
    /// They aren't.
    Plain,
    /// By the codes that terminals know.
    Coloured,
}

/// What a piece of a listing is.
#[derive(Clone, Copy)]
pub enum Kind {
    /// What passes.
    Good,
    /// A flaw, and the path to it.
    Flaw,
    /// What is unreachable or not visited.
    Unreached,
    /// A heading.
    Heading,
    /// None of these.
    Usual,
}

impl Kind {
    /// The code that begins it on a terminal.
    fn code(self) -> &'static str {
        match self {
            Kind::Good => "\x1b[32m",
            Kind::Flaw => "\x1b[31m",
            Kind::Unreached => "\x1b[90m",
            Kind::Heading => "\x1b[1m",
            Kind::Usual => "",
        }
    }
}

impl Paint {
    /// Begins a piece of the text.
    pub fn begin(self, kind: Kind, text: &mut String) -> Result<(), AllocError> {
        match self {
            Paint::Plain => Ok(()),
            Paint::Coloured => text.push_str(kind.code()),
        }
    }

    /// Ends a piece of the text.
    pub fn end(self, kind: Kind, text: &mut String) -> Result<(), AllocError> {
        match (self, kind) {
            (Paint::Plain, _) | (Paint::Coloured, Kind::Usual) => Ok(()),
            (Paint::Coloured, _) => text.push_str("\x1b[0m"),
        }
    }

    /// Writes a whole piece.
    pub fn write(self, kind: Kind, piece: &str, text: &mut String) -> Result<(), AllocError> {
        self.begin(kind, text)?;
        text.push_str(piece)?;
        self.end(kind, text)
    }
}
