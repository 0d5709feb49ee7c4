//! Sections and directives.
ghost use Rattle.std.specs.Prelude.{◌≡◌, ◌≢◌, ◌↔◌, IfOk, IsTrue, MatchOption};
ghost use Rattle.grain_lexer.specs.Blanks.{ReadsText, unblanked};
ghost use Rattle.grain_parse.specs.Directives.{directive_of, pass_of};
ghost use Rattle.grain_parse.specs.declared.sections.Section.{Section};

use grain_lexer::{LineCursor, LineStop};

/// What the lines that follow are.
#[derive(Clone, Copy, PartialEq, Eq)]
pub(crate) enum Section {
    /// Names.
    Names,
    /// Constants.
    Constants,
    /// Operators.
    Operators,
    /// Op-assignments.
    OpAssignments,
    /// Chains.
    Chains,
    /// Switches, with their cases and ranges.
    Switches,
    /// The main chunk and the functions.
    Chunks,
    /// Instructions and labels. A text begins with these.
    Code,
    /// Positions by their addresses.
    Places,
}

/// Which sections are read at a time. A text is read three times, so that an entry written in an instruction follows the entries of all
/// sections.
#[derive(Clone, Copy, PartialEq, Eq)]
pub(crate) enum Pass {
    /// Directives, and the sections whose entries add no other entries.
    Entries,
    /// Op-assignments, in which names are entered.
    OpAssignments,
    /// All other sections.
    Rest,
}

impl Pass {
    /// Whether the entries of a section are read.
    pub fn reads(self, section: Section) -> bool
        ensures { IsTrue result ↔ (self ≡ pass_of section) }
    {
        match section {
            Section::Names | Section::Constants | Section::Operators => self == Pass::Entries,
            Section::OpAssignments => self == Pass::OpAssignments,
            Section::Chains
            | Section::Switches
            | Section::Chunks
            | Section::Code
            | Section::Places => self == Pass::Rest,
        }
    }
}

/// The section that a directive begins.
pub(crate) fn section_named(directive: &str) -> Option<Section>
    ensures { MatchOption result
        ((section : Section) → directive_of section ≢ directive.now)
        (λ section. directive_of section ≡ directive.now) }
{
    match directive {
        ".names" => Some(Section::Names),
        ".constants" => Some(Section::Constants),
        ".operators" => Some(Section::Operators),
        ".op-assignments" => Some(Section::OpAssignments),
        ".chains" => Some(Section::Chains),
        ".switches" => Some(Section::Switches),
        ".chunks" => Some(Section::Chunks),
        ".code" => Some(Section::Code),
        ".places" => Some(Section::Places),
        _ => None,
    }
}

/// Reads a directive, if the line begins with one: a dot and a letter.
pub(crate) fn read_directive<'a>(cursor: &mut LineCursor<'a>) -> Result<Option<&'a str>, LineStop>
    ensures { IfOk result (λ found. MatchOption found
        (cursor.new.left.now ≡ unblanked cursor.old.left.now)
        (λ directive. ReadsText cursor.old.left.now directive.now cursor.new.left.now)) }
{
    cursor.blanks();
    match cursor.left {
        [b'.', b'a'..=b'z' | b'A'..=b'Z', ..] => Ok(Some(cursor.spelling()?)),
        _ => Ok(None),
    }
}
