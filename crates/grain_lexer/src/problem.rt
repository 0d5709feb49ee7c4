//! What is wrong with a line of assembly text.
ghost use Rattle.std.specs.Prelude.{◌≡◌};
ghost use Rattle.grain_lexer.specs.declared.problem.LineStop.TheVariants.{OutOfMemory};

use std::alloc::{AllocError, AllocFailed};
use thiserror::Error;

/// What is wrong with a line, at the first place where something is.
#[derive(Clone, Copy, Debug, PartialEq, Eq, Error)]
pub enum LineProblem {
    /// A directive isn't one of docs/ASSEMBLY.md.
    #[error("no such directive")]
    Directive,
    /// A directive that begins no section is given a second time.
    #[error("directive given twice")]
    DirectiveTwice,
    /// `.positions` comes after a position.
    #[error("`.positions` comes after a position")]
    LatePositions,
    /// There is a main chunk already.
    #[error("second `main`")]
    MainTwice,
    /// A word begins no line of the section.
    #[error("this begins no line of the section")]
    Word,
    /// No instruction has the name.
    #[error("no such instruction")]
    Mnemonic,
    /// No label has the name.
    #[error("no such label")]
    UnknownLabel,
    /// A label is defined twice.
    #[error("label defined twice")]
    LabelTwice,
    /// A label begins with a digit, so that it would be taken for an address.
    #[error("label begins with a digit")]
    LabelNumber,
    /// A word, a text or an index is missing.
    #[error("a name or a number is missing")]
    Missing,
    /// Something follows the end of the line's item.
    #[error("something follows")]
    Trailing,
    /// Another character is expected.
    #[error("unexpected character")]
    Mark,
    /// A number is not decimal digits, or 0x and hexadecimal digits.
    #[error("not a number")]
    NotNumber,
    /// An integer, or the number of a program, is not decimal digits.
    #[error("not a decimal number")]
    NotDecimal,
    /// A number doesn't fit.
    #[error("number too large")]
    TooWide,
    /// A text or a character doesn't end on its line.
    #[error("literal without its end")]
    NoEnd,
    /// An escape is unknown.
    #[error("unknown escape")]
    Escape,
    /// A text is not UTF-8.
    #[error("text is not UTF-8")]
    NotText,
    /// A character literal has no character or several.
    #[error("not one character")]
    NotCharacter,
    /// A word or a mark begins no value.
    #[error("not a value")]
    NotValue,
    /// Bytes are not pairs of hexadecimal digits.
    #[error("not hexadecimal digits")]
    NotHex,
    /// Values are nested deeper than 64.
    #[error("values nested too deep")]
    TooDeep,
    /// A key of an object map is repeated.
    #[error("key repeated")]
    SameKey,
    /// A case of a switch is repeated.
    #[error("case repeated")]
    SameCase,
    /// A case or a range comes before any switch.
    #[error("no switch before this")]
    NoSwitch,
    /// The text is no operator.
    #[error("no such operator")]
    NotOperator,
    /// The text is no op-assignment.
    #[error("no such op-assignment")]
    NotAssignOp,
    /// No capability has the name.
    #[error("no such capability")]
    NotCapability,
    /// A position has line 0.
    #[error("position without a line")]
    NoLine,
    /// A position is outside of `.positions`.
    #[error("position outside of .positions")]
    NoPosition,
}

/// Why reading a line stopped.
#[derive(Clone, Copy, Debug, PartialEq, Eq)]
pub enum LineStop {
    /// The allocator refused.
    OutOfMemory,
    /// The text at the cursor is wrong.
    Fault(LineProblem),
}

impl From<AllocError> for LineStop {
    ghost from_gives = { λ _ e. e ≡ OutOfMemory };

    fn from(_e: AllocError) -> LineStop {
        LineStop::OutOfMemory
    }
}

impl<T: Drop> From<AllocFailed<T>> for LineStop {
    ghost from_gives = { λ _ e. e ≡ OutOfMemory };

    fn from(_e: AllocFailed<T>) -> LineStop {
        LineStop::OutOfMemory
    }
}
