//! What is said of a program that is refused before its chunks.

use crate::naming::Naming;
use crate::sentence::{rule, write_wrong};
use crate::shown::push_capabilities;
use grain::Program;
use grain_base::{Caps, Flags};
use grain_rules::{VerifyError, allows, constant_caps};
use std::alloc::AllocError;
use std::fmt;

/// What of a program besides its code needs capabilities that it doesn't declare.
#[derive(Clone, Copy, Debug, PartialEq, Eq)]
pub enum Needing {
    /// The constant at this index.
    Constant(usize),
    /// That there are functions.
    Functions,
}

/// `constant 0`, or `functions`.
impl fmt::Display for Needing {
    fn fmt<W: fmt::Write>(&self, f: &mut fmt::Formatter<W>) -> fmt::Result {
        match self {
            Needing::Constant(index) => write!(f, "constant {index}"),
            Needing::Functions => f.write_str("functions"),
        }
    }
}

/// Whether a constant needs only these capabilities.
fn passes(program: &Program, index: usize) -> bool {
    match program.consts().get(index) {
        Some(value) => match constant_caps(value) {
            Some(asked) => allows(program.caps(), asked),
            None => true,
        },
        None => true,
    }
}

/// The first of the constants that needs a capability which the program doesn't declare, or else the functions if they do. It takes
/// time by the size of the constants.
pub fn lacking(program: &Program) -> Option<Needing> {
    if let Some(index) = (0..program.consts().len()).find(|index| !passes(program, *index)) {
        return Some(Needing::Constant(index));
    }
    if program.functions().is_empty() || allows(program.caps(), Caps::FUNCTION) {
        None
    } else {
        Some(Needing::Functions)
    }
}

/// Appends who needs capabilities.
fn push_needing(needing: Needing, text: &mut String) -> Result<(), AllocError> {
    match needing {
        Needing::Constant(index) => write!(text, "Constant {index} needs"),
        Needing::Functions => text.push_str("The functions need"),
    }
}

/// Appends what is wrong with a program before its chunks, in a sentence.
pub fn write_early_wrong(
    naming: Naming<'_>,
    error: &VerifyError,
    text: &mut String,
) -> Result<(), AllocError> {
    let (Naming::Program(program), VerifyError::MissingCaps { missing, .. }) = (naming, error)
    else {
        return write_wrong(error, &[], &[], text);
    };
    let Some(needing) = lacking(program) else {
        return write_wrong(error, &[], &[], text);
    };
    push_needing(needing, text)?;
    text.push_str(" capabilities that the program does not declare: ")?;
    push_capabilities(missing.difference(program.caps()), text)?;
    text.push_str(".")
}

/// The rule that a program breaks before its chunks.
pub fn early_rule(error: &VerifyError) -> &'static str {
    match error {
        VerifyError::MissingCaps { .. } => {
            "A program must declare the capabilities that its constants need, and FUNCTION where it has functions."
        }
        error => rule(error),
    }
}
