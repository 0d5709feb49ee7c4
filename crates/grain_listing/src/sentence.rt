//! What is said of a refusal: what is wrong, and which rule it breaks.

use crate::shown::push_capabilities;
use grain_explain::Row;
use grain_rules::VerifyError;
use std::alloc::AllocError;

/// Writes a count of something, in words.
fn write_counted(count: usize, what: &str, text: &mut String) -> Result<(), AllocError> {
    match count {
        0 => write!(text, "no {what}s"),
        1 => write!(text, "1 {what}"),
        _ => write!(text, "{count} {what}s"),
    }
}

/// Writes how many of something there are on each of two paths.
fn write_both(one: u32, other: u32, what: &str, text: &mut String) -> Result<(), AllocError> {
    text.push_str(": one has ")?;
    write_counted(one as usize, what, text)?;
    text.push_str(", the other has ")?;
    write_counted(other as usize, what, text)?;
    text.push_str(".")
}

/// Writes in what two states at one address differ.
fn write_differing(here: &Row, there: &Row, text: &mut String) -> Result<(), AllocError> {
    let at = here.at;
    write!(text, "Two paths to {at} differ")?;
    if here.operands != there.operands {
        write_both(here.operands, there.operands, "operand", text)
    } else if here.iterators != there.iterators {
        write_both(here.iterators, there.iterators, "iterator", text)
    } else {
        text.push_str(" in the bases of armed handlers.")
    }
}

/// Writes what is wrong with a reached instruction, after its address.
fn write_wrong_instruction(error: &VerifyError, text: &mut String) -> Result<(), AllocError> {
    match *error {
        VerifyError::MissingCaps { missing, .. } => {
            text.push_str("needs capabilities that are not allowed: ")?;
            push_capabilities(missing, text)?;
            text.push_str(".")
        }
        VerifyError::JumpOutOfRange { target, .. } => {
            write!(text, "has the target {target}, which is outside the chunk.")
        }
        VerifyError::JumpIntoAnInstruction { target, .. } => {
            write!(
                text,
                "has the target {target}, where no instruction begins."
            )
        }
        VerifyError::Underflow { need, have, .. } => {
            text.push_str("needs ")?;
            write_counted(need, "operand", text)?;
            write!(text, ", and finds {have}.")
        }
        VerifyError::SinksBelowHandler { need, have, .. } => write!(
            text,
            "leaves {have} of the {need} entries that a stack had when the last handler was armed."
        ),
        VerifyError::FallsOffTheEnd => {
            text.push_str("is the last of the chunk, and execution can go on after it.")
        }
        VerifyError::IteratorUnderflow { .. } => {
            text.push_str("needs an iterator, and finds none.")
        }
        VerifyError::HandlerUnderflow { .. } => {
            text.push_str("needs an armed handler, and finds none.")
        }
        VerifyError::StackExceedsDeclared { .. }
        | VerifyError::DepthConflict { .. }
        | VerifyError::Undecodable { .. }
        | VerifyError::TrailingBytes { .. }
        | VerifyError::ChunkOutOfRange { .. }
        | VerifyError::BadIndex { .. }
        | VerifyError::OutOfMemory => write!(text, "is refused: {error}"),
    }
}

/// Writes that the stack is too deep at an address.
fn write_depth(at: u32, needed: usize, declared: u16, text: &mut String) -> Result<(), AllocError> {
    text.push_str("The chunk reaches ")?;
    write_counted(needed, "operand", text)?;
    write!(text, " at {at}, and declares {declared}.")
}

/// Writes what is wrong at the end of a path, if there is no other path.
fn write_wrong_there(error: &VerifyError, here: &Row, text: &mut String) -> Result<(), AllocError> {
    let at = here.at;
    match *error {
        VerifyError::StackExceedsDeclared { needed, declared } => {
            write_depth(at, needed, declared, text)
        }
        VerifyError::MissingCaps { .. }
        | VerifyError::JumpOutOfRange { .. }
        | VerifyError::JumpIntoAnInstruction { .. }
        | VerifyError::Underflow { .. }
        | VerifyError::SinksBelowHandler { .. }
        | VerifyError::FallsOffTheEnd
        | VerifyError::IteratorUnderflow { .. }
        | VerifyError::HandlerUnderflow { .. } => {
            write!(text, "The instruction at {at} ")?;
            write_wrong_instruction(error, text)
        }
        VerifyError::DepthConflict { .. }
        | VerifyError::Undecodable { .. }
        | VerifyError::TrailingBytes { .. }
        | VerifyError::ChunkOutOfRange { .. }
        | VerifyError::BadIndex { .. }
        | VerifyError::OutOfMemory => write!(text, "{error}"),
    }
}

/// Writes that a chunk runs backwards, or past the code.
fn write_out_of_range(
    entry: u32,
    end: u32,
    len: usize,
    text: &mut String,
) -> Result<(), AllocError> {
    write!(text, "The chunk ends at {end}, ")?;
    if end < entry {
        write!(text, "before its entry at {entry}.")
    } else {
        write!(text, "but the code has {len} bytes.")
    }
}

/// Writes that a chunk begins or ends inside an instruction.
fn write_inside(at: usize, target: u32, text: &mut String) -> Result<(), AllocError> {
    if at == target as usize {
        write!(
            text,
            "The chunk begins at {target}, where no instruction does."
        )
    } else {
        write!(text, "The chunk ends at {target}, inside an instruction.")
    }
}

/// Writes what is wrong with the code, or with the chunk itself. No path leads to that.
fn write_wrong_frame(error: &VerifyError, text: &mut String) -> Result<(), AllocError> {
    match *error {
        VerifyError::Undecodable { at } => write!(text, "There is no instruction at {at}."),
        VerifyError::BadIndex { at, what, index } => write!(
            text,
            "The instruction at {at} refers to {what} {index}, which does not exist."
        ),
        VerifyError::ChunkOutOfRange { entry, end, len } => {
            write_out_of_range(entry, end, len, text)
        }
        VerifyError::JumpIntoAnInstruction { at, target } => write_inside(at, target, text),
        VerifyError::FallsOffTheEnd => text.push_str("The chunk is empty."),
        VerifyError::MissingCaps { .. }
        | VerifyError::TrailingBytes { .. }
        | VerifyError::JumpOutOfRange { .. }
        | VerifyError::DepthConflict { .. }
        | VerifyError::Underflow { .. }
        | VerifyError::StackExceedsDeclared { .. }
        | VerifyError::IteratorUnderflow { .. }
        | VerifyError::HandlerUnderflow { .. }
        | VerifyError::SinksBelowHandler { .. }
        | VerifyError::OutOfMemory => write!(text, "{error}"),
    }
}

/// Writes what is wrong, in a sentence. The paths are those to the flaw, the last state first; there are none if the code or
/// the chunk itself is refused.
///
/// # Errors
/// [`AllocError`] if memory was refused.
pub fn write_wrong(
    error: &VerifyError,
    path: &[Row],
    other: &[Row],
    text: &mut String,
) -> Result<(), AllocError> {
    match (path.first(), other.first()) {
        (Some(here), Some(there)) => write_differing(here, there, text),
        (Some(here), None) => write_wrong_there(error, here, text),
        (None, _) => write_wrong_frame(error, text),
    }
}

/// The rule that a refusal breaks (docs/FORMAT.md, "Verification").
pub fn rule(error: &VerifyError) -> &'static str {
    match error {
        VerifyError::MissingCaps { .. } => {
            "The host must have the capabilities that reached instructions need."
        }
        VerifyError::Undecodable { .. } | VerifyError::TrailingBytes { .. } => {
            "Code must be whole instructions, also where it is unreachable."
        }
        VerifyError::ChunkOutOfRange { .. } =>
            "A chunk must lie in the code, and must not end before its entry.",
        VerifyError::JumpOutOfRange { .. } =>
            "The target of a reached instruction must lie in the chunk.",
        VerifyError::JumpIntoAnInstruction { .. } => {
            "An instruction must begin at each entry and target, and one must end where a chunk ends."
        }
        VerifyError::DepthConflict { .. } => {
            "All paths to an address must agree in operands, iterators and the bases of armed handlers."
        }
        VerifyError::Underflow { .. } => "An instruction must find the operands that it needs.",
        VerifyError::FallsOffTheEnd =>
            "A chunk must not be empty, and no path may lead to its end.",
        VerifyError::StackExceedsDeclared { .. } => {
            "No path may reach more operands than the chunk declares."
        }
        VerifyError::IteratorUnderflow { .. } =>
            "An instruction must find the iterator that it needs.",
        VerifyError::HandlerUnderflow { .. } => {
            "An instruction must find the armed handler that it needs."
        }
        VerifyError::SinksBelowHandler { .. } => {
            "Unless it is quiet, an instruction must leave what the stacks had when the last handler was armed."
        }
        VerifyError::BadIndex { .. } => "An index must be below the size of its pool.",
        VerifyError::OutOfMemory => "There must be enough memory.",
    }
}
