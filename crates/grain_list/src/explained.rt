//! The explanation of a program, and the verdict that it has.

ghost use Rattle.std.specs.Prelude.{◌≡◌, IfNone, IfOk, IfSome, OnOk, Option, string_bytes};
ghost use Rattle.std.specs.Option.{option_map};
ghost use Rattle.grain_lines.specs.LineCase.{Asked, as_asked};
ghost use Rattle.grain_lines.specs.Verdict.{Adds, IsVerdictOn};
ghost use Rattle.grain_list.specs.Listed.{Explains, IsNoProgram};

use grain::{Explained, explain};
use grain_explain::ExplainError;
use grain_lines::{LineCase, write_accepted};
use grain_rules::{NoPools, VerifyError};
use std::alloc::{AllocError, Global};

/// The explanation of the program in a case; none for other cases.
///
/// # Errors
/// [`AllocError`] if memory was refused.
pub fn explained_of(alloc: Global, case: &Option<LineCase>) -> Result<Option<Explained>, AllocError>
    ensures explained { IfOk result (λ found. IfSome found (Explains (option_map as_asked case.now))) }
    ensures programs { IfOk result
        (λ found. IfNone found (IsNoProgram (option_map as_asked case.now))) }
{
    let Some(LineCase::Verify { caps, code, chunks }) = case else {
        return Ok(None);
    };
    match explain(alloc, *caps, &[], code, &[], chunks, &NoPools) {
        Ok(explained) => Ok(Some(explained)),
        Err(ExplainError::OutOfMemory | ExplainError::BadCode) => Err(AllocError),
    }
}

/// Writes the verdict of an explanation behind the text.
///
/// # Errors
/// [`AllocError`] if memory was refused.
pub fn write_explained(text: &mut String, explained: &Explained) -> Result<(), AllocError>
    ensures { (question : Option Asked) → Explains question explained.now → OnOk result
        (Adds (IsVerdictOn question) (string_bytes text.old) (string_bytes text.new)) }
{
    match &explained.verdict {
        Ok(numbers) => write_accepted(text, numbers)?,
        Err(refusal) => match &refusal.error {
            VerifyError::OutOfMemory => return Err(AllocError),
            _ => write!(text, "refused {}", refusal.error)?,
        },
    }
    Ok(())
}
