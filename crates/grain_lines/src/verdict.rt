//! The verdict on a case, in each of its forms.

ghost use Rattle.std.specs.Prelude.{◌≡◌, ◌≢◌, ◌++◌, Ok, Err, IfErr, IfOk, OnOk, string_bytes};
ghost use Rattle.std.specs.Option.{option_map};
ghost use Rattle.grain_base.specs.CapBits.{set_of};
ghost use Rattle.grain_rules.specs.declared.error.VerifyError.{VerifyError};
ghost use Rattle.grain_lines.specs.LineCase.{as_asked};
ghost use Rattle.grain_lines.specs.Verdict.{Adds, CodeVerdict, IsJudged, IsVerdictOn, SiteVerdict};
ghost use Rattle.grain_lines.specs.Verdict.{VerifyVerdict, accepted_text, program};

use crate::case::LineCase;
use grain_base::{Caps, pos};
use grain_code::{Chunk, count_instructions};
use grain_rules::{Candidate, NoPools, VerifyError};
use grain_verify::{Meter, Scratch};
use std::alloc::{AllocError, Global};

/// Appends the verdict on code to the text.
fn write_count(text: &mut String, code: &[u8]) -> Result<(), AllocError>
    ensures { OnOk result
        (Adds (CodeVerdict code.now) (string_bytes text.old) (string_bytes text.new)) }
{
    match count_instructions(code) {
        Ok(count) => write!(text, "whole {count}")?,
        Err(at) => {
            let refusal = VerifyError::Undecodable { at };
            write!(text, "{refusal}")?;
        }
    }
    Ok(())
}

/// Appends the verdict on an address to the text.
fn write_site(text: &mut String, table: &[u8], address: u32) -> Result<(), AllocError>
    ensures { OnOk result (Adds (SiteVerdict table.now address)
        (string_bytes text.old) (string_bytes text.new)) }
{
    match pos::resolve(table, address) {
        Some(site) => write!(text, "site {}:{}", site.line, site.column)?,
        None => text.push_str("none")?,
    }
    Ok(())
}

/// Appends acceptance to the text, with the number of each chunk.
pub fn write_accepted(text: &mut String, numbers: &[u16]) -> Result<(), AllocError>
    ensures { OnOk result
        (string_bytes text.new ≡ string_bytes text.old ++ accepted_text numbers.now) }
{
    text.push_str("accepted")?;
    for number in numbers {
        write!(text, " {number}")?;
    }
    Ok(())
}

/// The greatest operand count that any run of each chunk reaches, or why the program is refused. It
/// has no constants and no functions, and all its pools are empty.
fn judged<'a>(
    alloc: Global,
    scratch: &mut Scratch,
    caps: Caps,
    code: &'a [u8],
    chunks: &'a [Chunk],
) -> Result<Vec<u16>, VerifyError>
    ensures accepted { IfOk result (λ numbers.
        IsJudged (program (set_of caps) code.now chunks.now) (Ok numbers.items)) }
    ensures refused { IfErr result (λ error. error ≢ VerifyError.OutOfMemory
        → IsJudged (program (set_of caps) code.now chunks.now) (Err error)) }
{
    let candidate = Candidate::new(caps, &[], code, &[], chunks, &NoPools);
    match scratch.verify(alloc, &candidate, &mut Meter::new()) {
        Ok(numbers) => Ok(numbers),
        Err(refusal) => Err(refusal.error),
    }
}

/// Appends the verdict on a program to the text, and nothing if memory runs out.
fn write_judged(
    alloc: Global,
    scratch: &mut Scratch,
    text: &mut String,
    caps: Caps,
    code: &[u8],
    chunks: &[Chunk],
) -> Result<(), AllocError>
    ensures { OnOk result (Adds (VerifyVerdict (program (set_of caps) code.now chunks.now))
        (string_bytes text.old) (string_bytes text.new)) }
{
    match judged(alloc, scratch, caps, code, chunks) {
        Ok(numbers) => {
            write_accepted(text, &numbers)?;
            scratch.keep(numbers);
        }
        Err(error) => match error {
            VerifyError::OutOfMemory => return Err(AllocError),
            _ => write!(text, "refused {error}")?,
        },
    }
    Ok(())
}

/// Appends the verdict on a case to the text, or `bad case` for a line without a form, in the
/// memory of a scratch, whatever that was used for before.
///
/// # Errors
/// [`AllocError`] if memory was refused, to the text or to the verifier.
pub(crate) fn write_verdict_with(
    alloc: Global,
    scratch: &mut Scratch,
    text: &mut String,
    case: &Option<LineCase>,
) -> Result<(), AllocError>
    ensures { OnOk result (Adds (IsVerdictOn (option_map as_asked case.now))
        (string_bytes text.old) (string_bytes text.new)) }
{
    match case {
        Some(LineCase::Code { code }) => write_count(text, code),
        Some(LineCase::Site { table, address }) => write_site(text, table, *address),
        Some(LineCase::Verify { caps, code, chunks }) => {
            write_judged(alloc, scratch, text, *caps, code, chunks)
        }
        None => text.push_str("bad case"),
    }
}

/// Appends the verdict on a case to the text, or `bad case` for a line without a form.
///
/// # Errors
/// [`AllocError`] if memory was refused, to the text or to the verifier.
pub fn write_verdict(
    alloc: Global,
    text: &mut String,
    case: &Option<LineCase>,
) -> Result<(), AllocError>
    ensures { OnOk result (Adds (IsVerdictOn (option_map as_asked case.now))
        (string_bytes text.old) (string_bytes text.new)) }
{
    write_verdict_with(alloc, &mut Scratch::new(alloc), text, case)
}
