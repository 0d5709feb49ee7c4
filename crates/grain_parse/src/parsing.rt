//! From a text to a program.
ghost use Rattle.std.specs.Prelude.{◌≡◌, ◌<◌, ◌≤◌, ℕ, List, IfErr, IfOk, Some, length, slice_get};
ghost use Rattle.std.specs.Str.Lines.{lines};
ghost use Rattle.grain.specs.Verified.{IsVerified};
ghost use Rattle.grain_parse.specs.Placed.{IsPlacedError};
ghost use Rattle.grain_pools.specs.Names.{texts};

use crate::draft::{Draft, most_positions};
use crate::error::{Flaw, ParseError, SyntaxError, Unfinished};
use crate::labels::Labels;
use crate::parsed::Parsed;
use crate::sections::Pass;
use grain::{Program, Verified};
use grain_lexer::{LineCursor, LineStop};
use grain_rules::VerifyError;
use std::alloc::{AllocError, Global};

/// The lines of a text, without what ends them.
fn lines_of(alloc: Global, text: &str) -> Result<Vec<&str>, AllocError>
    ensures { IfOk result (λ v. texts v.items ≡ lines text.now) }
{
    text.lines().collect(alloc)
}

/// The line at an index.
fn line_at<'a>(lines: &[&'a str], at: usize) -> &'a str
    requires { at < length lines.now }
    ensures { slice_get (texts lines.now) at ≡ Some result.now }
{
    lines[at]
}

/// The refusal of a line.
fn refusal_of(alloc: Global, lines: &[&str], flaw: Flaw) -> ParseError
    requires { flaw.line < length lines.now }
    ensures { IsPlacedError (texts lines.now) result }
{
    let LineStop::Fault(problem) = flaw.stop else {
        return ParseError::OutOfMemory;
    };
    let line = line_at(lines, flaw.line);
    match String::from_str(alloc, line) {
        Ok(text) => ParseError::Syntax(SyntaxError {
            line: flaw.line + 1,
            column: line.len().saturating_sub(flaw.left) + 1,
            text,
            problem,
        }),
        Err(_) => ParseError::OutOfMemory,
    }
}

/// Reads the lines of a pass, one after another.
fn read_pass(
    alloc: Global,
    labels: &Labels,
    pass: Pass,
    lines: &[&str],
    draft: &mut Draft,
) -> Result<(), Flaw>
    ensures { IfErr result (λ flaw. flaw.line < length lines.now) }
{
    draft.begin();
    for (line, text) in lines.iter().enumerate() {
        let mut cursor = LineCursor {
            alloc,
            left: text.as_bytes(),
        };
        if let Err(stop) = draft.read_line(labels, pass, &mut cursor) {
            let left = cursor.left.len();
            return Err(Flaw { line, left, stop });
        }
    }
    Ok(())
}

/// The lines before the one that is refused, or all.
fn before<'a, 'b>(lines: &'a [&'b str], read: &Result<(), Flaw>) -> &'a [&'b str]
    ensures { length result.now ≤ length lines.now }
{
    match read {
        Ok(()) => lines,
        Err(flaw) => lines.get(..flaw.line).unwrap_or(lines),
    }
}

/// Reads the lines, pass by pass. What is refused is the first line that any pass refuses: a later pass goes only up to the line
/// that an earlier one refuses.
fn read_lines(alloc: Global, labels: &Labels, lines: &[&str]) -> Result<Draft, Flaw>
    ensures { IfErr result (λ flaw. flaw.line < length lines.now) }
{
    let mut draft = Draft::new(alloc, most_positions(lines));
    let entries = read_pass(alloc, labels, Pass::Entries, lines, &mut draft);
    let front = before(lines, &entries);
    let assign_ops = read_pass(alloc, labels, Pass::OpAssignments, front, &mut draft);
    let front = before(front, &assign_ops);
    read_pass(alloc, labels, Pass::Rest, front, &mut draft)?;
    assign_ops?;
    entries?;
    Ok(draft)
}

/// What was read, as a program. If it has none, no line is at fault.
fn finish(alloc: Global, draft: Draft) -> Result<Parsed, ParseError>
    ensures { (texts : List (List ℕ)) → IfErr result (IsPlacedError texts) }
{
    match draft.finish(alloc) {
        Ok(parsed) => Ok(parsed),
        Err(Unfinished::NamesTooLong) => Err(ParseError::NamesTooLong),
        Err(Unfinished::OutOfMemory) => Err(ParseError::OutOfMemory),
    }
}

/// Reads lines.
fn draft_of(alloc: Global, lines: &[&str]) -> Result<Draft, Flaw>
    ensures { IfErr result (λ flaw. flaw.line < length lines.now) }
{
    match Labels::of(alloc, lines) {
        Ok(labels) => read_lines(alloc, &labels, lines),
        Err(flaw) => Err(flaw),
    }
}

/// What an assembly text says (docs/ASSEMBLY.md), before anything is verified.
///
/// It goes over the text four times, and takes memory for the program, a label for each that is defined, and a slice for each line.
/// For a name, a plain constant, an operator and an op-assignment in place it goes over the entries that are there.
///
/// # Errors
/// `Syntax` with the first line that is wrong, labels before all else. `NamesTooLong` if its names have more than 4294967295
/// bytes, `OutOfMemory` if an allocation failed.
pub fn read(alloc: Global, text: &str) -> Result<Parsed, ParseError>
    // A line that is refused is one of the text, and the column is in it or one past its end.
    ensures { IfErr result (IsPlacedError (lines text.now)) }
{
    let lines = lines_of(alloc, text)?;
    match draft_of(alloc, &lines) {
        Ok(draft) => finish(alloc, draft),
        Err(flaw) => Err(refusal_of(alloc, &lines, flaw)),
    }
}

/// The program of an assembly text. Only if a chunk says `stack auto`, or nothing of its stack, it is verified;
/// [`parse_accepted`] verifies each. It costs one [`read`] and one [`Parsed::finish`].
///
/// # Errors
/// As [`read`], and `Refused` if the program has to be verified and isn't accepted.
pub fn parse(alloc: Global, text: &str) -> Result<Program, ParseError>
    ensures { IfErr result (IsPlacedError (lines text.now)) }
{
    match read(alloc, text) {
        Ok(parsed) => parsed.finish(alloc),
        Err(error) => Err(error),
    }
}

/// The program of an assembly text, verified.
///
/// # Errors
/// As [`parse`], and `Refused` if the program isn't accepted.
pub fn parse_accepted(alloc: Global, text: &str) -> Result<Verified, ParseError>
    ensures verified { IfOk result IsVerified }
    ensures placed { IfErr result (IsPlacedError (lines text.now)) }
{
    match parse(alloc, text)?.into_verified() {
        Ok(verified) => Ok(verified),
        Err(rejected) => match rejected.refusal.error {
            VerifyError::OutOfMemory => Err(ParseError::OutOfMemory),
            error => Err(ParseError::Refused(error)),
        },
    }
}
