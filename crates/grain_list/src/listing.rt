//! What is listed of a line.

ghost use Rattle.std.specs.Prelude.{◌≡◌, IfNone, IfOk, IfSome, Option, is_none, string_bytes};
ghost use Rattle.std.specs.Option.{option_map};
ghost use Rattle.grain_lines.specs.LineCase.{Asked, as_asked, asked};
ghost use Rattle.grain_lines.specs.Verdict.{Verdict};
ghost use Rattle.grain_list.specs.Listed.{Explains, IsNoProgram, IsShown};

use crate::explained::{explained_of, write_explained};
use crate::problem::Problem;
use grain::Explained;
use grain_lines::{LineCase, case_of, write_verdict};
use grain_listing::{CodeListing, ProgramListing};
use std::alloc::{AllocError, Global};

/// What is shown after the verdict.
#[derive(Drop)]
pub enum Body {
    /// What is wrong with a bad case.
    Bad(Problem),
    /// Of a site nothing.
    Site,
    /// Code alone.
    Code(CodeListing),
    /// Code with its chunks.
    Program(ProgramListing),
}

/// What is listed of a line.
#[derive(Drop)]
pub struct Listing {
    /// The line as text, with a question mark for each byte that isn't printable ASCII.
    pub line: String,
    /// The verdict.
    pub verdict: String,
    /// What is shown after it.
    pub body: Body,
}

/// The line as text, with a question mark for each byte that isn't printable ASCII.
fn printable(alloc: Global, line: &[u8]) -> Result<String, AllocError> {
    line.iter()
        .map(|byte| match *byte {
            b' '..=b'~' => char::from(*byte),
            _ => '?',
        })
        .collect(alloc)
}

/// What is shown of a case with this explanation.
///
/// # Errors
/// [`AllocError`] if memory was refused.
fn body_of(
    alloc: Global,
    line: &[u8],
    case: Option<LineCase>,
    explained: Option<Explained>,
) -> Result<Body, AllocError>
    requires explained { IfSome explained (Explains (option_map as_asked case)) }
    requires programs { IfNone explained (IsNoProgram (option_map as_asked case)) }
    ensures { IfOk result (IsShown (option_map as_asked case)) }
{
    match case {
        None => Ok(Body::Bad(Problem::of(line))),
        Some(LineCase::Site { .. }) => Ok(Body::Site),
        Some(LineCase::Code { code }) => Ok(Body::Code(CodeListing::of(alloc, code)?)),
        Some(LineCase::Verify { code, chunks, .. }) => {
            let Some(explained) = explained else {
                unreachable!();
            };
            Ok(Body::Program(ProgramListing::new(alloc, code, chunks, explained)?))
        }
    }
}

impl Listing {
    /// The listing of a line that is neither empty nor a comment.
    ///
    /// # Errors
    /// [`AllocError`] if memory was refused.
    pub fn of(alloc: Global, line: &[u8]) -> Result<Listing, AllocError>
        ensures verdict { IfOk result (λ l. Verdict line.now (string_bytes l.verdict)) }
        ensures shown { IfOk result (λ l. IsShown (asked line.now) l.body) }
    {
        let mut verdict = String::new(alloc);
        let case = case_of(alloc, line)?;
        let explained = explained_of(alloc, &case)?;
        match &explained {
            Some(explained) => write_explained(&mut verdict, explained)?,
            None => write_verdict(alloc, &mut verdict, &case)?,
        }
        let body = body_of(alloc, line, case, explained)?;
        Ok(Listing {
            line: printable(alloc, line)?,
            verdict,
            body,
        })
    }

    /// Whether the line is no case.
    pub fn is_bad(&self) -> bool
        ensures { (question : Option Asked) → IsShown question self.now.body
            → result ≡ is_none question }
    {
        matches!(&self.body, Body::Bad(_))
    }
}
