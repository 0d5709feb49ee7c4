//! Which programs a host takes. `validate`, `list`, `flow` and `run` agree on that: the host has all capabilities that the program
//! declares, its chunks don't span more code than is allowed, and it is accepted under the capabilities that it declares.

use crate::arguments::Argument;
use crate::failure::Failure;
use crate::files::shown;
use clap::ArgMatches;
use grain::{Caps, Chunk, Flags, Program, Refusal, Verified, VerifyError};
use grain_listing::push_capabilities;
use std::alloc::{AllocError, Global};

/// How many times its code the chunks of a program span by default, with what is below.
const TIMES: usize = 16;

/// How many bytes of code the chunks of a program span by default, with what is above.
const AT_LEAST: usize = 1024 * 1024;

/// The argument that bounds the work.
pub const WORK: Argument = Argument::Number {
    name: "work",
    value: "BYTES",
    is_required: false,
    help: "Refuse a program whose chunks span more bytes of code (default: 16 times its code and 1 MiB)",
};

/// What a host allows.
#[derive(Clone, Copy)]
pub struct Allowed {
    /// Its capabilities.
    pub host: Caps,
    /// How many bytes of code chunks may span, if the arguments say so.
    pub work: Option<u64>,
}

/// Why a host doesn't take a program.
#[derive(Clone, Copy)]
pub enum Obstacle {
    /// The program declares capabilities that the host lacks: these.
    Capabilities(Caps),
    /// Its chunks span more bytes of code than is allowed.
    Work {
        /// How many they span.
        spans: u64,
        /// How many are allowed.
        most: u64,
    },
    /// It is refused.
    Refused(Refusal),
}

/// What is allowed to a program that declares capabilities which each host has.
pub fn allowed_of(matches: &ArgMatches<'_>) -> Allowed {
    Allowed {
        host: Caps::all(),
        work: matches.get_one::<u64>("work"),
    }
}

fn span_of(chunk: Chunk) -> u64 {
    u64::from(chunk.end().saturating_sub(chunk.entry()))
}

/// How many bytes of code the chunks of a program span, each for itself: verification takes time by that.
fn spans_of(program: &Program) -> u64 {
    program
        .functions()
        .iter()
        .fold(span_of(program.main()), |spans, function| {
            spans.saturating_add(span_of(function.chunk))
        })
}

/// How many bytes of code the chunks of a program may span.
fn most_of(allowed: Allowed, program: &Program) -> u64 {
    let usual = program
        .code()
        .len()
        .saturating_mul(TIMES)
        .saturating_add(AT_LEAST);
    allowed.work.unwrap_or(usual as u64)
}

/// What keeps a host from looking at the chunks of a program.
pub fn obstacle_before(allowed: Allowed, program: &Program) -> Option<Obstacle> {
    let missing = program.caps().difference(allowed.host);
    if !missing.is_empty() {
        return Some(Obstacle::Capabilities(missing));
    }
    obstacle_of_work(allowed, program)
}

/// Whether the chunks of a program span more code than is allowed.
pub fn obstacle_of_work(allowed: Allowed, program: &Program) -> Option<Obstacle> {
    let (spans, most) = (spans_of(program), most_of(allowed, program));
    (spans > most).then_some(Obstacle::Work { spans, most })
}

/// The sentence about capabilities that the host lacks.
///
/// # Errors
/// [`AllocError`] if memory was refused.
pub fn push_lacking(missing: Caps, text: &mut String) -> Result<(), AllocError> {
    text.push_str("the host lacks capabilities that the program declares: ")?;
    push_capabilities(missing, text)
}

/// The sentence about what is in the way.
///
/// # Errors
/// [`AllocError`] if memory was refused.
pub fn sentence_of(alloc: Global, obstacle: Obstacle) -> Result<String, AllocError> {
    let mut text = String::new(alloc);
    match obstacle {
        Obstacle::Capabilities(missing) => push_lacking(missing, &mut text)?,
        Obstacle::Work { spans, most } => write!(
            text,
            "its chunks span {spans} bytes of code, and --work allows {most}"
        )?,
        Obstacle::Refused(refusal) => write!(text, "{}", refusal.error)?,
    }
    Ok(text)
}

/// Why a program isn't taken.
pub fn refused(alloc: Global, path: &str, obstacle: Obstacle) -> Failure {
    match sentence_of(alloc, obstacle) {
        Ok(text) => Failure::of(alloc, shown(path), text.as_str()),
        Err(AllocError) => Failure::OutOfMemory,
    }
}

/// Refuses a program whose chunks a host doesn't look at.
///
/// # Errors
/// The host lacks a capability, or the chunks span too much.
pub fn admit(
    alloc: Global,
    path: &str,
    allowed: Allowed,
    program: &Program,
) -> Result<(), Failure> {
    match obstacle_before(allowed, program) {
        None => Ok(()),
        Some(obstacle) => Err(refused(alloc, path, obstacle)),
    }
}

/// The program of a file, verified, if a host takes it.
///
/// # Errors
/// As [`admit`], and the program is refused.
pub fn verified_of(
    alloc: Global,
    path: &str,
    allowed: Allowed,
    program: Program,
) -> Result<Verified, Failure> {
    admit(alloc, path, allowed, &program)?;
    match program.into_verified() {
        Ok(verified) => Ok(verified),
        Err(rejected) if rejected.refusal.error == VerifyError::OutOfMemory => {
            Err(Failure::OutOfMemory)
        }
        Err(rejected) => Err(Failure::of(alloc, shown(path), format_args!("refused: {rejected}"))),
    }
}
