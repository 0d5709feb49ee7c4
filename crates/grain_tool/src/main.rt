//! The command `grain`: works with scripts and program files (docs/COMMAND.md).
#![tactic(auto)]

mod command;
mod memory;
mod terminal;

use crate::command::WRONG_ARGUMENTS;
use clap::error::ErrorKind;
use grain_cli::failure::Failure;
use grain_listing::push_shown;
use std::alloc::{AllocError, Global};
use std::process::ExitCode;
use std::{env, io};

/// The program's name and its arguments.
fn words(rt: &HostRuntime) -> Result<Vec<String>, Failure> {
    match env::args(rt) {
        Ok(words) => Ok(words.collect(rt.alloc())?),
        Err(error) if error.kind() == io::ErrorKind::OutOfMemory => Err(Failure::OutOfMemory),
        Err(_) => Err(Failure::NotText),
    }
}

/// What is wrong with the arguments, in lines. Control characters of the arguments are escaped.
fn sentence_of(alloc: Global, said: &clap::Error) -> Result<String, AllocError> {
    let found = format!(in alloc; "{said}")?;
    let mut text = String::new(alloc);
    let mut is_first = true;
    for line in found.as_str().split('\n') {
        text.push_str(if is_first { "" } else { "\n" })?;
        push_shown(line, &mut text)?;
        is_first = false;
    }
    Ok(text)
}

/// Prints help, the version, or what is wrong with the arguments, and returns the status of the process.
fn say(rt: &HostRuntime, said: &clap::Error) -> Result<u8, Failure> {
    if said.kind() == ErrorKind::OutOfMemory {
        return Err(Failure::OutOfMemory);
    }
    if said.use_stderr() {
        let text = sentence_of(rt.alloc(), said)?;
        // If standard error can't be written either, the status alone says it.
        let _said = eprint!(rt; "{text}");
        return Ok(WRONG_ARGUMENTS);
    }
    match said.print(rt) {
        Ok(()) => Ok(0),
        Err(error) => Err(Failure::of_output(error)),
    }
}

/// Does what the arguments ask for, and returns the status of the process.
fn start(rt: &HostRuntime) -> Result<u8, Failure> {
    let words = words(rt)?;
    let parser = command::parser(rt.alloc())?;
    match parser.try_get_matches_from(words.as_slice()) {
        Ok(matches) => match matches.subcommand() {
            Some((name, inner)) => command::dispatch(rt, name, inner),
            None => Ok(WRONG_ARGUMENTS),
        },
        Err(said) => say(rt, &said),
    }
}

fn main(rt: HostRuntime) -> ExitCode {
    let status = match start(&rt) {
        Ok(status) => status,
        Err(failure) => {
            if !failure.is_left_alone() {
                failure.say(&rt);
            }
            if failure.is_of_arguments() {
                WRONG_ARGUMENTS
            } else {
                1
            }
        }
    };
    ExitCode::from(status)
}
