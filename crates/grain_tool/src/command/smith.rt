//! `grain smith`: the program file of a random program.

use clap::ArgMatches;
use grain_cli::arguments::{Argument, Subcommand};
use grain_cli::failure::Failure;
use grain_cli::files::file_of;
use grain_cli::output::write_binary;
use grain_smith::{SmithError, SmithOptions, smith, smith_near};
use std::alloc::Global;

/// What a program that was made is called in messages.
const MADE: &str = "random program";

/// `grain smith`
pub const SUBCOMMAND: Subcommand = Subcommand {
    name: "smith",
    about: "Writes the file of a random program that is accepted",
    example: "Example:\n  grain smith --seed 1 | grain validate -v -",
    arguments: &[
        Argument::Number {
            name: "seed",
            value: "N",
            is_required: true,
            help: "The number that decides which program it is",
        },
        Argument::Size {
            name: "size",
            value: "SIZE",
            default: "60",
            help: "About how many instructions it has",
        },
        Argument::Flag {
            name: "near",
            letter: None,
            help: "Change one thing, so that most programs are refused",
        },
        Argument::Output,
    ],
};

/// The file of a random program.
fn made(
    alloc: Global,
    seed: u64,
    options: SmithOptions,
    is_near: bool,
) -> Result<Vec<u8>, Failure> {
    let made = if is_near {
        smith_near(alloc, seed, &options)
    } else {
        smith(alloc, seed, &options).map(|verified| verified.into_program())
    };
    match made {
        Ok(program) => file_of(alloc, MADE, &program),
        Err(SmithError::OutOfMemory) => Err(Failure::OutOfMemory),
        Err(error) => Err(Failure::of(alloc, MADE, error)),
    }
}

/// Writes a random program.
pub fn run(rt: &HostRuntime, matches: &ArgMatches<'_>) -> Result<u8, Failure> {
    let seed = matches.get_one::<u64>("seed").unwrap_or(0);
    let options = SmithOptions {
        size: matches.get_one::<usize>("size").unwrap_or(0),
    };
    let bytes = made(rt.alloc(), seed, options, matches.get_flag("near"))?;
    write_binary(rt, matches.get_str("output"), &bytes)?;
    Ok(0)
}
