//! The command with its subcommands.

mod addr2line;
mod check;
mod compile;
mod dump;
mod flow;
mod lines;
mod list;
mod parse;
mod print;
mod run;
mod smith;
mod strip;
mod validate;

use clap::{ArgMatches, Command};
use grain_cli::arguments::{Subcommand, command_of};
use grain_cli::failure::Failure;
use std::alloc::{AllocError, Global};

/// What the program is called, whatever its file is.
const NAME: &str = "grain";

/// The version of the program.
const VERSION: &str = "0.2.0";

/// What `--help` says after the options.
const AFTER_HELP: &str = "\
FILE may be - for standard input. Colours are used by --color=auto where standard
output is a terminal, TERM is not dumb, and NO_COLOR is not set or is empty.

Example:
  echo return | grain parse - | grain validate -v -

Exit status:
  0  done
  1  a file is refused, or could not be read or written
  2  an argument is wrong";

/// The subcommands, in the order in which `--help` lists them.
const SUBCOMMANDS: &[Subcommand] = &[
    run::SUBCOMMAND,
    check::SUBCOMMAND,
    compile::SUBCOMMAND,
    validate::SUBCOMMAND,
    print::SUBCOMMAND,
    parse::SUBCOMMAND,
    list::SUBCOMMAND,
    lines::SUBCOMMAND,
    flow::SUBCOMMAND,
    dump::SUBCOMMAND,
    smith::SUBCOMMAND,
    strip::STRIP,
    strip::ATTACH,
    addr2line::SUBCOMMAND,
];

/// The status for wrong arguments. It is that of `clap`.
pub const WRONG_ARGUMENTS: u8 = 2;

/// The command with its texts.
fn described<'a>(alloc: Global) -> Result<Command<'a>, AllocError> {
    Ok(
        Command::new(alloc, NAME)
            .bin_name(NAME)?
            .version(VERSION)
            .about("Compiles, verifies and runs Rhai scripts as Grain bytecode")
            .after_help(AFTER_HELP),
    )
}

/// The command without its subcommands.
fn bare<'a>(alloc: Global) -> Result<Command<'a>, AllocError> {
    Ok(
        described(alloc)?
            .subcommand_required(true)
            .arg_required_else_help(true)
            .propagate_version(true),
    )
}

/// The command with one subcommand more.
fn with_subcommand<'a>(
    alloc: Global,
    command: Command<'a>,
    subcommand: &Subcommand,
) -> Result<Command<'a>, AllocError> {
    command.subcommand(command_of(alloc, subcommand)?)
}

/// The parser of the command's arguments.
pub fn parser<'a>(alloc: Global) -> Result<Command<'a>, AllocError> {
    let mut command = bare(alloc)?;
    for subcommand in SUBCOMMANDS {
        command = with_subcommand(alloc, command, subcommand)?;
    }
    Ok(command)
}

/// Does what a subcommand asks for, and returns the status of the process.
pub fn dispatch(rt: &HostRuntime, name: &str, matches: &ArgMatches<'_>) -> Result<u8, Failure> {
    match name {
        "compile" => compile::run(rt, matches),
        "check" => check::run(rt, matches),
        "validate" => validate::run(rt, matches),
        "print" => print::run(rt, matches),
        "parse" => parse::run(rt, matches),
        "run" => run::run(rt, matches),
        "smith" => smith::run(rt, matches),
        "list" => list::run(rt, matches),
        "lines" => lines::run(rt, matches),
        "flow" => flow::run(rt, matches),
        "dump" => dump::run(rt, matches),
        "strip" => strip::strip(rt, matches),
        "attach" => strip::attach(rt, matches),
        "addr2line" => addr2line::run(rt, matches),
        _ => Ok(WRONG_ARGUMENTS),
    }
}
