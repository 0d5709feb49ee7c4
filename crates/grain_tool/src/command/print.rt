//! `grain print`: the assembly text of a program file.

use clap::ArgMatches;
use grain::Program;
use grain_cli::arguments::{Argument, FILE, Subcommand};
use grain_cli::failure::Failure;
use grain_cli::files::read_program;
use grain_cli::output::Output;
use grain_cli::overlaps::refuse_input;
use grain_print::Printer;
use std::alloc::{AllocError, Global};
use std::io;
use std::io::Write;

/// `grain print`
pub const SUBCOMMAND: Subcommand = Subcommand {
    name: "print",
    about: "Prints a program file as assembly text",
    example: "Example:\n  grain print program.grain -o program.gasm",
    arguments: &[FILE, Argument::Output],
};

/// A piece of the assembly text of a program.
fn piece_of(alloc: Global, printer: &Printer<'_>, index: usize) -> Result<String, AllocError> {
    let mut text = String::new(alloc);
    printer.write_piece(index, &mut text)?;
    Ok(text)
}

/// Writes the assembly text of a program, piece by piece.
fn write_pieces<W: Write>(alloc: Global, output: &mut W, program: &Program) -> io::Result<()> {
    let printer = Printer::new(alloc, program)?;
    for index in 0..printer.count_pieces() {
        let text = piece_of(alloc, &printer, index)?;
        output.write_all(text.as_bytes())?;
    }
    Ok(())
}

/// Prints a program file.
pub fn run(rt: &HostRuntime, matches: &ArgMatches<'_>) -> Result<u8, Failure> {
    let path = matches.get_str("FILE").unwrap_or("-");
    let to = matches.get_str("output");
    refuse_input(rt, to, path)?;
    let program = read_program(rt, path)?;
    let mut output = Output::open(rt, to)?;
    let done = write_pieces(rt.alloc(), &mut output, &program);
    output.end(rt, done)?;
    Ok(0)
}
