//! `grain lines`: the listings of the cases on the lines of standard input.

use crate::command::list::paint_of;
use clap::ArgMatches;
use grain_cli::arguments::{Argument, Subcommand};
use grain_cli::failure::Failure;
use grain_lines::Summary;
use grain_list::Listings;
use grain_listing::Paint;
use std::io::{BufReader, BufWriter};

/// `grain lines`
pub const SUBCOMMAND: Subcommand = Subcommand {
    name: "lines",
    about: "Lists cases of bytecode, a line each: instructions, verdicts, and why a program is refused",
    example: "\
Cases, one on each line of standard input (docs/FORMAT.md has all of it):
  code HEX                   the instructions of code
  site HEX ADDRESS           the line and column that an address table records
  verify CAPS HEX CHUNK ..   the verdict on a program, explained
HEX is hexadecimal digits, or - for no bytes. CAPS is four hexadecimal digits,
7fff for all capabilities. CHUNK is ENTRY:END:DECLARED in decimal digits.

Example:
  echo 'verify 7fff 0213 0:2:8' | grain lines

Exit status:
  0  every case was listed, also where a program is refused
  1  some line was a bad case, a read or a write failed, or out of memory
  2  an argument is wrong, and nothing was read",
    arguments: &[
        Argument::Flag {
            name: "json",
            letter: None,
            help: "Write a JSON object for each case, on a line of its own",
        },
        Argument::Colour {
            help: "Colour listings",
        },
    ],
};

/// Lists the cases of standard input on standard output: as text with these colours, or as JSON if there are none.
fn list_cases(rt: &HostRuntime, paint: Option<Paint>) -> Result<Summary, Failure> {
    let alloc = rt.alloc();
    // Nothing is read or written yet: only the memory of the buffers can be refused.
    let mut reader = BufReader::new(alloc, rt.stdin()).map_err(Failure::of_output)?;
    let writer = BufWriter::new(alloc, rt.stdout()).map_err(Failure::of_output)?;
    let mut listings = Listings::new(alloc, paint, writer);
    grain_list::run(alloc, &mut reader, &mut listings)
}

/// Lists the cases of standard input. A bad case counts as a file that is refused.
pub fn run(rt: &HostRuntime, matches: &ArgMatches<'_>) -> Result<u8, Failure> {
    let summary = list_cases(rt, paint_of(rt, matches))?;
    Ok(u8::from(summary.bad > 0))
}
