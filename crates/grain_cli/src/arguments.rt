//! Subcommands and their arguments as tables, of which `clap`'s commands are made.
//!
//! A function for each subcommand, with a chain of `clap`'s calls, takes the prover half a minute.

use clap::{Arg, ArgAction, Command, value_parser};
use grain_listing::colour_option;
use std::alloc::{AllocError, Global};

/// A subcommand.
#[derive(Clone, Copy)]
pub struct Subcommand {
    /// Its name.
    pub name: &'static str,
    /// What it does, in a sentence.
    pub about: &'static str,
    /// What its help ends with.
    pub example: &'static str,
    /// What it takes.
    pub arguments: &'static [Argument],
}

/// An argument of a subcommand.
#[derive(Clone, Copy)]
pub enum Argument {
    /// A word that must be there.
    Word {
        name: &'static str,
        help: &'static str,
    },
    /// One word or more.
    Words {
        name: &'static str,
        help: &'static str,
    },
    /// All words after `--`.
    Rest {
        name: &'static str,
        help: &'static str,
    },
    /// A flag, `--name`, and `-` with its letter.
    Flag {
        name: &'static str,
        letter: Option<char>,
        help: &'static str,
    },
    /// `--name VALUE`
    Text {
        name: &'static str,
        value: &'static str,
        is_required: bool,
        help: &'static str,
    },
    /// `--name VALUE`, which may be repeated.
    Texts {
        name: &'static str,
        value: &'static str,
        help: &'static str,
    },
    /// `--name VALUE` of 64 bits.
    Number {
        name: &'static str,
        value: &'static str,
        is_required: bool,
        help: &'static str,
    },
    /// `--name VALUE`, a size.
    Size {
        name: &'static str,
        value: &'static str,
        default: &'static str,
        help: &'static str,
    },
    /// `-o FILE`
    Output,
    /// `--color WHEN`
    Colour {
        help: &'static str,
    },
}

/// The file that a subcommand reads.
pub const FILE: Argument = Argument::Word {
    name: "FILE",
    help: "The file, or - for standard input",
};

/// An argument that has a value after its name.
fn valued<'a>(alloc: Global, name: &'a str, value: &'a str, help: &'a str) -> Arg<'a> {
    Arg::new(alloc, name)
        .long(name)
        .value_name(value)
        .help(help)
}

/// Texts, each after the name.
fn texts<'a>(alloc: Global, name: &'a str, value: &'a str, help: &'a str) -> Arg<'a> {
    valued(alloc, name, value, help).action(ArgAction::Append)
}

/// A number after its name.
fn number<'a>(alloc: Global, name: &'a str, value: &'a str, help: &'a str) -> Arg<'a> {
    valued(alloc, name, value, help).value_parser(value_parser!(u64))
}

/// A size after its name.
fn size<'a>(alloc: Global, name: &'a str, value: &'a str, help: &'a str) -> Arg<'a> {
    valued(alloc, name, value, help).value_parser(value_parser!(usize))
}

/// A flag.
fn flag<'a>(alloc: Global, name: &'a str, letter: Option<char>, help: &'a str) -> Arg<'a> {
    let flag = Arg::new(alloc, name)
        .long(name)
        .action(ArgAction::SetTrue)
        .help(help);
    match letter {
        Some(letter) => flag.short(letter),
        None => flag,
    }
}

/// One word that has to be there.
fn word<'a>(alloc: Global, name: &'a str, help: &'a str) -> Arg<'a> {
    Arg::new(alloc, name).required(true).help(help)
}

/// One word or more.
fn words<'a>(alloc: Global, name: &'a str, help: &'a str) -> Arg<'a> {
    word(alloc, name, help)
        .action(ArgAction::Append)
        .num_args(1..)
}

/// All words behind `--`.
fn rest<'a>(alloc: Global, name: &'a str, help: &'a str) -> Arg<'a> {
    Arg::new(alloc, name).num_args(0..).last(true).help(help)
}

/// The file that is written.
fn output<'a>(alloc: Global) -> Arg<'a> {
    Arg::new(alloc, "output")
        .short('o')
        .value_name("FILE")
        .help("Write to this file in place of standard output")
}

/// An argument as `clap` has it. Each arm calls a function: a chain of calls in each costs the prover more.
fn argument_of<'a>(alloc: Global, from: &Argument) -> Arg<'a> {
    match *from {
        Argument::Word { name, help } => word(alloc, name, help),
        Argument::Words { name, help } => words(alloc, name, help),
        Argument::Rest { name, help } => rest(alloc, name, help),
        Argument::Flag { name, letter, help } => flag(alloc, name, letter, help),
        Argument::Text {
            name,
            value,
            is_required,
            help,
        } => valued(alloc, name, value, help).required(is_required),
        Argument::Texts { name, value, help } => texts(alloc, name, value, help),
        Argument::Number {
            name,
            value,
            is_required,
            help,
        } => number(alloc, name, value, help).required(is_required),
        Argument::Size {
            name,
            value,
            default,
            help,
        } => size(alloc, name, value, help).default_value(default),
        Argument::Output => output(alloc),
        Argument::Colour { help } => colour_option(alloc, help),
    }
}

/// A subcommand as `clap` has it.
pub fn command_of<'a>(alloc: Global, from: &Subcommand) -> Result<Command<'a>, AllocError> {
    let mut command = Command::new(alloc, from.name)
        .about(from.about)
        .after_help(from.example);
    for argument in from.arguments {
        command = command.arg(argument_of(alloc, argument))?;
    }
    Ok(command)
}
