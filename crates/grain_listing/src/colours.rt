//! Whether a terminal gets colours: the option `--color`.

use crate::paint::Paint;
use clap::{Arg, ArgMatches};
use std::alloc::Global;
use std::env;
use std::env::VarError;
use std::io::IsTerminal;

/// What the option is called.
const COLOR: &str = "color";

/// The values of `--color`.
static COLOURS: [&str; 3] = ["auto", "always", "never"];

/// When something is coloured.
#[derive(Clone, Copy)]
pub enum Colours {
    /// On a terminal that has colours, unless the environment says otherwise.
    Auto,
    /// In any case.
    Always,
    /// In no case.
    Never,
}

/// The option `--color`, with what `--help` says of it.
pub fn colour_option<'a>(alloc: Global, help: &'a str) -> Arg<'a> {
    Arg::new(alloc, COLOR)
        .long(COLOR)
        .value_name("WHEN")
        .value_parser(COLOURS.as_slice())
        .num_args(0..=1)
        .require_equals(true)
        .default_value("auto")
        .default_missing_value("always")
        .help(help)
}

/// Whether the environment asks for no colours: by a `NO_COLOR` that isn't empty, or by a terminal that has none.
fn is_plain(rt: &HostRuntime) -> bool {
    let no_color = match env::var(rt, "NO_COLOR") {
        Ok(value) => !value.is_empty(),
        Err(VarError::NotPresent) => false,
        Err(_) => true,
    };
    no_color || matches!(env::var(rt, "TERM"), Ok(term) if term.as_str() == "dumb")
}

impl Colours {
    /// When something is coloured, by the value of `--color`.
    pub fn of(matches: &ArgMatches<'_>) -> Colours {
        match matches.get_str(COLOR) {
            Some("always") => Colours::Always,
            Some("never") => Colours::Never,
            _ => Colours::Auto,
        }
    }

    /// Whether what goes to standard output is coloured.
    pub fn paint(self, rt: &HostRuntime) -> Paint {
        let is_coloured = match self {
            Colours::Always => true,
            Colours::Never => false,
            Colours::Auto => rt.stdout().is_terminal() && !is_plain(rt),
        };
        if is_coloured {
            Paint::Coloured
        } else {
            Paint::Plain
        }
    }
}
