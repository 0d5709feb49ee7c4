//! `grain check`: whether scripts can be compiled.

use clap::ArgMatches;
use grain::pos::Site;
use grain_cli::arguments::{Argument, Subcommand};
use grain_cli::excerpt::push_message;
use grain_cli::failure::Failure;
use grain_cli::files::{read_bytes, shown};
use grain_cli::json_lines::{line_of, writer};
use grain_cli::output::write_standard;
use grain_scripts::modules::INCLUDE;
use grain_scripts::scripts::{Surroundings, compiled};
use grain_scripts::sources::text_of;
use grain_scripts::unknown::{Warning, unknown_calls};
use grain_scripts::variables::VARS;
use json::Writer;
use std::alloc::{AllocError, Global};

/// `grain check`
pub const SUBCOMMAND: Subcommand = Subcommand {
    name: "check",
    about: "Says whether scripts can be compiled, why not, and which functions are unknown",
    example: "Example:\n  grain check *.rhai",
    arguments: &[
        Argument::Words {
            name: "FILE",
            help: "The scripts, or - for standard input",
        },
        Argument::Flag {
            name: "json",
            letter: None,
            help: "Write a JSON object for each script, on a line of its own",
        },
        INCLUDE,
        VARS,
    ],
};

/// Appends a line or a column, or null if there is none.
fn write_number(json: &mut Writer, name: &str, number: Option<u32>) -> Result<(), AllocError> {
    json.key(name)?;
    match number {
        Some(number) => json.u64(u64::from(number)),
        None => json.null(),
    }
}

/// Appends an error as a JSON object: its line and column, null if it has none, and what is wrong.
fn write_error(json: &mut Writer, place: Site, message: &str) -> Result<(), AllocError> {
    let is_somewhere = place.is_some();
    json.begin_object()?;
    write_number(json, "line", is_somewhere.then_some(place.line))?;
    write_number(json, "column", is_somewhere.then_some(place.column))?;
    json.key("message")?;
    json.string(message)?;
    json.end_object()
}

/// Appends each error of a script, or the one for which it couldn't be read.
fn write_errors(alloc: Global, json: &mut Writer, failure: &Failure) -> Result<(), AllocError> {
    match failure {
        Failure::Script { errors, .. } => {
            for error in errors {
                let problem = error.problem;
                let message = format!(in alloc; "{problem}")?;
                write_error(json, error.place, message.as_str())?;
            }
            Ok(())
        }
        failure => {
            let message = format!(in alloc; "{failure}")?;
            write_error(json, Site::NONE, message.as_str())
        }
    }
}

/// Appends what is probably wrong in a script.
fn write_warnings(json: &mut Writer, warnings: &[Warning]) -> Result<(), AllocError> {
    for warning in warnings {
        write_error(json, warning.place, warning.message.as_str())?;
    }
    Ok(())
}

/// What was found in a script.
#[derive(Clone, Copy)]
struct Findings<'a> {
    /// Why it can't be read or compiled.
    failure: Option<&'a Failure>,
    /// What is probably wrong, if it can be compiled.
    warnings: &'a [Warning],
}

/// Appends the script, its errors and its warnings.
fn write_object(
    alloc: Global,
    json: &mut Writer,
    path: &str,
    found: Findings<'_>,
) -> Result<(), AllocError> {
    json.begin_object()?;
    json.key("file")?;
    json.string(path)?;
    json.key("errors")?;
    json.begin_array()?;
    if let Some(failure) = found.failure {
        write_errors(alloc, json, failure)?;
    }
    json.end_array()?;
    json.key("warnings")?;
    json.begin_array()?;
    write_warnings(json, found.warnings)?;
    json.end_array()?;
    json.end_object()
}

/// A line of JSON: the script, its errors and its warnings.
fn object_of(alloc: Global, path: &str, found: Findings<'_>) -> Result<Vec<u8>, AllocError> {
    let mut json = writer(alloc);
    write_object(alloc, &mut json, path, found)?;
    line_of(json)
}

/// A script that can be compiled.
#[derive(Drop)]
struct Checked {
    script: String,
    warnings: Vec<Warning>,
}

/// Reads and compiles a script.
fn check(
    rt: &HostRuntime,
    surroundings: &Surroundings<'_>,
    path: &str,
) -> Result<Checked, Failure> {
    let script = text_of(rt.alloc(), path, read_bytes(rt, path)?)?;
    let verified = compiled(rt, surroundings, path, script.as_str())?;
    let warnings = unknown_calls(rt.alloc(), verified.program())?;
    Ok(Checked { script, warnings })
}

/// What is probably wrong in a script, each with its line and a caret.
fn report_of(alloc: Global, path: &str, checked: &Checked) -> Result<String, AllocError> {
    let mut text = String::new(alloc);
    for warning in &checked.warnings {
        let sentence = warning.message.as_str();
        let message = format!(in alloc; "warning: {sentence}")?;
        push_message(
            shown(path),
            checked.script.as_str(),
            warning.place,
            message.as_str(),
            &mut text,
        )?;
    }
    Ok(text)
}

/// Says what is probably wrong in a script.
fn show(rt: &HostRuntime, is_json: bool, path: &str, checked: &Checked) -> Result<(), Failure> {
    if is_json {
        let found = Findings {
            failure: None,
            warnings: checked.warnings.as_slice(),
        };
        return write_standard(rt, &object_of(rt.alloc(), path, found)?);
    }
    let report = report_of(rt.alloc(), path, checked)?;
    // Warnings change no status: if standard error can't be written, nothing is lost but them.
    let _said = eprint!(rt; "{report}");
    Ok(())
}

/// Says why a script can't be read or compiled.
fn refuse(rt: &HostRuntime, is_json: bool, path: &str, failure: &Failure) -> Result<(), Failure> {
    if is_json {
        let found = Findings {
            failure: Some(failure),
            warnings: &[],
        };
        return write_standard(rt, &object_of(rt.alloc(), path, found)?);
    }
    failure.say(rt);
    Ok(())
}

/// Compiles a script, says what is wrong with it, and returns whether it can be compiled.
fn visit(
    rt: &HostRuntime,
    surroundings: &Surroundings<'_>,
    is_json: bool,
    path: &str,
) -> Result<bool, Failure> {
    match check(rt, surroundings, path) {
        Ok(checked) => {
            show(rt, is_json, path, &checked)?;
            Ok(true)
        }
        Err(Failure::OutOfMemory) => Err(Failure::OutOfMemory),
        Err(failure) => {
            refuse(rt, is_json, path, &failure)?;
            Ok(false)
        }
    }
}

/// Compiles each script, and says what is wrong. The status is 1 if one can't be compiled.
pub fn run(rt: &HostRuntime, matches: &ArgMatches<'_>) -> Result<u8, Failure> {
    let surroundings = Surroundings::of(rt, matches)?;
    let is_json = matches.get_flag("json");
    let mut status = 0u8;
    for path in matches.get_raw("FILE").unwrap_or_default() {
        if !visit(rt, &surroundings, is_json, path)? {
            status = 1;
        }
    }
    Ok(status)
}
